// Cases of the calls, through `answer`, which each call by value is. Each call has a line: its number; the first three words of the offers
// list, all 9 before it; of the session after it the choices and the strikes of fields 0 and 1, the count of events, and the mask of the
// selected fields.
#![tactic(auto)]

mod forged; // forged.rt: sessions that no call has made
mod line; // line.rt: the lines
mod refused; // refused.rt: spaces, sheets, arguments, reaches and orders
mod run; // run.rt: a call run on a sheet
mod script; // script.rt: calls one after another, written as text
mod selected; // selected.rt: the selected fields

use ledger::{STRIKE, WITHDRAW_STRIKE};
use run::{decides, quiet, started};
use script::play;
use session::{Session, fresh};
use std::io;

// Sheet D by an engine: a strike withdrawn before the choice made after it, and single decisions.
fn sheet_d(rt: &impl Print, engine: u32) -> io::Result<()> {
    println!(rt; "-- sheet D, engine {engine}")?;
    play(rt, fresh(), engine, b"o.3 s02 c11 c10 S02 h.. C10 b.. o.3 ")?;
    play(rt, started(), engine, b"c00 s00 ")
}

// A strike and its withdrawal, 31 times.
fn sixty_two() -> Session {
    let mut s = started();
    for _ in 0..31 {
        s = quiet(decides(STRIKE, 0, 2), s);
        s = quiet(decides(WITHDRAW_STRIKE, 0, 2), s);
    }
    s
}

fn events(rt: &impl Print) -> io::Result<()> {
    println!(rt; "-- 10 and 11: in force or not")?;
    play(rt, started(), 1, b"S02 s02 s02 C02 S01 c02 c01 c01 c02 ")?;
    println!(rt; "-- 13: back")?;
    play(rt, started(), 1, b"b.. s02 S02 b.. b.. b.. ")?;
    println!(rt; "-- coil-on, then back")?;
    play(rt, started(), 1, b"s02 n.. b.. s02 h.. S02 ")?;
    println!(rt; "-- 12: 62 events, and more")?;
    play(
        rt,
        sixty_two(),
        1,
        b"s02 S02 s02 S02 c00 h.. b.. b.. c10 c00 c01 c01 n.. ",
    )
}

fn main(rt: HostRuntime) -> io::Result<()> {
    for engine in [1, 2, 3] {
        sheet_d(&rt, engine)?;
    }
    events(&rt)?;
    refused::cases(&rt)?;
    selected::cases(&rt)?;
    forged::cases(&rt)
}
