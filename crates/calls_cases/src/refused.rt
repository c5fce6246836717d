// Spaces that are too short, sheets that are refused, and arguments, engines and orders that are not as they should be.
ghost use Rattle.std.specs.Prelude.{◌≤◌};
ghost use Rattle.limits.specs.Limits.{offers_words, rows_words, memory_words};

use super::forged::overfull;
use super::line::Changed;
use super::run::{BOTH, RISING, decides, long_list, number_of, on_d, on_sheet, started};
use super::script::one;
use answering::answer::answer;
use ledger::{CHOOSE, Call, STRIKE, WITHDRAW_CHOICE, WITHDRAW_STRIKE};
use limits::{MEMORY_WORDS, OFFERS_WORDS, ROWS_WORDS};
use session::fresh;
use std::io;

// What each word of the spaces is before a call.
const BEFORE: u32 = 5;

fn changed(words: &[u32]) -> Changed<'_> {
    Changed {
        words,
        before: BEFORE,
    }
}

// Open on a sheet that 2 would refuse, with spaces of these lengths.
fn short(rt: &impl Print, name: &str, list: usize, first: usize, second: usize) -> io::Result<()>
    requires { (list ≤ offers_words) × (first ≤ rows_words) × (second ≤ memory_words) }
{
    let mut offers = [BEFORE; OFFERS_WORDS];
    let mut rows = [BEFORE; ROWS_WORDS];
    let mut memory = [BEFORE; MEMORY_WORDS];
    let offers = &mut offers[..list];
    let rows = &mut rows[..first];
    let memory = &mut memory[..second];
    let number = number_of(answer(
        fresh(),
        Call::Open(BOTH),
        b"\x80\x00",
        0,
        b"",
        offers,
        rows,
        memory,
    ));
    println!(rt;
        "{name}: {number}, {}, {}, {}",
        changed(offers),
        changed(rows),
        changed(memory)
    )
}

fn spaces(rt: &impl Print) -> io::Result<()> {
    println!(rt; "-- 6, before 2: offers, rows, memory")?;
    short(rt, "offers of 23", 23, ROWS_WORDS, MEMORY_WORDS)?;
    short(rt, "rows of 13247", OFFERS_WORDS, 13247, MEMORY_WORDS)?;
    short(rt, "memory of 13823", OFFERS_WORDS, ROWS_WORDS, 13823)?;
    short(rt, "no words", 0, 0, 0)?;
    println!(rt; "-- an offers list of 30 words")?;
    long_list(rt, "open", Call::Open(BOTH))?;
    long_list(rt, "choose 0/0", decides(CHOOSE, 0, 0))
}

// Show of a malformed session, with engine 0 and no order.
fn sheets(rt: &impl Print) -> io::Result<()> {
    println!(rt; "-- 1 to 5, before 15")?;
    let sheets: [(&str, &[u8]); 9] = [
        ("no bytes", b""),
        (
            "sheet D, its last byte missing",
            b"\x02\x03\x64\xC8\x01\xAC\x02\x03\x64\xC8\x01\xAC\x02\x18\x01\x00\x01\x01",
        ),
        ("80 00", b"\x80\x00"),
        ("80 80 80 80", b"\x80\x80\x80\x80"),
        ("25 fields", b"\x19"),
        ("i = j", b"\x02\x01\x00\x01\x00\x18\x01\x01\x01\x01\x00"),
        ("a count of 0 triples", b"\x01\x01\xAC\x02\x18\x00\x00"),
        (
            "a byte after a triple",
            b"\x03\x01\x00\x01\x00\x01\x00\x18\x00\x01\x00\x01\x02\x05\x00",
        ),
        ("a right sheet", b"\x01\x01\xAC\x02\x18\x00"),
    ];
    for (name, sheet) in sheets {
        print!(rt; "{name}")?;
        on_sheet(rt, Call::Show, overfull(), sheet, 0, b"")?;
    }
    Ok(())
}

// Open on sheet D at reach 1.
fn reaches(rt: &impl Print) -> io::Result<()> {
    println!(rt; "-- every engine at reach 1")?;
    let sheet = b"\x02\x03\x64\xC8\x01\xAC\x02\x03\x64\xC8\x01\xAC\x02\x01\x01\x00\x01\x01\x64";
    let cases: [(&str, u32, &[u8]); 4] = [
        ("engine 1", 1, RISING),
        ("engine 2", 2, RISING),
        ("engine 2, no order", 2, b""),
        ("engine 3", 3, RISING),
    ];
    for (name, engine, order) in cases {
        print!(rt; "{name}")?;
        on_sheet(rt, Call::Open(BOTH), fresh(), sheet, engine, order)?;
    }
    Ok(())
}

// Open with an order, and a choice.
fn orders(rt: &impl Print) -> io::Result<()> {
    println!(rt; "-- 9, before 14")?;
    let cases: [(&str, u32, &[u8]); 6] = [
        ("1 0", 1, b"\x01\x00"),
        ("no order", 1, b""),
        ("0", 1, b"\x00"),
        ("0 0", 2, b"\x00\x00"),
        ("0 2", 3, b"\x00\x02"),
        ("0 1 0", 1, b"\x00\x01\x00"),
    ];
    for (name, engine, order) in cases {
        print!(rt; "{name}")?;
        on_d(rt, Call::Open(BOTH), fresh(), engine, order)?;
    }
    print!(rt; "choose 0/0, 1 1")?;
    on_d(rt, decides(CHOOSE, 0, 0), started(), 1, b"\x01\x01")?;
    Ok(())
}

fn arguments(rt: &impl Print) -> io::Result<()> {
    println!(rt; "-- 7")?;
    for call in [
        decides(STRIKE, 2, 0),
        decides(STRIKE, 0, 3),
        decides(CHOOSE, 24, 0),
        decides(CHOOSE, 0, u32::MAX),
        decides(WITHDRAW_STRIKE, 0, 32),
        decides(WITHDRAW_CHOICE, u32::MAX, 0),
    ] {
        one(rt, call, started(), 1)?;
    }
    for engine in [0, 4, u32::MAX] {
        print!(rt; "engine {engine}, ")?;
        one(rt, Call::Show, started(), engine)?;
    }
    Ok(())
}

pub fn cases(rt: &impl Print) -> io::Result<()> {
    spaces(rt)?;
    sheets(rt)?;
    arguments(rt)?;
    reaches(rt)?;
    orders(rt)
}
