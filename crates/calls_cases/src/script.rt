// Calls one after another, written as text. A call has four bytes: a letter, the digits of a field and a position, and a blank. The second
// digit of open is the mask of the selected fields.
use super::run::{RISING, decides, on_d};
use ledger::{CHOOSE, Call, STRIKE, WITHDRAW_CHOICE, WITHDRAW_STRIKE};
use session::Session;
use std::{fmt, io};

// o open, h show, c choose, s strike, C withdraw choice, S withdraw strike, b back, n coil-on.
fn call_of(letter: u8, f: u32, v: u32) -> Call {
    match letter {
        b'o' => Call::Open(v),
        b'c' => decides(CHOOSE, f, v),
        b's' => decides(STRIKE, f, v),
        b'C' => decides(WITHDRAW_CHOICE, f, v),
        b'S' => decides(WITHDRAW_STRIKE, f, v),
        b'b' => Call::Back,
        b'n' => Call::CoilOn,
        _ => Call::Show,
    }
}

// What a call does to the decisions, by the kind of its event.
fn decision(kind: u32) -> &'static str {
    match kind {
        CHOOSE => "choose",
        STRIKE => "strike",
        WITHDRAW_CHOICE => "withdraw choice",
        _ => "withdraw strike",
    }
}

// A call's name, with the setting of its decision.
#[derive(Clone, Copy)]
struct Named(Call);

impl fmt::Display for Named {
    fn fmt<W: fmt::Write>(&self, f: &mut fmt::Formatter<W>) -> fmt::Result {
        match self.0 {
            Call::Open(selected) => write!(f, "open {selected}"),
            Call::Show => write!(f, "show"),
            Call::Decide(e) => write!(f, "{} {}/{}", decision(e.kind), e.field, e.position),
            Call::Back => write!(f, "back"),
            Call::CoilOn => write!(f, "coil-on"),
        }
    }
}

// A call on sheet D, with its whole line. The session after it.
pub fn one(rt: &impl Print, call: Call, s: Session, engine: u32) -> io::Result<Session> {
    print!(rt; "{}", Named(call))?;
    on_d(rt, call, s, engine, RISING)
}

fn digit(b: u8) -> u32 {
    u32::from(b.saturating_sub(b'0'))
}

// The calls of a script on sheet D, with an engine.
pub fn play(rt: &impl Print, start: Session, engine: u32, script: &[u8]) -> io::Result<()> {
    let mut s = start;
    for bytes in script.chunks_exact(4) {
        let call = call_of(bytes[0], digit(bytes[1]), digit(bytes[2]));
        s = one(rt, call, s, engine)?;
    }
    Ok(())
}
