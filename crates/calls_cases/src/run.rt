// A call run on a sheet.
use super::line::{Changed, answered};
use answering::answer::answer;
use ledger::{Call, Event};
use limits::refusals::Refusal;
use limits::{MEMORY_WORDS, OFFERS_WORDS, ROWS_WORDS};
use session::{Session, fresh};
use std::io;

// What each word of the offers list and of the work spaces is before a call.
const OFFERS_BEFORE: u32 = 9;

const ROOM_BEFORE: u32 = u32::MAX;

const SHEET_D: &[u8] =
    b"\x02\x03\x64\xC8\x01\xAC\x02\x03\x64\xC8\x01\xAC\x02\x18\x01\x00\x01\x01\x64";

// The fields of sheet D in rising order, and the mask of both.
pub const RISING: &[u8] = b"\x00\x01";

pub const BOTH: u32 = 3;

// A session as open leaves it: no decisions, no events, both fields of sheet D selected.
pub fn started() -> Session {
    Session {
        selected: BOTH,
        ..fresh()
    }
}

// A call that changes the decisions, by the kind of its event.
pub fn decides(kind: u32, field: u32, position: u32) -> Call {
    Call::Decide(Event {
        kind,
        field,
        position,
    })
}

// The number of a call.
pub fn number_of(answer: Result<Session, Refusal>) -> u32 {
    match answer {
        Ok(_) => 0,
        Err(refusal) => refusal.number(),
    }
}

// A call with work spaces of the least length.
fn roomy(
    call: Call,
    s: Session,
    sheet: &[u8],
    engine: u32,
    order: &[u8],
    offers: &mut [u32],
) -> Result<Session, Refusal> {
    let mut rows = [ROOM_BEFORE; ROWS_WORDS];
    let mut memory = [ROOM_BEFORE; MEMORY_WORDS];
    answer(
        s,
        call,
        sheet,
        engine,
        order,
        offers,
        &mut rows,
        &mut memory,
    )
}

// A call on any sheet, with any engine and order, and the end of its line. The session after it.
pub fn on_sheet(
    rt: &impl Print,
    call: Call,
    s: Session,
    sheet: &[u8],
    engine: u32,
    order: &[u8],
) -> io::Result<Session> {
    let mut offers = [OFFERS_BEFORE; OFFERS_WORDS];
    let answer = roomy(call, s, sheet, engine, order, &mut offers);
    let after = answer.unwrap_or(s);
    answered(rt, number_of(answer), &offers, &after)?;
    Ok(after)
}

// The same on sheet D.
pub fn on_d(
    rt: &impl Print,
    call: Call,
    s: Session,
    engine: u32,
    order: &[u8],
) -> io::Result<Session> {
    on_sheet(rt, call, s, SHEET_D, engine, order)
}

// A call on sheet D with engine 1 that prints nothing. The session after it.
pub fn quiet(call: Call, s: Session) -> Session {
    let mut offers = [OFFERS_BEFORE; OFFERS_WORDS];
    roomy(call, s, SHEET_D, 1, RISING, &mut offers).unwrap_or(s)
}

// With an offers list of 30 words: how many change.
pub fn long_list(rt: &impl Print, name: &str, call: Call) -> io::Result<()> {
    let mut offers = [OFFERS_BEFORE; 30];
    let number = number_of(roomy(call, started(), SHEET_D, 1, RISING, &mut offers));
    let changed = Changed {
        words: &offers,
        before: OFFERS_BEFORE,
    };
    println!(rt; "{name}: {number}, {changed}")
}
