// Belaykeel: each call with the session by `&mut`. What a call answers is said in the crate `answering`. The crate `belaykeel_c` exports
// the same functions to C.
#![tactic(auto)]

ghost use Rattle.std.specs.Prelude.{◌≡◌};
ghost use Rattle.ledger.specs.declared.Call.{Call};
ghost use Rattle.ledger.specs.Ledger.{CHOOSE, STRIKE, WITHDRAW_CHOICE, WITHDRAW_STRIKE, decides};
ghost use Rattle.limits.specs.Refusals.{number_of};
ghost use Rattle.answering.specs.Answer.{after, spaces, Answers};
ghost use Rattle.sheet.specs.Sources.{Gives, reading, writing};

use limits::refusals::Refusal;
use session::Session;
use sheet::answer::Answer;

// The number of a call. The session that an accepted call gives is put in the place of the one before; a refused call leaves it.
fn keep(session: &mut Session, answer: Result<Session, Refusal>) -> u32
    ensures { (result ≡ number_of answer) × (session.new ≡ after session.old answer) }
{
    match answer {
        Ok(next) => {
            *session = next;
            0
        }
        Err(refusal) => refusal.number(),
    }
}

pub fn belaykeel_open(
    session: &mut Session,
    sheet: &[u8],
    engine: u32,
    order: &[u8],
    selected: u32,
    offers: &mut [u32],
    rows: &mut [u32],
    memory: &mut [u32],
) -> u32
    ensures { Answers (Call.Open selected) session.old sheet.now engine order.now
        (spaces offers.old rows.old memory.old)
        result session.new (spaces offers.new rows.new memory.new) }
{
    let answer = calls::open(
        *session, sheet, engine, order, selected, offers, rows, memory,
    );
    keep(session, answer)
}

pub fn belaykeel_show(
    session: &mut Session,
    sheet: &[u8],
    engine: u32,
    order: &[u8],
    offers: &mut [u32],
    rows: &mut [u32],
    memory: &mut [u32],
) -> u32
    ensures { Answers Call.Show session.old sheet.now engine order.now
        (spaces offers.old rows.old memory.old)
        result session.new (spaces offers.new rows.new memory.new) }
{
    let answer = calls::show(*session, sheet, engine, order, offers, rows, memory);
    keep(session, answer)
}

pub fn belaykeel_choose(
    session: &mut Session,
    sheet: &[u8],
    engine: u32,
    order: &[u8],
    field: u32,
    position: u32,
    offers: &mut [u32],
    rows: &mut [u32],
    memory: &mut [u32],
) -> u32
    ensures { Answers (decides CHOOSE field position) session.old sheet.now engine order.now
        (spaces offers.old rows.old memory.old)
        result session.new (spaces offers.new rows.new memory.new) }
{
    let answer = calls::choose(
        *session, sheet, engine, order, field, position, offers, rows, memory,
    );
    keep(session, answer)
}

pub fn belaykeel_strike(
    session: &mut Session,
    sheet: &[u8],
    engine: u32,
    order: &[u8],
    field: u32,
    position: u32,
    offers: &mut [u32],
    rows: &mut [u32],
    memory: &mut [u32],
) -> u32
    ensures { Answers (decides STRIKE field position) session.old sheet.now engine order.now
        (spaces offers.old rows.old memory.old)
        result session.new (spaces offers.new rows.new memory.new) }
{
    let answer = calls::strike(
        *session, sheet, engine, order, field, position, offers, rows, memory,
    );
    keep(session, answer)
}

pub fn belaykeel_withdraw_choice(
    session: &mut Session,
    sheet: &[u8],
    engine: u32,
    order: &[u8],
    field: u32,
    position: u32,
    offers: &mut [u32],
    rows: &mut [u32],
    memory: &mut [u32],
) -> u32
    ensures { Answers (decides WITHDRAW_CHOICE field position) session.old
        sheet.now engine order.now
        (spaces offers.old rows.old memory.old)
        result session.new (spaces offers.new rows.new memory.new) }
{
    let answer = calls::withdraw_choice(
        *session, sheet, engine, order, field, position, offers, rows, memory,
    );
    keep(session, answer)
}

pub fn belaykeel_withdraw_strike(
    session: &mut Session,
    sheet: &[u8],
    engine: u32,
    order: &[u8],
    field: u32,
    position: u32,
    offers: &mut [u32],
    rows: &mut [u32],
    memory: &mut [u32],
) -> u32
    ensures { Answers (decides WITHDRAW_STRIKE field position) session.old
        sheet.now engine order.now
        (spaces offers.old rows.old memory.old)
        result session.new (spaces offers.new rows.new memory.new) }
{
    let answer = calls::withdraw_strike(
        *session, sheet, engine, order, field, position, offers, rows, memory,
    );
    keep(session, answer)
}

pub fn belaykeel_back(
    session: &mut Session,
    sheet: &[u8],
    engine: u32,
    order: &[u8],
    offers: &mut [u32],
    rows: &mut [u32],
    memory: &mut [u32],
) -> u32
    ensures { Answers Call.Back session.old sheet.now engine order.now
        (spaces offers.old rows.old memory.old)
        result session.new (spaces offers.new rows.new memory.new) }
{
    let answer = calls::back(*session, sheet, engine, order, offers, rows, memory);
    keep(session, answer)
}

pub fn belaykeel_coil_on(
    session: &mut Session,
    sheet: &[u8],
    engine: u32,
    order: &[u8],
    offers: &mut [u32],
    rows: &mut [u32],
    memory: &mut [u32],
) -> u32
    ensures { Answers Call.CoilOn session.old sheet.now engine order.now
        (spaces offers.old rows.old memory.old)
        result session.new (spaces offers.new rows.new memory.new) }
{
    let answer = calls::coil_on(*session, sheet, engine, order, offers, rows, memory);
    keep(session, answer)
}

// Reads a sheet's bytes to its list of numbers.
pub fn belaykeel_read(sheet: &[u8], output: &mut [u32]) -> Answer
    ensures { Gives (reading sheet.now output.old) result output.new }
{
    Answer::from(sheet::reading::read(sheet, output))
}

// Writes a list of numbers as a sheet's bytes.
pub fn belaykeel_write(numbers: &[u32], output: &mut [u8]) -> Answer
    ensures { Gives (writing numbers.now output.old) result output.new }
{
    Answer::from(sheet::writing::write(numbers, output))
}
