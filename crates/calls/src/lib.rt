// The calls, the session by value. Each is given the sheet's bytes, an engine, an order of the fields, if it is open the mask of the
// selected fields, the decision that it is about if it is about one, and the spaces that it is lent.
#![tactic(auto)]

ghost use Rattle.std.specs.Prelude.{◌≡◌};
ghost use Rattle.ledger.specs.declared.Call.TheVariants.{Open, Show, Back, CoilOn};
ghost use Rattle.ledger.specs.Ledger.{CHOOSE, STRIKE, WITHDRAW_CHOICE, WITHDRAW_STRIKE, decides};
ghost use Rattle.limits.specs.Refusals.{number_of};
ghost use Rattle.answering.specs.Answer.{after, spaces, Answers};

use answering::answer::answer;
use ledger::{CHOOSE, Call, Event, STRIKE, WITHDRAW_CHOICE, WITHDRAW_STRIKE};
use limits::refusals::Refusal;
use session::Session;

// The call that changes the decisions by an event of a kind.
pub fn decides(kind: u32, field: u32, position: u32) -> Call
    ensures { result ≡ decides kind field position }
{
    let e = Event {
        kind,
        field,
        position,
    };
    Call::Decide(e)
}

// The decisions and events are dropped, the mask of selected fields is put into the session, and the sheet's offers are shown.
pub fn open(
    session: Session,
    sheet: &[u8],
    engine: u32,
    order: &[u8],
    selected: u32,
    offers: &mut [u32],
    rows: &mut [u32],
    memory: &mut [u32],
) -> Result<Session, Refusal>
    ensures { Answers (Open selected) session sheet.now engine order.now
        (spaces offers.old rows.old memory.old)
        (number_of result) (after session result) (spaces offers.new rows.new memory.new) }
{
    let call = Call::Open(selected);
    answer(session, call, sheet, engine, order, offers, rows, memory)
}

// Nothing changes, and the offers are shown.
pub fn show(
    session: Session,
    sheet: &[u8],
    engine: u32,
    order: &[u8],
    offers: &mut [u32],
    rows: &mut [u32],
    memory: &mut [u32],
) -> Result<Session, Refusal>
    ensures { Answers Show session sheet.now engine order.now
        (spaces offers.old rows.old memory.old)
        (number_of result) (after session result) (spaces offers.new rows.new memory.new) }
{
    let call = Call::Show;
    answer(session, call, sheet, engine, order, offers, rows, memory)
}

// A choice is added.
pub fn choose(
    session: Session,
    sheet: &[u8],
    engine: u32,
    order: &[u8],
    field: u32,
    position: u32,
    offers: &mut [u32],
    rows: &mut [u32],
    memory: &mut [u32],
) -> Result<Session, Refusal>
    ensures { Answers (decides CHOOSE field position) session sheet.now engine order.now
        (spaces offers.old rows.old memory.old)
        (number_of result) (after session result) (spaces offers.new rows.new memory.new) }
{
    let call = decides(CHOOSE, field, position);
    answer(session, call, sheet, engine, order, offers, rows, memory)
}

// A strike is added.
pub fn strike(
    session: Session,
    sheet: &[u8],
    engine: u32,
    order: &[u8],
    field: u32,
    position: u32,
    offers: &mut [u32],
    rows: &mut [u32],
    memory: &mut [u32],
) -> Result<Session, Refusal>
    ensures { Answers (decides STRIKE field position) session sheet.now engine order.now
        (spaces offers.old rows.old memory.old)
        (number_of result) (after session result) (spaces offers.new rows.new memory.new) }
{
    let call = decides(STRIKE, field, position);
    answer(session, call, sheet, engine, order, offers, rows, memory)
}

// A choice is withdrawn.
pub fn withdraw_choice(
    session: Session,
    sheet: &[u8],
    engine: u32,
    order: &[u8],
    field: u32,
    position: u32,
    offers: &mut [u32],
    rows: &mut [u32],
    memory: &mut [u32],
) -> Result<Session, Refusal>
    ensures { Answers (decides WITHDRAW_CHOICE field position) session sheet.now engine order.now
        (spaces offers.old rows.old memory.old)
        (number_of result) (after session result) (spaces offers.new rows.new memory.new) }
{
    let call = decides(WITHDRAW_CHOICE, field, position);
    answer(session, call, sheet, engine, order, offers, rows, memory)
}

// A strike is withdrawn.
pub fn withdraw_strike(
    session: Session,
    sheet: &[u8],
    engine: u32,
    order: &[u8],
    field: u32,
    position: u32,
    offers: &mut [u32],
    rows: &mut [u32],
    memory: &mut [u32],
) -> Result<Session, Refusal>
    ensures { Answers (decides WITHDRAW_STRIKE field position) session sheet.now engine order.now
        (spaces offers.old rows.old memory.old)
        (number_of result) (after session result) (spaces offers.new rows.new memory.new) }
{
    let call = decides(WITHDRAW_STRIKE, field, position);
    answer(session, call, sheet, engine, order, offers, rows, memory)
}

// The latest event is dropped and reversed.
pub fn back(
    session: Session,
    sheet: &[u8],
    engine: u32,
    order: &[u8],
    offers: &mut [u32],
    rows: &mut [u32],
    memory: &mut [u32],
) -> Result<Session, Refusal>
    ensures { Answers Back session sheet.now engine order.now
        (spaces offers.old rows.old memory.old)
        (number_of result) (after session result) (spaces offers.new rows.new memory.new) }
{
    let call = Call::Back;
    answer(session, call, sheet, engine, order, offers, rows, memory)
}

// The events are dropped; the decisions remain.
pub fn coil_on(
    session: Session,
    sheet: &[u8],
    engine: u32,
    order: &[u8],
    offers: &mut [u32],
    rows: &mut [u32],
    memory: &mut [u32],
) -> Result<Session, Refusal>
    ensures { Answers CoilOn session sheet.now engine order.now
        (spaces offers.old rows.old memory.old)
        (number_of result) (after session result) (spaces offers.new rows.new memory.new) }
{
    let call = Call::CoilOn;
    answer(session, call, sheet, engine, order, offers, rows, memory)
}
