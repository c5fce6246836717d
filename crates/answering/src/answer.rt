// The answer to any call.
ghost use Rattle.std.specs.Prelude.{◌≡◌};
ghost use Rattle.limits.specs.Refusals.{number_of};
ghost use Rattle.answering.specs.Answer.{after, spaces, Answers};
ghost use Rattle.answering.specs.Answering.{short_by};

use super::drafts::settle_sheet;
use super::intake::take_in;
use judging::judge::judge;
use ledger::Call;
use limits::refusals::Refusal;
use limits::{MEMORY_WORDS, OFFERS_WORDS, ROWS_WORDS};
use network::build::build;
use session::Session;
use session::steps::step;

// 6: the offers list or a work space is too short.
fn too_short(offers: usize, rows: usize, memory: usize) -> bool
    ensures { result ≡ short_by offers rows memory }
{
    (offers < OFFERS_WORDS) | ((rows < ROWS_WORDS) | (memory < MEMORY_WORDS))
}

// The causes are tried in this order: 6; 1 to 5; 15, at open 18; 7 and 9 to 13; 14. Nothing that the caller keeps changes before the last.
pub fn answer(
    session: Session,
    call: Call,
    sheet: &[u8],
    engine: u32,
    order: &[u8],
    offers: &mut [u32],
    rows: &mut [u32],
    memory: &mut [u32],
) -> Result<Session, Refusal>
    ensures { Answers call session sheet.now engine order.now
        (spaces offers.old rows.old memory.old)
        (number_of result) (after session result) (spaces offers.new rows.new memory.new) }
{
    if too_short(offers.len(), rows.len(), memory.len()) {
        return Err(Refusal::TooShort);
    }
    let taken = take_in(sheet, memory)?;
    judge(taken.outline, session, call, engine, order)?;
    let net = build(&memory[..taken.length], rows);
    let next = step(session, call);
    settle_sheet(
        next,
        taken.outline,
        &net,
        taken.length,
        engine,
        order,
        offers,
        rows,
        memory,
    )?;
    Ok(next)
}
