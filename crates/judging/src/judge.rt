// The causes 15 or 18, 7 and 9 to 13 of a refusal, in their order, for an accepted sheet.
ghost use Rattle.std.specs.Prelude.{◌≡◌, ◌≤◌};
ghost use Rattle.limits.specs.Limits.{most_fields};
ghost use Rattle.limits.specs.Refusals.{number_of};
ghost use Rattle.ledger.specs.Ledger.{first, session_causes, place_causes, step_causes, judged};
ghost use Rattle.session.specs.View.{view};

use super::stages::{
    judge_change, judge_engine, judge_form, judge_order, judge_selection, judge_setting, refuse_if,
};
use accepted::outline::Outline;
use ledger::Call;
use limits::refusals::Refusal;
use session::Session;

// The session: 15. At open the mask of selected fields in its place: 18.
fn judge_session(outline: Outline, session: Session, call: Call) -> Result<(), Refusal>
    requires { outline.fields ≤ most_fields }
    ensures { number_of result ≡ first (session_causes outline call (view session)) }
{
    match call {
        Call::Open(selected) => judge_selection(outline, selected),
        _ => judge_form(outline, session),
    }
}

// The setting that a call names: 7.
fn judge_place(outline: Outline, call: Call) -> Result<(), Refusal>
    ensures { number_of result ≡ first (place_causes outline call) }
{
    match call {
        Call::Decide(e) => judge_setting(outline, e),
        _ => Ok(()),
    }
}

// The step: 10, 11 and 12 where the call changes the decisions, 13 for back with no event.
fn judge_step(session: Session, call: Call) -> Result<(), Refusal>
    ensures { number_of result ≡ first (step_causes call (view session)) }
{
    match call {
        Call::Decide(e) => judge_change(session, e),
        Call::Back => refuse_if(session.count == 0, Refusal::NothingPast),
        _ => Ok(()),
    }
}

// The first cause that applies, if one does.
pub fn judge(
    outline: Outline,
    session: Session,
    call: Call,
    engine: u32,
    order: &[u8],
) -> Result<(), Refusal>
    requires { outline.fields ≤ most_fields }
    ensures { number_of result ≡ first (judged outline call engine order.now (view session)) }
{
    judge_session(outline, session, call)?;
    judge_engine(engine)?;
    judge_place(outline, call)?;
    judge_order(outline, order)?;
    judge_step(session, call)
}
