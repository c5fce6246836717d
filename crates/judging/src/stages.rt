// The causes of a refusal by what is judged: the session, the mask of selected fields, the engine, the setting that a call names, the
// order, the change of the decisions. Each function gives the first cause that applies, if one does.
ghost use Rattle.std.specs.Prelude.{◌≡◌, ◌≤◌, [], ◌∷◌};
ghost use Rattle.limits.specs.Engines.{DecodesEngine};
ghost use Rattle.limits.specs.Limits.{most_fields};
ghost use Rattle.limits.specs.Refusals.{number, number_of};
ghost use Rattle.ledger.specs.Ledger.{because, first, selection_causes, form_causes, engine_causes, setting_causes, order_causes};
ghost use Rattle.ledger.specs.Ledger.{added_again, withdrawn_unheld, change_causes, off_sheet};
ghost use Rattle.session.specs.View.{decisions_of, view};

use super::order::is_order;
use accepted::outline::Outline;
use ledger::{Change, Event};
use limits::MOST_EVENTS;
use limits::engine::Engine;
use limits::refusals::Refusal;
use session::Session;
use session::decisions::Decisions;
use session::form::{malformed, no_selection, on_sheet};

// Refused where the cause applies.
pub fn refuse_if(applies: bool, refusal: Refusal) -> Result<(), Refusal>
    ensures { number_of result ≡ first (because applies (number refusal) ∷ []) }
{
    if applies {
        return Err(refusal);
    }
    Ok(())
}

// 15: the session is malformed.
pub fn judge_form(outline: Outline, session: Session) -> Result<(), Refusal>
    requires { outline.fields ≤ most_fields }
    ensures { number_of result ≡ first (form_causes outline (view session)) }
{
    refuse_if(malformed(outline, session), Refusal::Malformed)
}

// 18: the mask of selected fields is empty or names a field beyond the sheet.
pub fn judge_selection(outline: Outline, selected: u32) -> Result<(), Refusal>
    requires { outline.fields ≤ most_fields }
    ensures { number_of result ≡ first (selection_causes outline selected) }
{
    refuse_if(no_selection(outline, selected), Refusal::NoSelection)
}

// 7: the engine is not 1 to 3.
#[tactic(auto, using(crate::proofs::Engines::engine_decoded))]
pub fn judge_engine(engine: u32) -> Result<Engine, Refusal>
    ensures number { number_of result ≡ first (engine_causes engine) }
    ensures decoded { DecodesEngine engine result }
{
    Engine::try_from(engine)
}

// Whether a decision is none on the sheet, or its kind none of the four.
fn off_sheet(outline: Outline, k: Change) -> bool
    ensures { result ≡ off_sheet outline k }
{
    match k {
        Change::Adds(x) | Change::Withdraws(x) => !on_sheet(outline, x),
        Change::Neither => true,
    }
}

// 7: the field or position is not on the sheet.
pub fn judge_setting(outline: Outline, e: Event) -> Result<(), Refusal>
    ensures { number_of result ≡ first (setting_causes outline e) }
{
    refuse_if(off_sheet(outline, e.change()), Refusal::Unknown)
}

// 9: the order does not hold every field just one time.
pub fn judge_order(outline: Outline, order: &[u8]) -> Result<(), Refusal>
    ensures { number_of result ≡ first (order_causes outline order.now) }
{
    refuse_if(!is_order(order, outline.fields), Refusal::NoOrder)
}

// Whether the decision to add is in force.
fn added_again(d: Decisions, k: Change) -> bool
    ensures { result ≡ added_again k (decisions_of d) }
{
    match k {
        Change::Adds(x) => d.holds(x),
        Change::Withdraws(_) | Change::Neither => false,
    }
}

// Whether the decision to withdraw is not in force.
#[tactic(auto, using(session::specs::View::in_force_of))]
fn withdrawn_unheld(d: Decisions, k: Change) -> bool
    ensures { result ≡ withdrawn_unheld k (decisions_of d) }
{
    match k {
        Change::Withdraws(x) => !d.holds(x),
        Change::Adds(_) | Change::Neither => false,
    }
}

// 10: the decision to add is in force. 11: the decision to withdraw is not. 12: 64 events and one to add.
pub fn judge_change(session: Session, e: Event) -> Result<(), Refusal>
    ensures { number_of result ≡ first (change_causes e (view session)) }
{
    let d = session.decisions;
    let k = e.change();
    refuse_if(added_again(d, k), Refusal::AddedAgain)?;
    refuse_if(withdrawn_unheld(d, k), Refusal::NotInForce)?;
    refuse_if(session.count == MOST_EVENTS, Refusal::NoRoom)
}
