// Whether a session is malformed: a decision is not on the sheet, the count exceeds 64, the events cannot be reversed, or open would refuse
// its mask of selected fields.
ghost use Rattle.std.specs.Prelude.{◌≡◌, true, ◌≤◌, eqb};
ghost use Rattle.limits.specs.Limits.{most_fields, most_events};
ghost use Rattle.ledger.specs.Ledger.{reversible, no_selection, malformed};
ghost use Rattle.session.specs.View.{decisions_of, past, view};
ghost use Rattle.session.specs.Form.{strangers, masks_on_sheet, OnSheet, CanRevert};

use super::Session;
use super::decisions::{Decisions, in_masks};
use accepted::outline::Outline;
use ledger::{Change, Decision, Event};
use limits::{EVENTS, FIELDS, MOST_EVENTS};
use masks::one_bit;

// Whether a decision is on the sheet.
pub fn on_sheet(outline: Outline, x: Decision) -> bool
    ensures { OnSheet outline x result }
{
    match x {
        Decision::Choice(f, v) | Decision::Strike(f, v) => in_masks(outline.full, f, v),
    }
}

// Whether every position of m is one of the field's.
fn within(m: u32, all: u32) -> bool
    ensures { result ≡ eqb (strangers all m) 0 }
{
    m & !all == 0
}

// Whether the settings of a set of masks are on the sheet.
fn masks_on_sheet(outline: Outline, masks: [u32; FIELDS]) -> bool
    ensures { result ≡ masks_on_sheet outline.full masks }
{
    for f in 0..FIELDS {
        if !within(masks[f], outline.full[f]) {
            return false;
        }
    }
    true
}

// Whether a change can be reversed: its decision is on the sheet, and an addition is in force, a withdrawal is not.
fn can_revert(outline: Outline, d: Decisions, k: Change) -> bool
    ensures { CanRevert outline d k result }
{
    match k {
        Change::Adds(x) => on_sheet(outline, x) && d.holds(x),
        Change::Withdraws(x) => on_sheet(outline, x) && !d.holds(x),
        Change::Neither => false,
    }
}

// Whether the events can be reversed, from the latest on.
fn events_reversible(
    outline: Outline,
    start: Decisions,
    events: [Event; EVENTS],
    count: u32,
) -> bool
    requires { count ≤ most_events }
    ensures { result ≡ reversible outline (past events count) (decisions_of start) }
{
    let mut d = start;
    for i in (0..count as usize).rev() {
        let k = events[i].change();
        if !can_revert(outline, d, k) {
            return false;
        }
        d = d.reverted(k);
    }
    true
}

// Whether a mask of selected fields is empty or names a field beyond the sheet.
pub fn no_selection(outline: Outline, selected: u32) -> bool
    requires { outline.fields ≤ most_fields }
    ensures { result ≡ no_selection outline selected }
{
    (selected == 0) | (one_bit(outline.fields) <= selected)
}

// Whether a session is malformed.
#[tactic(auto, using(crate::proofs::Counts::too_many))]
pub fn malformed(outline: Outline, session: Session) -> bool
    requires { outline.fields ≤ most_fields }
    ensures { result ≡ malformed outline (view session) }
{
    let d = session.decisions;
    let choices = d.choices;
    let strikes = d.strikes;
    let events = session.events;
    let count = session.count;
    if !masks_on_sheet(outline, choices) {
        return true;
    }
    if !masks_on_sheet(outline, strikes) {
        return true;
    }
    if MOST_EVENTS < count {
        return true;
    }
    if !events_reversible(outline, d, events, count) {
        return true;
    }
    no_selection(outline, session.selected)
}
