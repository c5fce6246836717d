// The session: what the control room holds between calls, whether it is malformed, its start set, and the session after a call.
#![tactic(auto)]

pub mod decisions; // decisions.rt: a decision held, added, withdrawn; a change made and reversed
pub mod form; // form.rt: whether a session is malformed
pub mod start; // start.rt: the start set
pub mod steps; // steps.rt: the session after a call

ghost use Rattle.std.specs.Prelude.{◌≡◌};
ghost use Rattle.session.specs.Steps.{fresh_session};

use decisions::Decisions;
use ledger::Event;
use limits::EVENTS;

// The decisions in force; events, of which the first `count` have happened, the oldest first; the mask of the selected fields. No offers.
#[repr(C)]
#[derive(Clone, Copy, Debug, PartialEq, Eq)]
pub struct Session {
    pub decisions: Decisions,
    pub events: [Event; EVENTS],
    pub count: u32,
    pub selected: u32,
}

// No decisions, no events, no selected fields.
pub fn fresh() -> Session
    ensures { result ≡ fresh_session }
{
    let event = Event {
        kind: 0,
        field: 0,
        position: 0,
    };
    Session {
        decisions: Decisions::none(),
        events: [event; EVENTS],
        count: 0,
        selected: 0,
    }
}
