// The session after a call that is accepted.
ghost use Rattle.std.specs.Prelude.{◌≡◌};
ghost use Rattle.session.specs.Steps.{begun, recorded, undone, stepped, RecordAsks, UndoAsks, StepAsks};

use super::Session;
use super::decisions::Decisions;
use ledger::{Call, Event};

// The session with other decisions and no events. All places of the events stay as they are.
fn begin(session: Session, decisions: Decisions) -> Session
    ensures { result ≡ begun session decisions }
{
    Session {
        decisions,
        count: 0,
        ..session
    }
}

// The session after an event, which is added.
fn record(session: Session, e: Event) -> Session
    requires { RecordAsks e session }
    ensures { result ≡ recorded session e }
{
    let count = session.count;
    let mut next = Session {
        decisions: session.decisions.applied(e.change()),
        count: count + 1,
        ..session
    };
    next.events[count as usize] = e;
    next
}

// The latest event dropped and reversed.
fn undo(session: Session) -> Session
    requires { UndoAsks session }
    ensures { result ≡ undone session }
{
    let count = session.count - 1;
    let k = session.events[count as usize].change();
    Session {
        decisions: session.decisions.reverted(k),
        count,
        ..session
    }
}

// The session after a call.
pub fn step(session: Session, call: Call) -> Session
    requires { StepAsks call session }
    ensures { result ≡ stepped call session }
{
    match call {
        Call::Open(selected) => Session {
            selected,
            ..begin(session, Decisions::none())
        },
        Call::Show => session,
        Call::Decide(e) => record(session, e),
        Call::Back => undo(session),
        Call::CoilOn => begin(session, session.decisions),
    }
}
