// The calls by name, the events, and what an event does to the decisions. What the calls answer is said in specs/Ledger.antt.
#![tactic(auto)]

ghost use Rattle.std.specs.Prelude.{◌≡◌};
ghost use Rattle.ledger.specs.Ledger.{change_of};

// The kinds of events. They are numbers, since a session holds them for C.
pub const CHOOSE: u32 = 1;

pub const STRIKE: u32 = 2;

pub const WITHDRAW_CHOICE: u32 = 3;

pub const WITHDRAW_STRIKE: u32 = 4;

// An event, and what a call that changes the decisions names: the choice or the strike of a setting, added or withdrawn.
#[repr(C)]
#[derive(Clone, Copy, Debug, PartialEq, Eq)]
pub struct Event {
    pub kind: u32,
    pub field: u32,
    pub position: u32,
}

// A decision: the choice or the strike of a setting, by its field and its position.
#[derive(Clone, Copy, Debug, PartialEq, Eq)]
pub enum Decision {
    Choice(u32, u32),
    Strike(u32, u32),
}

// What an event does to the decisions.
#[derive(Clone, Copy, Debug, PartialEq, Eq)]
pub enum Change {
    Adds(Decision),
    Withdraws(Decision),
    Neither,
}

impl Event {
    // An event of none of the four kinds does nothing.
    #[tactic(auto, unfolding(crate::specs::Ledger::change_by, masks::specs::Pick::pick))]
    pub fn change(self) -> Change
        ensures { result ≡ change_of self }
    {
        let choice = Decision::Choice(self.field, self.position);
        let strike = Decision::Strike(self.field, self.position);
        match self.kind {
            CHOOSE => Change::Adds(choice),
            STRIKE => Change::Adds(strike),
            WITHDRAW_CHOICE => Change::Withdraws(choice),
            WITHDRAW_STRIKE => Change::Withdraws(strike),
            _ => Change::Neither,
        }
    }
}

// The calls. Open is given the mask of the selected fields. Choose, strike and the two withdrawals are `Decide`, with the event that they
// would add.
#[derive(Clone, Copy, Debug, PartialEq, Eq)]
pub enum Call {
    Open(u32),
    Show,
    Decide(Event),
    Back,
    CoilOn,
}
