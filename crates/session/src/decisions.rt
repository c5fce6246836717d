// The decisions in force, as masks.
ghost use Rattle.std.specs.Prelude.{◌≡◌, true, ◌<◌};
ghost use Rattle.session.specs.Decisions.{Found, Within, WithinChange, no_decisions, held_in, gained, lost, applied_in, reverted_in};

use ledger::{Change, Decision};
use limits::FIELDS;
use masks::{clear_bit, has_position, one_bit};

// For each field the chosen and the struck positions.
#[repr(C)]
#[derive(Clone, Copy, Debug, PartialEq, Eq)]
pub struct Decisions {
    pub choices: [u32; FIELDS],
    pub strikes: [u32; FIELDS],
}

// Whether a set of masks has a position of a field.
pub fn in_masks(masks: [u32; FIELDS], field: u32, position: u32) -> bool
    ensures { Found masks field position result }
{
    let f = field as usize;
    f < FIELDS && has_position(masks[f], position)
}

impl Decisions {
    pub fn none() -> Decisions
        ensures { result ≡ no_decisions }
    {
        Decisions {
            choices: [0u32; FIELDS],
            strikes: [0u32; FIELDS],
        }
    }

    // Whether a decision is in force.
    pub fn holds(self, x: Decision) -> bool
        ensures { result ≡ held_in self x }
    {
        match x {
            Decision::Choice(f, v) => in_masks(self.choices, f, v),
            Decision::Strike(f, v) => in_masks(self.strikes, f, v),
        }
    }

    // The decisions with one more.
    fn with(self, x: Decision) -> Decisions
        requires { Within x }
        ensures { result ≡ gained self x }
    {
        let mut r = self;
        match x {
            Decision::Choice(f, v) => r.choices[f as usize] |= one_bit(v as usize),
            Decision::Strike(f, v) => r.strikes[f as usize] |= one_bit(v as usize),
        }
        r
    }

    // The decisions with one less.
    fn without(self, x: Decision) -> Decisions
        requires { Within x }
        ensures { result ≡ lost self x }
    {
        let mut r = self;
        match x {
            Decision::Choice(f, v) => r.choices[f as usize] = clear_bit(
                r.choices[f as usize],
                v as usize,
            ),
            Decision::Strike(f, v) => r.strikes[f as usize] = clear_bit(
                r.strikes[f as usize],
                v as usize,
            ),
        }
        r
    }

    // The decisions after a change.
    pub fn applied(self, k: Change) -> Decisions
        requires { WithinChange k }
        ensures { result ≡ applied_in k self }
    {
        match k {
            Change::Adds(x) => self.with(x),
            Change::Withdraws(x) => self.without(x),
            Change::Neither => self,
        }
    }

    // The decisions before a change: an added decision goes, a withdrawn one returns.
    pub fn reverted(self, k: Change) -> Decisions
        requires { WithinChange k }
        ensures { result ≡ reverted_in k self }
    {
        match k {
            Change::Adds(x) => self.without(x),
            Change::Withdraws(x) => self.with(x),
            Change::Neither => self,
        }
    }
}
