// Why a call is refused (01's table, and 02). `specs/Refusals.antt` has the number of each, and that of 8, which no call gives.
ghost use Rattle.std.specs.Prelude.{◌≡◌};
ghost use Rattle.limits.specs.Refusals.{number};

#[derive(Clone, Copy, Debug, PartialEq, Eq)]
pub enum Refusal {
    EndsInside,
    IllFormed,
    OutOfRange,
    OutOfOrder,
    Surplus,
    TooShort,
    Unknown,
    NoOrder,
    AddedAgain,
    NotInForce,
    NoRoom,
    NothingPast,
    WipedOut,
    Malformed,
    NoSelection,
    Retired,
}

// A field of a set has nothing left.
#[derive(Clone, Copy, Debug, PartialEq, Eq)]
pub struct WipedOut;

impl From<WipedOut> for Refusal {
    ghost use Rattle.limits.specs.declared.refusals.Refusal.TheVariants.{WipedOut};

    ghost from_gives = { λ _ refusal. refusal ≡ WipedOut };

    fn from(_wiped: WipedOut) -> Refusal {
        Self::WipedOut
    }
}

impl Refusal {
    // The number that a call answers.
    pub fn number(self) -> u32
        ensures { result ≡ number self }
    {
        match self {
            Refusal::EndsInside => ENDS_INSIDE,
            Refusal::IllFormed => ILL_FORMED,
            Refusal::OutOfRange => OUT_OF_RANGE,
            Refusal::OutOfOrder => OUT_OF_ORDER,
            Refusal::Surplus => SURPLUS,
            Refusal::TooShort => TOO_SHORT,
            Refusal::Unknown => UNKNOWN,
            Refusal::NoOrder => NO_ORDER,
            Refusal::AddedAgain => ADDED_AGAIN,
            Refusal::NotInForce => NOT_IN_FORCE,
            Refusal::NoRoom => NO_ROOM,
            Refusal::NothingPast => NOTHING_PAST,
            Refusal::WipedOut => WIPED_OUT,
            Refusal::Malformed => MALFORMED,
            Refusal::NoSelection => NO_SELECTION,
            Refusal::Retired => RETIRED,
        }
    }
}

pub const ENDS_INSIDE: u32 = 1;

pub const ILL_FORMED: u32 = 2;

pub const OUT_OF_RANGE: u32 = 3;

pub const OUT_OF_ORDER: u32 = 4;

pub const SURPLUS: u32 = 5;

pub const TOO_SHORT: u32 = 6;

pub const UNKNOWN: u32 = 7;

pub const NO_ORDER: u32 = 9;

pub const ADDED_AGAIN: u32 = 10;

pub const NOT_IN_FORCE: u32 = 11;

pub const NO_ROOM: u32 = 12;

pub const NOTHING_PAST: u32 = 13;

pub const WIPED_OUT: u32 = 14;

pub const MALFORMED: u32 = 15;

pub const NO_SELECTION: u32 = 18;

pub const RETIRED: u32 = 20;
