// What a call that reads or writes a sheet answers to C: 0 and a length, or the number of a refusal and 0. In Rattle it is a `Result`; the
// struct is for the C interface alone.
ghost use Rattle.std.specs.Prelude.{◌≡◌};
ghost use Rattle.sheet.specs.Sources.{answer_of};

use limits::refusals::Refusal;

#[repr(C)]
#[derive(Clone, Copy)]
pub struct Answer {
    pub number: u32,
    pub length: usize,
}

impl From<Result<usize, Refusal>> for Answer {
    ghost from_gives = { λ found answer. answer ≡ answer_of found };

    #[tactic(auto, unfolding(masks::specs::Pick::pick))]
    fn from(found: Result<usize, Refusal>) -> Answer {
        match found {
            Ok(length) => Answer { number: 0, length },
            Err(refusal) => Answer {
                number: refusal.number(),
                length: 0,
            },
        }
    }
}
