// The engines, by 01's numbers.
use super::refusals::Refusal;

// SAC-1, SAC-2, and the queue method.
#[derive(Clone, Copy, Debug, PartialEq, Eq)]
pub enum Engine {
    Sac1,
    Sac2,
    Queue,
}

impl TryFrom<u32> for Engine {
    ghost use Rattle.limits.specs.Engines.{DecodesEngine};

    type Error = Refusal;

    ghost try_from_gives = { DecodesEngine };

    fn try_from(number: u32) -> Result<Self, Refusal> {
        match number {
            1 => Ok(Engine::Sac1),
            2 => Ok(Engine::Sac2),
            3 => Ok(Engine::Queue),
            _ => Err(Refusal::Unknown),
        }
    }
}
