// The positions of a mask, one after the other.
ghost use Rattle.std.specs.Prelude.{◌≡◌};

use super::{clear_bit, lowest_bit};

// The positions that are still to come, the lowest first.
#[derive(Clone, Copy)]
pub struct PositionIter {
    pub left: u32,
}

// The positions of x, the lowest first.
pub fn positions(x: u32) -> PositionIter
    ensures { result.left ≡ x }
{
    PositionIter { left: x }
}

impl Iterator for PositionIter {
    ghost use Rattle.std.specs.Iterator.{at_most};
    ghost use Rattle.masks.specs.Positions.{GivesPosition};

    type Item = usize;

    ghost next_gives = { GivesPosition };

    ghost remaining = { λ s. at_most s.left };

    fn next(&mut self) -> Option<usize> {
        if self.left == 0 {
            return None;
        }
        let v = lowest_bit(self.left);
        self.left = clear_bit(self.left, v);
        Some(v)
    }
}
