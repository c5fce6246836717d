// What a triple rule supports of its three fields, all at once.
ghost use Rattle.std.specs.Prelude.{◌+◌, ◌*◌, ◌^◌, ◌≤◌, ◌<◌, length};
ghost use Rattle.limits.specs.Limits.{most_settings};
ghost use Rattle.revising.specs.Support.{Beside, Supported3};

use limits::SETTINGS;
use masks::one_bit;
use masks::positions::positions;

// The positions of two fields.
#[derive(Clone, Copy)]
pub struct Two {
    pub second: u32,
    pub third: u32,
}

// The positions of three fields.
#[derive(Clone, Copy)]
pub struct Three {
    pub first: u32,
    pub second: u32,
    pub third: u32,
}

// The positions of `middle` and `upper` that are allowed beside each other and the one position of the first field whose words begin at
// `row`.
fn beside(triples: &[u32], row: usize, middle: u32, upper: u32) -> Two
    requires { (middle < 2 ^ most_settings) × (row + most_settings ≤ length triples.now) }
    ensures { Beside triples.now row middle upper 0 result.second result.third }
{
    let mut second: u32 = 0;
    let mut third: u32 = 0;
    for q in positions(middle) {
        let both = triples[row + q] & upper;
        if both != 0 {
            second |= one_bit(q);
            third |= both;
        }
    }
    Two { second, third }
}

// The positions of `lower`, `middle` and `upper` that a triple rule whose words begin at `rows` allows beside some of the two others.
pub fn support(triples: &[u32], rows: usize, lower: u32, middle: u32, upper: u32) -> Three
    requires { (lower < 2 ^ most_settings) × (middle < 2 ^ most_settings) × (rows + most_settings * most_settings ≤ length triples.now) }
    ensures { Supported3 triples.now rows lower middle upper 0 result.first result.second result.third }
{
    let mut first: u32 = 0;
    let mut second: u32 = 0;
    let mut third: u32 = 0;
    for p in positions(lower) {
        let two = beside(triples, rows + p * SETTINGS, middle, upper);
        if two.third != 0 {
            first |= one_bit(p);
            second |= two.second;
            third |= two.third;
        }
    }
    Three {
        first,
        second,
        third,
    }
}
