// The start set: what the decisions leave of the sheet's settings, before any closing.
ghost use Rattle.std.specs.Prelude.{◌≡◌};
ghost use Rattle.session.specs.View.{decisions_of};
ghost use Rattle.session.specs.Start.{start_mask, start_masks};

use super::decisions::Decisions;
use accepted::outline::Outline;
use limits::FIELDS;
use masks::{clear_bit, lowest_bit};

// The start mask of a field with the positions `all`: with no choice all that are not struck, with one choice the chosen one if it is not
// struck, with two or more none.
fn start_mask(all: u32, choices: u32, strikes: u32) -> u32
    ensures { result ≡ start_mask all choices strikes }
{
    let chosen = choices & all;
    if chosen == 0 {
        return all & !strikes;
    }
    let v = lowest_bit(chosen);
    if clear_bit(chosen, v) == 0 {
        return chosen & !strikes;
    }
    0
}

// The start set under the decisions, 0 past the sheet's fields.
pub fn start(outline: Outline, d: Decisions) -> [u32; FIELDS]
    ensures { result ≡ start_masks outline (decisions_of d) }
{
    let mut m = [0u32; FIELDS];
    for f in 0..FIELDS {
        m[f] = start_mask(outline.full[f], d.choices[f], d.strikes[f]);
    }
    m
}
