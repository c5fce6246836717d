// The rows of a rule turned round: from rows for the positions of its first field to rows for those of its second.
ghost use Rattle.std.specs.Prelude.{◌≤◌, ◌<◌};
ghost use Rattle.limits.specs.Limits.{most_settings};
ghost use Rattle.network.specs.Turned.{Turning, Square, Rows, Columns};

use limits::SETTINGS;
use masks::{flood, one_bit};

// Adds position v to the turned row of each position of a row below `side`.
fn turn_row(row: u32, v: usize, side: usize, turned: &mut [u32; SETTINGS])
    requires { (v < most_settings) × (side ≤ most_settings) }
    ensures { Turning row v turned.old side turned.new }
{
    let own = one_bit(v);
    for u in 0..side {
        turned[u] |= flood(row, u) & own;
    }
}

// The square of the first `side` positions of the first `side` rows, turned.
fn turn_square(rows: &[u32; SETTINGS], side: usize) -> [u32; SETTINGS]
    requires { side ≤ most_settings }
    ensures { Square rows.now side side result }
{
    let mut turned = [0u32; SETTINGS];
    for v in 0..side {
        turn_row(rows[v], v, side, &mut turned);
    }
    turned
}

// The turned rows of the first n rows, of positions below `wide`: position v is in row u where position u is in row v. Small fields fit
// in a square of 8.
pub fn turn(rows: &[u32; SETTINGS], n: usize, wide: usize) -> [u32; SETTINGS]
    requires { Rows rows.now n wide }
    ensures { Columns rows.now n result }
{
    if n <= 8 {
        if wide <= 8 {
            return turn_square(rows, 8);
        }
    }
    turn_square(rows, SETTINGS)
}
