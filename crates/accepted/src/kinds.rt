// What pairs of settings a rule allows, by its kind, and what settings a triple allows.
ghost use Rattle.std.specs.Prelude.{◌≡◌};
ghost use Rattle.accepted.specs.Kinds.{distance, allows, even_draft};

use limits::ENCODER_TOLERANCE;
use masks::has_position;

fn distance(p: u64, q: u64) -> u64
    ensures { result ≡ distance p q }
{
    p.abs_diff(q)
}

// Whether a rule of a kind allows a pair: p is the setting of i, and q that of j, at position b; c is the rule's number, or, for kind 0,
// its mask of p's position.
pub fn allowed(kind: u32, c: u32, p: u32, q: u32, b: u32) -> bool
    ensures { result ≡ allows kind c p q b }
{
    let x = p as u64;
    let y = q as u64;
    let z = c as u64;
    match kind {
        0 => has_position(c, b),
        1 => y + z <= x,
        2 => x + z <= y,
        3 => z <= distance(x, y),
        4 => distance(x, y) <= z,
        5 => {
            let d = distance(x, y);
            z <= d + ENCODER_TOLERANCE && d <= z + ENCODER_TOLERANCE
        }
        _ => false,
    }
}

// Whether a triple allows three settings: p is that of i, q that of j and r that of k; c is the triple's number.
pub fn even_draft(c: u32, p: u32, q: u32, r: u32) -> bool
    ensures { result ≡ even_draft c p q r }
{
    let ends = (p as u64) + (r as u64);
    let middle = 2 * (q as u64);
    distance(ends, middle) <= (c as u64)
}
