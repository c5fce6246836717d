// The neighbourhoods of the fields, made from the linked fields.
ghost use Rattle.std.specs.Prelude.{◌≤◌, ◌<◌};
ghost use Rattle.limits.specs.Limits.{most_fields};
ghost use Rattle.network.specs.Hoods.{LinksBelow, Widening, HoodFor, HoodsTo};

use limits::{FIELDS, WHOLE_REACH};
use masks::{first_positions, has_bit, one_bit};

// The fields of m and those that are linked to one of them: a rule joins them, or a triple rule has both.
fn widen(links: &[u32; FIELDS], m: u32) -> u32
    ensures { Widening links.now m most_fields result }
{
    let mut wide = m;
    for g in 0..FIELDS {
        if has_bit(m, g) {
            wide |= links[g];
        }
    }
    wide
}

// The neighbourhood of field f.
fn neighbourhood(n: usize, links: &[u32; FIELDS], reach: u32, f: usize) -> u32
    requires { (n ≤ most_fields) × (f < n) × LinksBelow n links.now }
    ensures { HoodFor n links.now reach f result }
{
    if WHOLE_REACH <= reach {
        return first_positions(n);
    }
    let mut m = one_bit(f);
    for _ in 0..reach {
        m = widen(links, m);
    }
    m
}

// The neighbourhoods of the first n fields.
pub fn neighbourhoods(n: usize, links: &[u32; FIELDS], reach: u32) -> [u32; FIELDS]
    requires { (n ≤ most_fields) × LinksBelow n links.now }
    ensures { HoodsTo n links.now reach n result }
{
    let mut hood = [0u32; FIELDS];
    for f in 0..n {
        hood[f] = neighbourhood(n, links, reach, f);
    }
    hood
}
