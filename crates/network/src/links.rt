// The linked fields: for each field those that a rule joins to it and those that a triple rule has beside it.
ghost use Rattle.std.specs.Prelude.{◌<◌};
ghost use Rattle.limits.specs.Limits.{most_fields};
ghost use Rattle.network.specs.Linking.{Added, LinksTo};

use accepted::triples::Triples;
use limits::FIELDS;
use masks::one_bit;

// Adds the positions of x to the masks of the fields i, j and k.
pub fn add_to_three(masks: &mut [u32; FIELDS], i: usize, j: usize, k: usize, x: u32)
    requires { (i < most_fields) × (j < most_fields) × (k < most_fields) }
    ensures { Added masks.old i j k x masks.new }
{
    masks[i] |= x;
    masks[j] |= x;
    masks[k] |= x;
}

// The linked fields, from those that a rule joins and the triple rules.
pub fn link(from: Triples, joined: &[u32; FIELDS]) -> [u32; FIELDS]
    ensures { LinksTo from.entry.numbers.now joined.now from.entry.count result }
{
    let mut links = *joined;
    for t in 0..from.count {
        let triple = from.triple(t);
        let i = triple.first();
        let j = triple.second();
        let k = triple.third();
        let three = one_bit(i) | one_bit(j) | one_bit(k);
        add_to_three(&mut links, i, j, k, three);
    }
    links
}
