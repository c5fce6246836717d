// The revision of a set under one triple rule: what its three fields lose.
ghost use Rattle.std.specs.Prelude.{◌≡◌, ◌≤◌, ◌<◌, length};
ghost use Rattle.limits.specs.Limits.{most_fields};
ghost use Rattle.network.specs.TripleTable.{triple_count, TripleTable};
ghost use Rattle.revising.specs.Revise.{Revision};

use super::support::support;
use super::table::{field, free};
use limits::{FIELDS, TRIPLE_WORDS, TRIPLES_FRONT};
use masks::one_bit;

// The fields of triple rule t that are in `within`; of its three fields `none` gets the settings in d that it does not support, where those
// of a field outside `within` may be any on the sheet.
pub fn revise(
    d: &[u32; FIELDS],
    none: &mut [u32; FIELDS],
    n: usize,
    within: u32,
    triples: &[u32],
    t: usize,
) -> u32
    requires { TripleTable n triples.now × (n ≤ most_fields) × (t < triple_count triples.now) }
    ensures { Revision triples.now t within d.now result none.new }
{
    let place = TRIPLES_FRONT + t * TRIPLE_WORDS;
    let i = field(triples, place);
    let j = field(triples, place + 1);
    let k = field(triples, place + 2);
    let lower = free(triples, d, i, within);
    let middle = free(triples, d, j, within);
    let upper = free(triples, d, k, within);
    let kept = support(triples, place + 3, lower, middle, upper);
    none[i] = d[i] ^ (d[i] & kept.first);
    none[j] = d[j] ^ (d[j] & kept.second);
    none[k] = d[k] ^ (d[k] & kept.third);
    (one_bit(i) | one_bit(j) | one_bit(k)) & within
}
