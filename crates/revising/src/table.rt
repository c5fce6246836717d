// Where the parts of a triple rule stand in the table of the triple rules.
ghost use Rattle.std.specs.Prelude.{◌≡◌, ◌+◌, ◌≤◌, ◌<◌, length, get_or};
ghost use Rattle.limits.specs.Limits.{most_fields, triples_front};
ghost use Rattle.network.specs.TripleTable.{TripleTable};
ghost use Rattle.revising.specs.Table.{free_mask, FieldsBelow, Touching};

use limits::FIELDS;
use masks::has_bit;
use masks::positions::positions;

// The field at a place.
pub fn field(triples: &[u32], place: usize) -> usize
    requires { (place < length triples.now) × (get_or triples.now place 0 < most_fields) }
    ensures { (result ≡ get_or triples.now place 0) × (result < most_fields) }
{
    triples[place] as usize
}

// What field g may take where the fields of `within` are closed: there its settings in the set d, and elsewhere all that it has.
pub fn free(triples: &[u32], d: &[u32; FIELDS], g: usize, within: u32) -> u32
    requires { (g < most_fields) × (triples_front ≤ length triples.now) }
    ensures { result ≡ free_mask triples.now within d.now g }
{
    let all = triples[1 + g];
    if has_bit(within, g) { d[g] & all } else { all }
}

// The triple rules that have a field of `fields`, which are of the n fields of the sheet.
pub fn touched(triples: &[u32], n: usize, fields: u32) -> u32
    requires { TripleTable n triples.now × (n ≤ most_fields) × FieldsBelow n fields }
    ensures { Touching triples.now fields 0 result }
{
    if triples[0] == 0 {
        return 0;
    }
    let mut some: u32 = 0;
    for f in positions(fields) {
        some |= triples[1 + FIELDS + f];
    }
    some
}
