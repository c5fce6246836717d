// The outline of a sheet: all that is read of it beside its reach, its rules and its micrometres.
ghost use Rattle.std.specs.Prelude.{◌≡◌};
ghost use Rattle.sheet.specs.Sources.{Accepted};
ghost use Rattle.accepted.specs.Outline.{outline_of};

use super::parts::AcceptedSheet;
use limits::FIELDS;
use masks::first_positions;

// How many fields, and for each field the mask of all its positions, 0 past the sheet's fields.
#[derive(Clone, Copy)]
pub struct Outline {
    pub fields: usize,
    pub full: [u32; FIELDS],
}

// The outline of an accepted list of numbers.
pub fn outline_of(numbers: &[u32]) -> Outline
    requires { Accepted numbers.now }
    ensures { result ≡ outline_of numbers.now }
{
    let sheet = AcceptedSheet { numbers };
    let fields = sheet.fields();
    let mut full = [0u32; FIELDS];
    for f in 0..fields {
        full[f] = first_positions(sheet.field(f).count());
    }
    Outline { fields, full }
}
