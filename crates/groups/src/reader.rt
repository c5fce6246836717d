// A thin reader over a sheet's bytes: the slice and a place in it.
ghost use Rattle.std.specs.Prelude.{◌≡◌};
ghost use Rattle.groups.specs.Groups.{number_at};

use super::groups::{Number, number_at};
use limits::refusals::Refusal;

#[derive(Clone, Copy)]
pub struct Reader<'a> {
    pub sheet: &'a [u8],
    pub place: usize,
}

impl<'a> Reader<'a> {
    // A reader at the beginning of a sheet.
    pub fn new(sheet: &'a [u8]) -> Reader<'a>
        ensures { (result.sheet ≡ sheet.entry) × (result.place ≡ 0) }
    {
        Reader { sheet, place: 0 }
    }

    // The same reader, at another place.
    pub fn moved(self, place: usize) -> Reader<'a>
        ensures { (result.sheet ≡ self.entry.sheet) × (result.place ≡ place) }
    {
        Reader {
            sheet: self.sheet,
            place,
        }
    }

    // The next number.
    pub fn next(self) -> Result<Number, Refusal>
        ensures { result ≡ number_at self.entry.sheet.now self.entry.place }
    {
        number_at(self.sheet, self.place)
    }
}

// The number at a place of a sheet. Each number of a sheet is read here.
pub fn read_number(sheet: &[u8], place: usize) -> Result<Number, Refusal>
    ensures { result ≡ number_at sheet.now place }
{
    Reader::new(sheet).moved(place).next()
}
