// A field of an accepted sheet.
ghost use Rattle.std.specs.Prelude.{◌≡◌, ◌+◌, ◌<◌, length};
ghost use Rattle.accepted.specs.Parts.{FieldAt, count_of, setting_of};

// The field with an index; its count stands at a place, and its settings after it.
#[derive(Clone, Copy)]
pub struct Field<'a> {
    pub numbers: &'a [u32],
    pub index: usize,
    pub place: usize,
    pub ghost at: { FieldAt numbers.now index place },
    pub ghost room: { place + 1 + count_of numbers.now index < length numbers.now },
}

impl<'a> Field<'a> {
    // How many settings.
    pub fn count(self) -> usize
        ensures { result ≡ count_of self.entry.numbers.now self.entry.index }
    {
        self.numbers[self.place] as usize
    }

    // The setting at position v.
    pub fn setting(self, v: usize) -> u32
        requires { v < count_of self.numbers.now self.index }
        ensures { result ≡ setting_of self.entry.numbers.now self.entry.index v }
    {
        self.numbers[self.place + 1 + v]
    }
}
