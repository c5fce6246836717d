// The triples of an accepted sheet.
ghost use Rattle.std.specs.Prelude.{◌≡◌, ◌+◌, ◌<◌, ◌≤◌, length};
ghost use Rattle.sheet.specs.Sources.{Accepted};
ghost use Rattle.accepted.specs.Parts.{TripleAt, triples_at, triples_of, triple_first, triple_second, triple_third, triple_number};

// All triples; their count stands at a place, or the sheet ends there.
#[derive(Clone, Copy)]
pub struct Triples<'a> {
    pub numbers: &'a [u32],
    pub place: usize,
    pub count: usize,
    pub ghost accepted: { Accepted numbers.now },
    pub ghost at: { place ≡ triples_at numbers.now },
    pub ghost counted: { count ≡ triples_of numbers.now },
}

impl<'a> Triples<'a> {
    // Triple t.
    pub fn triple(self, t: usize) -> Triple<'a>
        requires { t < self.count }
        ensures { (result.numbers.now ≡ self.entry.numbers.now) × (result.index ≡ t) }
    {
        Triple {
            numbers: self.numbers,
            index: t,
            place: self.place + 1 + 4 * t,
        }
    }
}

// The triple with an index; its first field stands at a place, and its second, its third and its number after it.
#[derive(Clone, Copy)]
pub struct Triple<'a> {
    pub numbers: &'a [u32],
    pub index: usize,
    pub place: usize,
    pub ghost at: { TripleAt numbers.now index place },
    pub ghost room: { place + 3 < length numbers.now },
}

impl<'a> Triple<'a> {
    // Its first field.
    pub fn first(self) -> usize
        ensures { result ≡ triple_first self.entry.numbers.now self.entry.index }
    {
        self.numbers[self.place] as usize
    }

    // Its second field.
    pub fn second(self) -> usize
        ensures { result ≡ triple_second self.entry.numbers.now self.entry.index }
    {
        self.numbers[self.place + 1] as usize
    }

    // Its third field.
    pub fn third(self) -> usize
        ensures { result ≡ triple_third self.entry.numbers.now self.entry.index }
    {
        self.numbers[self.place + 2] as usize
    }

    // Its number.
    pub fn number(self) -> u32
        ensures { result ≡ triple_number self.entry.numbers.now self.entry.index }
    {
        self.numbers[self.place + 3]
    }
}
