// A rule of an accepted sheet.
ghost use Rattle.std.specs.Prelude.{◌≡◌, ◌+◌, ◌<◌, length};
ghost use Rattle.accepted.specs.Parts.{RuleAt, count_of, first_of, second_of, kind_of, number_of, rule_start};

use super::parts::AcceptedSheet;

// The rule with an index; its first field stands at a place, and its second field, its kind and its numbers after it.
#[derive(Clone, Copy)]
pub struct Rule<'a> {
    pub numbers: &'a [u32],
    pub index: usize,
    pub place: usize,
    pub ghost at: { RuleAt numbers.now index place },
    pub ghost room: { place + 3 < length numbers.now },
}

impl<'a> Rule<'a> {
    // Its first field.
    pub fn first(self) -> usize
        ensures { result ≡ first_of self.entry.numbers.now self.entry.index }
    {
        self.numbers[self.place] as usize
    }

    // Its second field.
    pub fn second(self) -> usize
        ensures { result ≡ second_of self.entry.numbers.now self.entry.index }
    {
        self.numbers[self.place + 1] as usize
    }

    // Its kind.
    pub fn kind(self) -> u32
        ensures { result ≡ kind_of self.entry.numbers.now self.entry.index }
    {
        self.numbers[self.place + 2]
    }

    // What it has for position a of its first field: the mask of that position, or its number.
    pub fn number(self, a: usize) -> u32
        requires { a < count_of self.numbers.now (first_of self.numbers.now self.index) }
        ensures { result ≡ number_of self.entry.numbers.now self.entry.index a }
    {
        if self.kind() == 0 {
            return self.numbers[self.place + 3 + a];
        }
        self.numbers[self.place + 3]
    }

    // The place after it.
    pub fn end(self) -> usize
        ensures { result ≡ rule_start self.entry.numbers.now (self.entry.index + 1) }
    {
        if self.kind() == 0 {
            let first = AcceptedSheet {
                numbers: self.numbers,
            }
            .field(self.first());
            return self.place + 3 + first.count();
        }
        self.place + 4
    }
}
