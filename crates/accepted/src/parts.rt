// An accepted sheet: its parts, found among its numbers.
ghost use Rattle.std.specs.Prelude.{◌≡◌, ◌<◌, ◌≤◌};
ghost use Rattle.sheet.specs.Sources.{Accepted};
ghost use Rattle.accepted.specs.Parts.{fields_of, field_start, reach_of, rules_of, rule_start, triples_at, triples_of};

use super::fields::Field;
use super::rules::Rule;
use super::triples::Triples;

// The list of the numbers of an accepted sheet.
#[derive(Clone, Copy)]
pub struct AcceptedSheet<'a> {
    pub numbers: &'a [u32],
    pub ghost accepted: { Accepted numbers.now },
}

impl<'a> AcceptedSheet<'a> {
    // How many fields.
    pub fn fields(self) -> usize
        ensures { result ≡ fields_of self.entry.numbers.now }
    {
        self.numbers[0] as usize
    }

    // Field f.
    pub fn field(self, f: usize) -> Field<'a>
        requires { f < fields_of self.numbers.now }
        ensures { (result.numbers.now ≡ self.entry.numbers.now) × (result.index ≡ f) }
    {
        Field {
            numbers: self.numbers,
            index: f,
            place: self.field_start(f),
        }
    }

    // The place of field f's count; the place after the last field where f is the number of fields.
    fn field_start(self, f: usize) -> usize
        requires { f ≤ fields_of self.numbers.now }
        ensures { result ≡ field_start self.entry.numbers.now f }
    {
        let mut place: usize = 1;
        for _ in 0..f {
            place += 1 + self.numbers[place] as usize;
        }
        place
    }

    // The place after the last field.
    fn fields_end(self) -> usize
        ensures { result ≡ field_start self.entry.numbers.now (fields_of self.entry.numbers.now) }
    {
        self.field_start(self.fields())
    }

    // The reach.
    pub fn reach(self) -> u32
        ensures { result ≡ reach_of self.entry.numbers.now }
    {
        self.numbers[self.fields_end()]
    }

    // How many rules.
    pub fn rules(self) -> usize
        ensures { result ≡ rules_of self.entry.numbers.now }
    {
        self.numbers[self.fields_end() + 1] as usize
    }

    // The place of the first rule; that after the rules where there is none.
    pub fn rules_start(self) -> usize
        ensures { result ≡ rule_start self.entry.numbers.now 0 }
    {
        self.fields_end() + 2
    }

    // Rule r, which stands at a place.
    pub fn rule(self, r: usize, place: usize) -> Rule<'a>
        requires { (r < rules_of self.numbers.now) × (place ≡ rule_start self.numbers.now r) }
        ensures { (result.numbers.now ≡ self.entry.numbers.now) × (result.index ≡ r) }
    {
        Rule {
            numbers: self.numbers,
            index: r,
            place,
        }
    }

    // The place of the count of triples; the end where there is none.
    fn triples_at(self) -> usize
        ensures { result ≡ triples_at self.entry.numbers.now }
    {
        let mut place = self.rules_start();
        for r in 0..self.rules() {
            place = self.rule(r, place).end();
        }
        place
    }

    // The triples.
    pub fn triples(self) -> Triples<'a>
        ensures { result.numbers.now ≡ self.entry.numbers.now }
    {
        let place = self.triples_at();
        let count = if place < self.numbers.len() {
            self.numbers[place] as usize
        } else {
            0
        };
        Triples {
            numbers: self.numbers,
            place,
            count,
        }
    }
}
