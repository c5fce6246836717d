// The table of the triple rules, filled from an accepted list of numbers.
ghost use Rattle.std.specs.Prelude.{◌≡◌, ◌+◌, ◌*◌, ◌≤◌, length};
ghost use Rattle.limits.specs.Limits.{most_settings, triples_front, triple_words};
ghost use Rattle.sheet.specs.Sources.{Accepted};
ghost use Rattle.accepted.specs.Parts.{count_of, setting_of, triples_of, triple_number};
ghost use Rattle.accepted.specs.Outline.{outline_of};
ghost use Rattle.network.specs.Drafts.{thirds_of, TripleFields, Run, ZerosFrom, TripleRows};
ghost use Rattle.network.specs.Blocks.{BlockStored, BlocksTo};
ghost use Rattle.network.specs.TriplesFilled.{HaveTo};
ghost use Rattle.network.specs.Network.{TriplesOf};

use super::links::add_to_three;
use super::rows::store;
use accepted::fields::Field;
use accepted::kinds::even_draft;
use accepted::parts::AcceptedSheet;
use accepted::triples::{Triple, Triples};
use limits::{FIELDS, SETTINGS, TRIPLE_WORDS, TRIPLES_FRONT};
use masks::{one_bit, positions_where};

// The positions of a field that a triple rule with the number c allows beside the settings p and q.
fn thirds(third: Field, c: u32, p: u32, q: u32) -> u32
    ensures { result ≡ thirds_of third.entry.numbers.now third.entry.index c p q }
{
    let n = third.count();
    positions_where(n, |u| even_draft(c, p, q, third.setting(u)))
}

// A triple rule with its three fields.
#[derive(Clone, Copy)]
struct TripleWithFields<'a> {
    triple: Triple<'a>,
    first: Field<'a>,
    second: Field<'a>,
    third: Field<'a>,
    ghost first_list: { first.numbers.now ≡ triple.numbers.now },
    ghost second_list: { second.numbers.now ≡ triple.numbers.now },
    ghost third_list: { third.numbers.now ≡ triple.numbers.now },
    ghost fields: { TripleFields triple.numbers.now triple.index triple.place first.index second.index third.index },
}

impl<'a> TripleWithFields<'a> {
    fn new(triple: Triple<'a>) -> TripleWithFields<'a>
        ensures { result.triple ≡ triple.entry }
    {
        let sheet = AcceptedSheet {
            numbers: triple.numbers,
        };
        let first = sheet.field(triple.first());
        let second = sheet.field(triple.second());
        let third = sheet.field(triple.third());
        TripleWithFields {
            triple,
            first,
            second,
            third,
        }
    }

    // Writes from `base` on, for each setting of its second field, the positions of its third that it allows beside it and the setting p.
    fn write_row(self, p: u32, base: usize, triples: &mut [u32])
        requires { base + count_of self.triple.numbers.now self.second.index ≤ length triples.old }
        ensures { Run triples.old base
            (λ v. thirds_of self.entry.triple.numbers.now self.entry.third.index
            (triple_number self.entry.triple.numbers.now self.entry.triple.index) p
            (setting_of self.entry.triple.numbers.now self.entry.second.index v))
            (count_of self.entry.triple.numbers.now self.entry.second.index) triples.new }
    {
        let c = self.triple.number();
        for v in 0..self.second.count() {
            let q = self.second.setting(v);
            triples[base + v] = thirds(self.third, c, p, q);
        }
    }

    // Writes its words from `base` on: those of each setting of its first field one after the other, in places for as many as a field may
    // have.
    fn write_rows(self, base: usize, triples: &mut [u32])
        requires { (base + most_settings * most_settings ≤ length triples.old) × ZerosFrom base triples.old }
        ensures { TripleRows self.entry.triple.numbers.now self.entry.triple.index triples.old base
            (count_of self.entry.triple.numbers.now self.entry.first.index) triples.new }
    {
        for v in 0..self.first.count() {
            self.write_row(self.first.setting(v), base + v * SETTINGS, triples);
        }
    }

    // Writes it from `base` on: its fields and its words.
    fn write(self, base: usize, triples: &mut [u32])
        requires { (base + triple_words ≤ length triples.old) × ZerosFrom base triples.old }
        ensures { BlockStored self.entry.triple.numbers.now self.entry.triple.index triples.old base triples.new }
    {
        triples[base] = self.first.index as u32;
        triples[base + 1] = self.second.index as u32;
        triples[base + 2] = self.third.index as u32;
        self.write_rows(base + 3, triples);
    }
}

// Writes all triple rules.
fn fill_blocks(from: Triples, triples: &mut [u32])
    requires { (triples_front + from.count * triple_words ≤ length triples.old) × ZerosFrom triples_front triples.old }
    ensures { BlocksTo from.entry.numbers.now triples.old from.entry.count triples.new }
{
    for t in 0..from.count {
        TripleWithFields::new(from.triple(t)).write(TRIPLES_FRONT + t * TRIPLE_WORDS, triples);
    }
}

// For each field the mask of the triple rules that have it.
fn triples_with(from: Triples) -> [u32; FIELDS]
    ensures { HaveTo from.entry.numbers.now from.entry.count result }
{
    let mut masks = [0u32; FIELDS];
    for t in 0..from.count {
        let triple = from.triple(t);
        add_to_three(
            &mut masks,
            triple.first(),
            triple.second(),
            triple.third(),
            one_bit(t),
        );
    }
    masks
}

// Fills a table of zeros with the triple rules of a sheet; `full` is the set of all its settings.
pub fn fill_triples(numbers: &[u32], full: &[u32; FIELDS], triples: &mut [u32])
    requires { Accepted numbers.now × (full.now ≡ (outline_of numbers.now).full)
        × (triples_front + triples_of numbers.now * triple_words ≤ length triples.old) × ZerosFrom 0 triples.old }
    ensures { TriplesOf numbers.now triples.new }
{
    let from = AcceptedSheet { numbers }.triples();
    let masks = triples_with(from);
    triples[0] = from.count as u32;
    store(triples, 1, full);
    store(triples, 1 + FIELDS, &masks);
    fill_blocks(from, triples);
}
