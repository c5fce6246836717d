// The tables of a sheet's rules and the joined fields, filled from its accepted list of numbers.
ghost use Rattle.std.specs.Prelude.{◌≡◌, ◌<◌, ◌≤◌, length};
ghost use Rattle.limits.specs.Limits.{most_fields, most_settings, rows_words};
ghost use Rattle.masks.specs.Bits.{bit};
ghost use Rattle.masks.specs.Masks.{mask_of};
ghost use Rattle.accepted.specs.Parts.{count_of, rules_of};
ghost use Rattle.network.specs.Tables.{forward_of, turned_of};
ghost use Rattle.network.specs.Built.{row_of, Holds};
ghost use Rattle.network.specs.RuleFields.{RuleFields};
ghost use Rattle.network.specs.RuleRows.{RowsTo, RuleStored};
ghost use Rattle.network.specs.Filling.{joined_with};

use super::rows::{slot, store};
use super::turn::turn;
use accepted::fields::Field;
use accepted::kinds::allowed;
use accepted::parts::AcceptedSheet;
use accepted::rules::Rule;
use limits::{FIELDS, SETTINGS, TABLE_WORDS};
use masks::{one_bit, positions_where};

// The row of a position whose mask in a rule of kind 0 is c. Such a rule looks at positions, not at settings, and c has none past those
// of j.
fn row_of_mask(c: u32) -> u32
    ensures { result ≡ mask_of most_settings (bit c) }
{
    positions_where(SETTINGS, |u| allowed(0, c, 0, 0, u as u32))
}

// A rule with its two fields.
#[derive(Clone, Copy)]
struct RuleWithFields<'a> {
    rule: Rule<'a>,
    first: Field<'a>,
    second: Field<'a>,
    ghost first_list: { first.numbers.now ≡ rule.numbers.now },
    ghost second_list: { second.numbers.now ≡ rule.numbers.now },
    ghost fields: { RuleFields rule.numbers.now rule.index rule.place first.index second.index },
}

impl<'a> RuleWithFields<'a> {
    fn new(rule: Rule<'a>) -> RuleWithFields<'a>
        ensures { result.rule ≡ rule.entry }
    {
        let sheet = AcceptedSheet {
            numbers: rule.numbers,
        };
        let first = sheet.field(rule.first());
        let second = sheet.field(rule.second());
        RuleWithFields {
            rule,
            first,
            second,
        }
    }

    // Row v: the positions of the second field that the rule allows beside position v of the first.
    fn row(self, v: usize) -> u32
        requires { v < count_of self.rule.numbers.now self.first.index }
        ensures { result ≡ row_of self.entry.rule.numbers.now self.entry.rule.index v }
    {
        let kind = self.rule.kind();
        let c = self.rule.number(v);
        if kind == 0 {
            return row_of_mask(c);
        }
        let p = self.first.setting(v);
        let second = self.second;
        positions_where(
            second.count(),
            |u| allowed(kind, c, p, second.setting(u), u as u32),
        )
    }

    // Its rows, 0 past the settings of its first field.
    fn rows(self) -> [u32; SETTINGS]
        ensures { RowsTo self.entry.rule.numbers.now self.entry.rule.index
            (count_of self.entry.rule.numbers.now self.entry.first.index) result }
    {
        let mut rows = [0u32; SETTINGS];
        for v in 0..self.first.count() {
            rows[v] = self.row(v);
        }
        rows
    }

    // Writes its rows into both tables.
    fn write(self, rows: &mut [u32])
        requires { rows_words ≤ length rows.old }
        ensures { RuleStored self.entry.rule.numbers.now self.entry.rule.index rows.old rows.new }
    {
        let forward = self.rows();
        let n = self.first.count();
        let wide = self.second.count();
        let turned = turn(&forward, n, wide);
        let base = slot(self.first.index, self.second.index) * SETTINGS;
        store(rows, base, &forward);
        store(rows, TABLE_WORDS + base, &turned);
    }
}

// Adds the fields i and j to the joined fields of each other.
fn join(joined: &mut [u32; FIELDS], i: usize, j: usize)
    requires { (i < most_fields) × (j < most_fields) }
    ensures { joined.new ≡ joined_with joined.old i j }
{
    joined[i] |= one_bit(j);
    joined[j] |= one_bit(i);
}

// Fills both tables with the rules of a sheet; for each field the mask of the fields that a rule joins to it.
pub fn fill(sheet: AcceptedSheet, rows: &mut [u32]) -> [u32; FIELDS]
    requires { rows_words ≤ length rows.old }
    ensures { Holds sheet.entry.numbers.now (rules_of sheet.entry.numbers.now) result
        (forward_of rows.new) (turned_of rows.new) }
{
    let mut joined = [0u32; FIELDS];
    let mut place = sheet.rules_start();
    for r in 0..sheet.rules() {
        let rule = sheet.rule(r, place);
        RuleWithFields::new(rule).write(rows);
        join(&mut joined, rule.first(), rule.second());
        place = rule.end();
    }
    joined
}
