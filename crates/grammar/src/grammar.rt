// A sheet, number after number: what is expected, its range, its order, and what follows it.
ghost use Rattle.std.specs.Prelude.{◌≡◌, ◌+◌, ◌^◌, ◌<◌, ltb, leb, get_or, set};
ghost use Rattle.limits.specs.Limits.{largest_setting, last_kind};
ghost use Rattle.grammar.specs.Grammar.{up_to, ranged, ordered, after_field, after_setting, after_rule, after_mask, after_kind};
ghost use Rattle.grammar.specs.Grammar.{key, rising, advance, ends_before, at_end};

use super::triples::{
    after_triple, amount, triple_amount, triple_first, triple_second, triple_third,
};
use limits::refusals::Refusal;
use limits::{
    LARGEST_SETTING, LAST_KIND, MOST_FIELDS, MOST_RULES, MOST_SETTINGS, MOST_TRIPLES, WHOLE_REACH,
};

// What the next number is. `more`, `rules` and `triples` count what is still to come after it of its field or rule, of the rules and of the
// triples; `floor` is the least that may come: one more than the setting before, or than the key of the rule or triple before.
#[derive(Clone, Copy, Debug, PartialEq, Eq)]
pub enum Expected {
    Fields,
    // field
    Count(u32),
    // field, more, floor
    Setting(u32, u32, u64),
    Reach,
    Rules,
    // rules, floor
    First(u32, u64),
    // rules, floor, i
    Second(u32, u64, u32),
    // rules, i, j
    Kind(u32, u32, u32),
    // rules, floor, j, more
    Mask(u32, u64, u32, u32),
    // rules, floor
    Amount(u32, u64),
    // The count of triples. The sheet may also end before it.
    Triples,
    // triples, floor
    TripleFirst(u32, u64),
    // triples, floor, i
    TripleSecond(u32, u64, u32),
    // triples, floor, i, j
    TripleThird(u32, u64, u32, u32),
    // triples, floor
    TripleAmount(u32, u64),
}

// Where the numbers before have led: a sheet of so many fields expects a number, or has its last triple.
#[derive(Clone, Copy, Debug, PartialEq, Eq)]
pub enum State {
    Wants(u32, Expected),
    Complete,
}

// A number is in its range.
pub fn in_range(test: bool) -> Result<(), Refusal>
    ensures { result ≡ ranged test (Ok tt) }
{
    if test {
        Ok(())
    } else {
        Err(Refusal::OutOfRange)
    }
}

// A number is in its order.
pub fn in_order(test: bool) -> Result<(), Refusal>
    ensures { result ≡ ordered test (Ok tt) }
{
    if test {
        Ok(())
    } else {
        Err(Refusal::OutOfOrder)
    }
}

// x is from 1 to `most`.
fn up_to(most: u32, x: u32) -> bool
    ensures { result ≡ up_to most x }
{
    (1 <= x) & (x <= most)
}

// What an `Expected` holds is passed part by part: a struct for the parts would be taken apart again in each function.
fn after_field(n: u32, field: u32) -> State
    ensures { result ≡ after_field n field }
{
    if field < n {
        if 1 < n - field {
            return State::Wants(n, Expected::Count(field + 1));
        }
    }
    State::Wants(n, Expected::Reach)
}

fn after_setting(n: u32, field: u32, more: u32, floor: u64) -> State
    ensures { result ≡ after_setting n field more floor }
{
    if more == 0 {
        return after_field(n, field);
    }
    State::Wants(n, Expected::Setting(field, more - 1, floor))
}

fn after_rule(n: u32, rules: u32, floor: u64) -> State
    ensures { result ≡ after_rule n rules floor }
{
    if rules == 0 {
        return State::Wants(n, Expected::Triples);
    }
    State::Wants(n, Expected::First(rules - 1, floor))
}

fn after_mask(n: u32, rules: u32, floor: u64, j: u32, more: u32) -> State
    ensures { result ≡ after_mask n rules floor j more }
{
    if more == 0 {
        return after_rule(n, rules, floor);
    }
    State::Wants(n, Expected::Mask(rules, floor, j, more - 1))
}

// `masks` is the count of the first field.
fn after_kind(n: u32, rules: u32, floor: u64, j: u32, masks: u32, kind: u32) -> State
    ensures { result ≡ after_kind n rules floor j masks kind }
{
    if kind == 0 {
        return State::Wants(n, Expected::Mask(rules, floor, j, masks.saturating_sub(1)));
    }
    State::Wants(n, Expected::Amount(rules, floor))
}

// The place of a rule in the order of rules, by its fields.
fn key(i: u32, j: u32) -> u64
    ensures { (result ≡ key i j) × (result < 2 ^ 40) }
{
    u64::from(i) * u64::from(MOST_FIELDS) + u64::from(j)
}

// i is below j, and the rule not below the floor.
fn rising(i: u32, j: u32, floor: u64) -> bool
    ensures { result ≡ rising i j floor }
{
    (i < j) & (floor <= key(i, j))
}

// x is below 2 to the power d.
fn below_power(x: u32, d: u32) -> bool
    ensures { result ≡ ltb x (2 ^ d) }
{
    if d < 32 { x >> d == 0 } else { true }
}

// The count of a field, 0 past the end of the counts.
fn count_of(counts: &[u32], field: u32) -> u32
    ensures { result ≡ get_or counts.now field 0 }
{
    counts.get(field as usize).copied().unwrap_or(0)
}

// No `get_mut`: its promise does not say that the counts stay where it answers `None`.
fn set_count(counts: &mut [u32], field: u32, x: u32)
    ensures { counts.new ≡ set counts.old field x }
{
    let k = field as usize;
    if k < counts.len() {
        counts[k] = x;
    }
}

// What a setting x leads to.
fn setting(n: u32, field: u32, more: u32, floor: u64, x: u32) -> Result<State, Refusal>
    ensures { result ≡ ranged (leb x largest_setting) (ordered (leb floor x) (Ok (after_setting n field more (x + 1)))) }
{
    in_range(x <= LARGEST_SETTING)?;
    let y = u64::from(x);
    in_order(floor <= y)?;
    Ok(after_setting(n, field, more, y + 1))
}

// What a rule's second field x leads to, i being its first.
fn second(n: u32, rules: u32, floor: u64, i: u32, x: u32) -> Result<State, Refusal>
    ensures { result ≡ ranged (ltb x n) (ordered (rising i x floor) (Ok (State.Wants n (Expected.Kind rules i x)))) }
{
    in_range(x < n)?;
    in_order(rising(i, x, floor))?;
    Ok(State::Wants(n, Expected::Kind(rules, i, x)))
}

// What a kind x leads to.
fn kind(n: u32, rules: u32, i: u32, j: u32, masks: u32, x: u32) -> Result<State, Refusal>
    ensures { result ≡ ranged (leb x last_kind) (Ok (after_kind n rules (key i j + 1) j masks x)) }
{
    in_range(x <= LAST_KIND)?;
    Ok(after_kind(n, rules, key(i, j) + 1, j, masks, x))
}

// What the number x leads to in a sheet of n fields, where it is what is expected; `counts` holds the counts of the fields so far.
#[tactic(auto, unfolding(crate::specs::Grammar::advance, masks::specs::Pick::pick))]
pub fn advance(n: u32, expected: Expected, counts: &mut [u32], x: u32) -> Result<State, Refusal>
    ensures { (result ≡ (advance n expected counts.old x).0)
        × (counts.new ≡ (advance n expected counts.old x).1) }
{
    match expected {
        Expected::Fields => {
            in_range(up_to(MOST_FIELDS, x))?;
            Ok(State::Wants(x, Expected::Count(0)))
        }
        Expected::Count(f) => {
            set_count(counts, f, x);
            in_range(up_to(MOST_SETTINGS, x))?;
            Ok(State::Wants(n, Expected::Setting(f, x - 1, 0)))
        }
        Expected::Setting(f, more, floor) => setting(n, f, more, floor, x),
        Expected::Reach => {
            in_range(up_to(WHOLE_REACH, x))?;
            Ok(State::Wants(n, Expected::Rules))
        }
        Expected::Rules => {
            in_range(x <= MOST_RULES)?;
            Ok(after_rule(n, x, 0))
        }
        Expected::First(rules, floor) => {
            in_range(x < n)?;
            Ok(State::Wants(n, Expected::Second(rules, floor, x)))
        }
        Expected::Second(rules, floor, i) => second(n, rules, floor, i, x),
        Expected::Kind(rules, i, j) => kind(n, rules, i, j, count_of(counts, i), x),
        Expected::Mask(rules, floor, j, more) => {
            in_range(below_power(x, count_of(counts, j)))?;
            Ok(after_mask(n, rules, floor, j, more))
        }
        Expected::Amount(rules, floor) => {
            amount(x)?;
            Ok(after_rule(n, rules, floor))
        }
        Expected::Triples => {
            in_range(up_to(MOST_TRIPLES, x))?;
            Ok(after_triple(n, x, 0))
        }
        Expected::TripleFirst(triples, floor) => triple_first(n, triples, floor, x),
        Expected::TripleSecond(triples, floor, i) => triple_second(n, triples, floor, i, x),
        Expected::TripleThird(triples, floor, i, j) => triple_third(n, triples, floor, i, j, x),
        Expected::TripleAmount(triples, floor) => triple_amount(n, triples, floor, x),
    }
}

// A source that ends where a number is expected. It may before the count of triples.
fn ends_before(expected: Expected) -> Result<(), Refusal>
    ensures { result ≡ ends_before expected }
{
    match expected {
        Expected::Triples => Ok(()),
        _ => Err(Refusal::EndsInside),
    }
}

// A source that ends here. It may where it has its last rule or its last triple.
pub fn at_end(state: State) -> Result<(), Refusal>
    ensures { result ≡ at_end state }
{
    match state {
        State::Wants(_, expected) => ends_before(expected),
        State::Complete => Ok(()),
    }
}
