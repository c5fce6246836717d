// The triples of a sheet, number after number.
ghost use Rattle.std.specs.Prelude.{◌≡◌, ◌+◌, ◌^◌, ◌<◌, ltb, leb};
ghost use Rattle.limits.specs.Limits.{largest_setting};
ghost use Rattle.grammar.specs.Grammar.{ranged, ordered, after_triple, triple_key, rising_triple};

use super::grammar::{Expected, State, in_order, in_range};
use limits::refusals::Refusal;
use limits::{LARGEST_SETTING, MOST_FIELDS};

// What follows a triple, where `triples` are to come.
pub fn after_triple(n: u32, triples: u32, floor: u64) -> State
    ensures { result ≡ after_triple n triples floor }
{
    if triples == 0 {
        return State::Complete;
    }
    State::Wants(n, Expected::TripleFirst(triples - 1, floor))
}

// The place of a triple in the order of triples, by its fields.
fn triple_key(i: u32, j: u32, k: u32) -> u64
    ensures { (result ≡ triple_key i j k) × (result < 2 ^ 45) }
{
    (u64::from(i) * u64::from(MOST_FIELDS) + u64::from(j)) * u64::from(MOST_FIELDS) + u64::from(k)
}

// What a triple's first field x leads to.
pub fn triple_first(n: u32, triples: u32, floor: u64, x: u32) -> Result<State, Refusal>
    ensures { result ≡ ranged (ltb x n) (Ok (State.Wants n (Expected.TripleSecond triples floor x))) }
{
    in_range(x < n)?;
    Ok(State::Wants(n, Expected::TripleSecond(triples, floor, x)))
}

// What a triple's second field x leads to, i being its first.
pub fn triple_second(n: u32, triples: u32, floor: u64, i: u32, x: u32) -> Result<State, Refusal>
    ensures { result ≡ ranged (ltb x n) (ordered (ltb i x) (Ok (State.Wants n (Expected.TripleThird triples floor i x)))) }
{
    in_range(x < n)?;
    in_order(i < x)?;
    Ok(State::Wants(n, Expected::TripleThird(triples, floor, i, x)))
}

// What a triple's third field x leads to, i and j being its first and second.
pub fn triple_third(
    n: u32,
    triples: u32,
    floor: u64,
    i: u32,
    j: u32,
    x: u32,
) -> Result<State, Refusal>
    ensures { result ≡ ranged (ltb x n)
        (ordered (rising_triple i j x floor) (Ok (State.Wants n (Expected.TripleAmount triples (triple_key i j x + 1))))) }
{
    in_range(x < n)?;
    let key = triple_key(i, j, x);
    in_order((j < x) & (floor <= key))?;
    Ok(State::Wants(n, Expected::TripleAmount(triples, key + 1)))
}

// The number x of a rule or a triple is in its range.
pub fn amount(x: u32) -> Result<(), Refusal>
    ensures { result ≡ ranged (leb x largest_setting) (Ok tt) }
{
    in_range(x <= LARGEST_SETTING)
}

// What a triple's number x leads to.
pub fn triple_amount(n: u32, triples: u32, floor: u64, x: u32) -> Result<State, Refusal>
    ensures { result ≡ ranged (leb x largest_setting) (Ok (after_triple n triples floor)) }
{
    amount(x)?;
    Ok(after_triple(n, triples, floor))
}
