// A list of numbers, checked, and written as a sheet's bytes.
ghost use Rattle.std.specs.Prelude.{◌≡◌, ◌≤◌, length, replicate};
ghost use Rattle.std.proofs.lemmas.List.Edits.{sets};
ghost use Rattle.limits.specs.Limits.{most_fields};
ghost use Rattle.sheet.specs.Sources.{answer_of, is_retired, checked_list, Gives, writing, bytes_of};

use grammar::grammar::{Expected, State, advance, at_end};
use groups::groups::{put, size};
use limits::refusals::Refusal;
use limits::{MOST_FIELDS, RETIRED_KIND};

// Whether x is the retired kind, where a kind is expected. The grammar takes it, for the reader; the writer alone refuses it.
fn is_retired(expected: Expected, x: u32) -> bool
    ensures { result ≡ is_retired expected x }
{
    match expected {
        Expected::Kind(_, _, _) => x == RETIRED_KIND,
        _ => false,
    }
}

// `counts` is room for the counts of the fields.
fn check_with(numbers: &[u32], counts: &mut [u32]) -> Result<usize, Refusal>
    requires { counts.old ≡ replicate most_fields 0 }
    ensures { answer_of result ≡ checked_list numbers.now }
{
    let mut state = State::Wants(0, Expected::Fields);
    let mut bytes: usize = 0;
    for &x in numbers {
        match state {
            State::Wants(n, expected) => {
                if is_retired(expected, x) {
                    return Err(Refusal::Retired);
                }
                state = advance(n, expected, counts, x)?;
                bytes += size(x);
            }
            State::Complete => return Err(Refusal::Surplus),
        }
    }
    at_end(state)?;
    Ok(bytes)
}

// Whether the numbers are a sheet that is written, and how many bytes it has.
pub fn check(numbers: &[u32]) -> Result<usize, Refusal>
    ensures { answer_of result ≡ checked_list numbers.now }
{
    let mut counts = [0u32; MOST_FIELDS as usize];
    check_with(numbers, &mut counts)
}

// Writes the bytes of the numbers over the front of the output.
fn put_bytes(numbers: &[u32], output: &mut [u8])
    requires { length (bytes_of numbers.now) ≤ length output.old }
    ensures { output.new ≡ sets output.old 0 (bytes_of numbers.now) }
{
    let mut place: usize = 0;
    for &x in numbers {
        place = put(output, place, x);
    }
}

// Writes a list of numbers as a sheet's bytes.
#[tactic(auto, using(crate::proofs::Giving::giving))]
pub fn write(numbers: &[u32], output: &mut [u8]) -> Result<usize, Refusal>
    ensures { Gives (writing numbers.now output.old) (answer_of result) output.new }
{
    let bytes = check(numbers)?;
    if output.len() < bytes {
        return Err(Refusal::TooShort);
    }
    put_bytes(numbers, output);
    Ok(bytes)
}
