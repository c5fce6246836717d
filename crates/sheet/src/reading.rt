// A sheet's bytes, checked, and read to its list of numbers.
ghost use Rattle.std.specs.Prelude.{◌≡◌, ◌≤◌, length, replicate};
ghost use Rattle.std.proofs.lemmas.List.Edits.{sets};
ghost use Rattle.limits.specs.Limits.{most_fields};
ghost use Rattle.sheet.specs.Sources.{answer_of, checked, Gives, reading, of_bytes, numbers};

use grammar::grammar::{Expected, State, advance, at_end};
use groups::reader::read_number;
use limits::MOST_FIELDS;
use limits::refusals::Refusal;

// `counts` is room for the counts of the fields.
fn check_with(sheet: &[u8], counts: &mut [u32]) -> Result<usize, Refusal>
    requires { counts.old ≡ replicate most_fields 0 }
    ensures { answer_of result ≡ checked (of_bytes sheet.now) (numbers (of_bytes sheet.now)) }
{
    let mut state = State::Wants(0, Expected::Fields);
    let mut place: usize = 0;
    let mut count: usize = 0;
    // A number has one to four bytes, so no `for` goes from number to number.
    while place < sheet.len() {
        match state {
            State::Wants(n, expected) => {
                let number = read_number(sheet, place)?;
                state = advance(n, expected, counts, number.value)?;
                place = number.next;
                count += 1;
            }
            State::Complete => return Err(Refusal::Surplus),
        }
    }
    at_end(state)?;
    Ok(count)
}

// Whether the bytes are a sheet, and how many numbers it has.
pub fn check(sheet: &[u8]) -> Result<usize, Refusal>
    ensures { answer_of result ≡ checked (of_bytes sheet.now) (numbers (of_bytes sheet.now)) }
{
    let mut counts = [0u32; MOST_FIELDS as usize];
    check_with(sheet, &mut counts)
}

// Writes the numbers of the bytes over the front of the output.
fn put_numbers(sheet: &[u8], output: &mut [u32])
    requires { length (numbers (of_bytes sheet.now)) ≤ length output.old }
    ensures { output.new ≡ sets output.old 0 (numbers (of_bytes sheet.now)) }
{
    let mut place: usize = 0;
    let mut k: usize = 0;
    // A number has one to four bytes, so no `for` goes from number to number.
    while place < sheet.len() {
        match read_number(sheet, place) {
            Ok(number) => {
                output[k] = number.value;
                place = number.next;
                k += 1;
            }
            Err(_) => return,
        }
    }
}

// Reads a sheet's bytes to its list of numbers.
#[tactic(auto, using(crate::proofs::Giving::giving))]
pub fn read(sheet: &[u8], output: &mut [u32]) -> Result<usize, Refusal>
    ensures { Gives (reading sheet.now output.old) (answer_of result) output.new }
{
    let count = check(sheet)?;
    if output.len() < count {
        return Err(Refusal::TooShort);
    }
    put_numbers(sheet, output);
    Ok(count)
}
