// Reads a sheet from standard input, opens it with engine 1, the fields in rising order and every field selected, and prints its page: a
// line for each field with its position and the settings offered, or the number of the refusal.
#![tactic(auto)]

ghost use Rattle.std.specs.Prelude.{◌≡◌, ◌≤◌, IfOk, length, take};
ghost use Rattle.limits.specs.Limits.{most_fields, most_numbers, offers_words, text_bytes};
ghost use Rattle.limits.specs.Refusals.{number_of};
ghost use Rattle.belaykeel_offers.specs.Input.{input_bytes};
ghost use Rattle.belaykeel_offers.specs.Opening.{opening, Opened};
ghost use Rattle.belaykeel_offers.specs.Page.{page_of};

use accepted::parts::AcceptedSheet;
use calls::open;
use limits::refusals::Refusal;
use limits::{MEMORY_WORDS, MOST_NUMBERS, OFFERS_WORDS, ROWS_WORDS, TEXT_BYTES};
use masks::first_positions;
use printing::text;
use session::fresh;
use sheet::reading::read;
use std::io;
use std::io::Read;

// The most that the program reads. What comes later decides nothing: `page_of_input` in proofs/WholeInput.antt.
const INPUT_BYTES: usize = 32768;

// SAC-1.
const ENGINE: u32 = 1;

// As many fields as a sheet may have, in rising order.
const RISING: &[u8] =
    b"\x00\x01\x02\x03\x04\x05\x06\x07\x08\x09\x0A\x0B\x0C\x0D\x0E\x0F\x10\x11\x12\x13\x14\x15\x16\x17";

fn main(rt: HostRuntime) -> io::Result<()> {
    let mut input = input_room();
    let mut output = [0u8; TEXT_BYTES];
    let size = read_full(&mut rt.reader(), &mut input)?;
    let length = page(&input[..size], &mut output);
    rt.write_all(&output[..length])
}

fn input_room() -> [u8; INPUT_BYTES]
    ensures { input_bytes ≡ length result }
{
    [0; INPUT_BYTES]
}

// Reads until the room is full or the input ends; how many bytes stand at the room's front. Nothing is read into a full room: some inputs
// refuse to give no bytes, or wait.
fn read_full<R: Read>(from: &mut R, room: &mut [u8]) -> io::Result<usize>
    ensures { IfOk result (λ n. n ≤ length room.new) }
{
    let mut done = 0;
    while done < room.len() {
        match from.read(&mut room[done..])? {
            0 => break,
            n => done += n,
        }
    }
    Ok(done)
}

// Writes the page of a sheet over the front of the output; its length.
fn page(sheet: &[u8], output: &mut [u8]) -> usize
    requires { text_bytes ≤ length output.old }
    ensures { (take result output.new ≡ page_of sheet.now) × (result ≤ text_bytes) }
{
    let mut numbers = [0; MOST_NUMBERS];
    let mut offers = [0; OFFERS_WORDS];
    match opened(sheet, &mut numbers, &mut offers) {
        Ok(count) => text(&numbers[..count], 0, &offers, output),
        Err(refusal) => text(&[], refusal.number(), &offers, output),
    }
}

// Reads a sheet and opens it; how many numbers it has.
fn opened(
    sheet: &[u8],
    numbers: &mut [u32],
    offers: &mut [u32; OFFERS_WORDS],
) -> Result<usize, Refusal>
    requires { (most_numbers ≤ length numbers.old) × (offers_words ≤ length offers.old) }
    ensures { Opened sheet.now offers.old result numbers.new offers.new }
{
    let count = read(sheet, numbers)?;
    let accepted = AcceptedSheet {
        numbers: &numbers[..count],
    };
    open_rising(sheet, accepted.fields(), offers)?;
    Ok(count)
}

// Opens the sheet with its n fields in rising order, all of them selected.
fn open_rising(sheet: &[u8], n: usize, offers: &mut [u32; OFFERS_WORDS]) -> Result<(), Refusal>
    requires { n ≤ most_fields }
    ensures { (number_of result ≡ (opening sheet.now n offers.old).number)
        × (offers.new ≡ (opening sheet.now n offers.old).offers) }
{
    let mut rows = [0; ROWS_WORDS];
    let mut memory = [0; MEMORY_WORDS];
    open(
        fresh(),
        sheet,
        ENGINE,
        &RISING[..n],
        first_positions(n),
        offers,
        &mut rows,
        &mut memory,
    )?;
    Ok(())
}
