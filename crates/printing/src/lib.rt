// The text that the program prints: a line for each field with the settings offered, or the number of the refusal.
#![tactic(auto)]

ghost use Rattle.std.specs.Prelude.{◌≡◌, [], ◌∷◌, ◌+◌, ◌<◌, ◌≤◌, length};
ghost use Rattle.std.proofs.lemmas.List.Edits.{sets};
ghost use Rattle.limits.specs.Limits.{text_bytes};
ghost use Rattle.sheet.specs.Sources.{Accepted};
ghost use Rattle.accepted.specs.Parts.{count_of, fields_of};
ghost use Rattle.printing.specs.Text.{decimal, offer, offered, blank_each, line, lines, refused_line, text};
ghost use Rattle.printing.specs.Rooms.{offer_room, offers_room, line_room};
ghost use Rattle.printing.specs.Puts.{Puts};

use accepted::fields::Field;
use accepted::parts::AcceptedSheet;
use limits::OFFERS_WORDS;
use masks::has_bit;

// Each of these writes bytes from a place of the output on, and returns the place after them.
fn put_byte(output: &mut [u8], place: usize, byte: u8) -> usize
    requires { place < length output.old }
    ensures { Puts output.old place (byte ∷ []) result output.new }
{
    output[place] = byte;
    place + 1
}

fn put_bytes(output: &mut [u8], place: usize, bytes: &[u8]) -> usize
    requires { place + length bytes.now ≤ length output.old }
    ensures { Puts output.old place bytes.now result output.new }
{
    let next = place + bytes.len();
    output[place..next].copy_from_slice(bytes);
    next
}

// The numeral of x. What `write!` writes is named by its clauses for a String alone, and a String needs a heap.
fn put_decimal(output: &mut [u8], place: usize, x: u32) -> usize
    requires { place + length (decimal x) ≤ length output.old }
    ensures { Puts output.old place (decimal x) result output.new }
{
    if x < 10 {
        return put_byte(output, place, 48 + x as u8);
    }
    let next = put_decimal(output, place, x / 10);
    put_byte(output, next, 48 + (x % 10) as u8)
}

// A blank and the setting of a field at position v, where the mask has it.
fn put_offer(output: &mut [u8], place: usize, field: Field, v: usize, mask: u32) -> usize
    requires { (v < count_of field.numbers.now field.index) × (place + offer_room ≤ length output.old) }
    ensures { Puts output.old place (blank_each (offer field.entry.numbers.now field.entry.index mask v)) result output.new }
{
    if has_bit(mask, v) {
        let next = put_byte(output, place, b' ');
        return put_decimal(output, next, field.setting(v));
    }
    place
}

// The settings of a field that the mask has.
fn put_offers(output: &mut [u8], place: usize, field: Field, mask: u32) -> usize
    requires { place + offers_room ≤ length output.old }
    ensures { Puts output.old place
        (blank_each (offered field.entry.numbers.now field.entry.index mask (count_of field.entry.numbers.now field.entry.index)))
        result output.new }
{
    let mut next = place;
    for v in 0..field.count() {
        next = put_offer(output, next, field, v, mask);
    }
    next
}

// The line of a field.
fn put_line(output: &mut [u8], place: usize, field: Field, mask: u32) -> usize
    requires { place + line_room ≤ length output.old }
    ensures { Puts output.old place (line field.entry.numbers.now field.entry.index mask) result output.new }
{
    let position = put_decimal(output, place, field.index as u32);
    let colon = put_byte(output, position, b':');
    let settings = put_offers(output, colon, field, mask);
    put_byte(output, settings, b'\n')
}

// The lines of all fields, from the front of the output.
fn put_lines(output: &mut [u8], sheet: AcceptedSheet, offers: &[u32; OFFERS_WORDS]) -> usize
    requires { text_bytes ≤ length output.old }
    ensures { Puts output.old 0
        (lines sheet.entry.numbers.now offers.now (fields_of sheet.entry.numbers.now)) result output.new }
{
    let mut next: usize = 0;
    for f in 0..sheet.fields() {
        next = put_line(output, next, sheet.field(f), offers[f]);
    }
    next
}

// The line of a refusal, from the front of the output.
fn put_refused(output: &mut [u8], number: u32) -> usize
    requires { text_bytes ≤ length output.old }
    ensures { Puts output.old 0 (refused_line number) result output.new }
{
    let word = put_bytes(output, 0, b"refused ");
    let numeral = put_decimal(output, word, number);
    put_byte(output, numeral, b'\n')
}

// Writes the text over the front of the output; its length.
pub fn text(numbers: &[u32], number: u32, offers: &[u32; OFFERS_WORDS], output: &mut [u8]) -> usize
    requires { (number ≡ 0 → Accepted numbers.now) × (text_bytes ≤ length output.old) }
    ensures { (result ≡ length (text numbers.now number offers.now))
        × (output.new ≡ sets output.old 0 (text numbers.now number offers.now))
        × (result ≤ text_bytes) }
{
    if number == 0 {
        return put_lines(output, AcceptedSheet { numbers }, offers);
    }
    put_refused(output, number)
}
