// One number in bytes: groups of seven bits, lowest first, the top bit set on every byte but the last; at most four groups, and the
// fewest possible.
ghost use Rattle.std.specs.Prelude.{◌≡◌, ◌+◌, ◌<◌, ◌≤◌, eqb, get_or, length, MatchResult};
ghost use Rattle.std.proofs.lemmas.List.Edits.{sets};
ghost use Rattle.limits.specs.declared.refusals.Refusal.TheVariants.{EndsInside};
ghost use Rattle.groups.specs.Groups.{number_at, last_group, encode};

use limits::refusals::Refusal;

// A number that stands in bytes, and the place after it.
#[derive(Clone, Copy, Debug, PartialEq, Eq)]
pub struct Number {
    pub value: u32,
    pub next: usize,
}

// The group at a place of the bytes.
fn group_at(sheet: &[u8], place: usize) -> Result<u32, Refusal>
    ensures { MatchResult result
        (λ x. (place < length sheet.now) × (x ≡ get_or sheet.now place 0) × (x < 256))
        (λ e. (length sheet.now ≤ place) × (e ≡ EndsInside)) }
{
    if sheet.len() <= place {
        return Err(Refusal::EndsInside);
    }
    Ok(u32::from(sheet[place]))
}

// The number x whose last group, after another, is given.
fn last_group(group: u32, x: u32, next: usize) -> Result<Number, Refusal>
    ensures { result ≡ last_group (eqb group 0) x next }
{
    if group == 0 {
        Err(Refusal::IllFormed)
    } else {
        Ok(Number { value: x, next })
    }
}

// The number at a place of the bytes.
pub fn number_at(sheet: &[u8], place: usize) -> Result<Number, Refusal>
    ensures { result ≡ number_at sheet.now place }
{
    let a = group_at(sheet, place)?;
    let second = place + 1;
    if a < 128 {
        return Ok(Number {
            value: a,
            next: second,
        });
    }
    let b = group_at(sheet, second)?;
    let third = second + 1;
    if b < 128 {
        return last_group(b, a - 128 + 128 * b, third);
    }
    let c = group_at(sheet, third)?;
    let fourth = third + 1;
    let low = a - 128 + 128 * (b - 128);
    if c < 128 {
        return last_group(c, low + 16384 * c, fourth);
    }
    let d = group_at(sheet, fourth)?;
    if d < 128 {
        return last_group(d, low + 16384 * (c - 128) + 2097152 * d, fourth + 1);
    }
    Err(Refusal::IllFormed)
}

// How many groups a number has.
pub fn size(x: u32) -> usize
    ensures { (result ≡ length (encode x)) × (result ≤ 4) }
{
    if x < 128 {
        return 1;
    }
    if x < 16384 {
        return 2;
    }
    if x < 2097152 {
        return 3;
    }
    4
}

// Writes the groups of x from a place of the output on; the place after them.
pub fn put(output: &mut [u8], place: usize, x: u32) -> usize
    requires { place + length (encode x) ≤ length output.old }
    ensures { (result ≡ place + length (encode x)) × (output.new ≡ sets output.old place (encode x)) }
{
    let mut y = x;
    for k in 0..4usize {
        if y < 128 {
            output[place + k] = y as u8;
            return place + k + 1;
        }
        output[place + k] = (y % 128 + 128) as u8;
        y /= 128;
    }
    place + 4
}
