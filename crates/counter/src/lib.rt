// Counter of Figure 2 of source document 004: how many settings of a field support a setting. Counter[(i, j), a] is kept in binary, and
// its digit k is position a of the word at 120 j + 24 k + i. So the counts towards field j are five sets of settings, one for each digit,
// and a line of the figure that is for all a, or for all (i, a), is done for all a of a field at once.
#![tactic(auto)]

ghost use Rattle.std.specs.Prelude.{◌≡◌, ◌+◌, ◌≤◌, ◌<◌};
ghost use Rattle.limits.specs.Limits.{most_fields, counter_words};
ghost use Rattle.counter.specs.Digits.{LoweredWord, RaisedWord, counted_word};
ghost use Rattle.counter.specs.Counts.{Lowered, Raised, Uncounted};

use limits::{COUNTER_WORDS, COUNTS_WORDS, FIELDS};

// The counts, and the fields towards which they were lowered since the counts and their copy were equal.
#[derive(Clone, Copy)]
pub struct Counter {
    pub counts: [u32; COUNTER_WORDS],
    pub spent: u32,
}

// The counts whose lowest digits are the word at p, less one for each position of s: a subtraction digit by digit, in which what a digit
// lacks is taken from the next. The positions of s whose count is 0 then.
fn lower_word(counter: &mut [u32; COUNTER_WORDS], p: usize, s: u32) -> u32
    requires { p + 96 < counter_words }
    ensures { LoweredWord counter.old p s result counter.new }
{
    let d0 = counter[p] ^ s;
    let s1 = s & d0;
    let d1 = counter[p + 24] ^ s1;
    let s2 = s1 & d1;
    let d2 = counter[p + 48] ^ s2;
    let s3 = s2 & d2;
    let d3 = counter[p + 72] ^ s3;
    let s4 = s3 & d3;
    let d4 = counter[p + 96] ^ s4;
    counter[p] = d0;
    counter[p + 24] = d1;
    counter[p + 48] = d2;
    counter[p + 72] = d3;
    counter[p + 96] = d4;
    s ^ (s & (d0 | d1 | d2 | d3 | d4))
}

// The same counts, and one more for each position of s.
fn raise_word(counter: &mut [u32; COUNTER_WORDS], p: usize, s: u32)
    requires { p + 96 < counter_words }
    ensures { RaisedWord counter.old p s counter.new }
{
    let c0 = counter[p];
    let s1 = s & c0;
    let c1 = counter[p + 24];
    let s2 = s1 & c1;
    let c2 = counter[p + 48];
    let s3 = s2 & c2;
    let c3 = counter[p + 72];
    let s4 = s3 & c3;
    let c4 = counter[p + 96];
    counter[p] = c0 ^ s;
    counter[p + 24] = c1 ^ s1;
    counter[p + 48] = c2 ^ s2;
    counter[p + 72] = c3 ^ s3;
    counter[p + 96] = c4 ^ s4;
}

// The positions whose count is not 0.
fn counted_word(counter: &[u32; COUNTER_WORDS], p: usize) -> u32
    requires { p + 96 < counter_words }
    ensures { result ≡ counted_word counter.now p }
{
    counter[p] | counter[p + 24] | counter[p + 48] | counter[p + 72] | counter[p + 96]
}

// The counts towards field j of the settings of s in the first `wide` fields, each less one. The settings of s whose count is 0 then.
pub fn lower(
    counter: &mut [u32; COUNTER_WORDS],
    j: usize,
    s: &[u32; FIELDS],
    wide: usize,
) -> [u32; FIELDS]
    requires { (j < most_fields) × (wide ≤ most_fields) }
    ensures { Lowered counter.old j s.now wide result counter.new }
{
    let mut none = [0u32; FIELDS];
    for i in 0..wide {
        none[i] = lower_word(counter, j * COUNTS_WORDS + i, s[i]);
    }
    none
}

// The counts towards field j of the settings of s in the first `wide` fields, each one more.
pub fn raise(counter: &mut [u32; COUNTER_WORDS], j: usize, s: &[u32; FIELDS], wide: usize)
    requires { (j < most_fields) × (wide ≤ most_fields) }
    ensures { Raised counter.old j s.now wide counter.new }
{
    for i in 0..wide {
        raise_word(counter, j * COUNTS_WORDS + i, s[i]);
    }
}

// The settings of d in the first `wide` fields whose count towards field j is 0.
pub fn uncounted(
    counter: &[u32; COUNTER_WORDS],
    j: usize,
    d: &[u32; FIELDS],
    wide: usize,
) -> [u32; FIELDS]
    requires { (j < most_fields) × (wide ≤ most_fields) }
    ensures { Uncounted counter.now j d.now wide result }
{
    let mut none = [0u32; FIELDS];
    for i in 0..wide {
        let x = d[i];
        none[i] = x ^ (x & counted_word(counter, j * COUNTS_WORDS + i));
    }
    none
}
