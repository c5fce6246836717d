// The rows of the tables: the parts of the space that holds them, and where a pair of fields has its rows in either.
ghost use Rattle.std.specs.Prelude.{◌≡◌, ◌+◌, ◌<◌, ◌≤◌, length};
ghost use Rattle.limits.specs.Limits.{most_fields, most_settings, most_rules, rows_words, table_words};
ghost use Rattle.network.specs.Slots.{slot};
ghost use Rattle.network.specs.Tables.{forward_of, turned_of, rows_of};
ghost use Rattle.network.specs.Stored.{Stored, words_of};

use limits::{SETTINGS, TABLE_WORDS};

// The slot of the fields i below j in either table.
pub fn slot(i: usize, j: usize) -> usize
    requires { (i < j) × (j < most_fields) }
    ensures { (result ≡ slot i j) × (result < most_rules) }
{
    j * (j - 1) / 2 + i
}

// The forward table: the front of the rows.
pub fn forward<'a>(rows: &'a [u32]) -> &'a [u32]
    requires { rows_words ≤ length rows.now }
    ensures { result.now ≡ forward_of rows.now }
{
    &rows[..TABLE_WORDS]
}

// The turned table: what comes after the forward one.
pub fn turned<'a>(rows: &'a [u32]) -> &'a [u32]
    requires { rows_words ≤ length rows.now }
    ensures { result.now ≡ turned_of rows.now }
{
    &rows[TABLE_WORDS..]
}

// The rows of the settings of g towards f: part of the forward table where g is the lower field, else of the turned one.
pub fn row<'a>(forward: &'a [u32], turned: &'a [u32], g: usize, f: usize) -> &'a [u32]
    requires { (g < most_fields) × (f < most_fields) × (g ≡ f → ⊥)
        × (table_words ≤ length forward.now) × (table_words ≤ length turned.now) }
    ensures { result.now ≡ rows_of forward.now turned.now g f }
{
    if g < f {
        let at = slot(g, f) * SETTINGS;
        let end = at + SETTINGS;
        return &forward[at..end];
    }
    let at = slot(f, g) * SETTINGS;
    let end = at + SETTINGS;
    &turned[at..end]
}

// Stores a word for each setting, or for each field, at a place.
pub fn store(words: &mut [u32], base: usize, w: &[u32; SETTINGS])
    requires { base + most_settings ≤ length words.old }
    ensures { Stored words.old base (words_of w.now) most_settings words.new }
{
    words[base..base + SETTINGS].copy_from_slice(w);
}
