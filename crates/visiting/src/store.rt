// What engine 2 remembers of passed tests, and the test that looks there first.
ghost use Rattle.std.specs.Prelude.{◌↔◌, ◌≡◌, true, ◌+◌, ◌≤◌, ◌<◌, length, get_or};
ghost use Rattle.limits.specs.Limits.{most_fields, most_settings, memory_words};
ghost use Rattle.masks.specs.Sets.{has, ◌⊆◌};
ghost use Rattle.masks.specs.Restrict.{restrict};
ghost use Rattle.network.specs.Network.{problem, hoods};
ghost use Rattle.network.specs.Stored.{Stored, words_of};
ghost use Rattle.closing.specs.Asks.{Masks, LiveAsks, Counted, Kept};
ghost use Rattle.visiting.specs.Memory.{place_of, recall};
ghost use Rattle.visiting.specs.Store.{HoodAsks, Store, Recallable, Checked};

use closing::ac4::Ac4;
use closing::test::test;
use limits::{FIELDS, SETTINGS};
use masks::{flood, has_bit, one_bit};
use network::tables::Tables;

// Where the masks of position v of field f are in the memory.
fn place(f: usize, v: usize) -> usize
    requires { (f < most_fields) × (v < most_settings) }
    ensures { result ≡ place_of f v }
{
    (f * SETTINGS + v) * FIELDS
}

// Whether m holds all of the masks at a place of the memory.
fn intact(memory: &[u32], base: usize, m: &[u32; FIELDS]) -> bool
    requires { (base + most_fields ≤ length memory.now) × Masks m.now }
    ensures { (result ≡ true) ↔ (recall memory.now base ⊆ m.now) }
{
    let mut lack: u32 = 0;
    for h in 0..FIELDS {
        lack |= memory[base + h] & !m[h];
    }
    lack == 0
}

// Whether the engine remembers, position v of field f passed a test, and m still holds all that is remembered of it.
fn recalled(
    remembers: bool,
    m: &[u32; FIELDS],
    known: &[u32; FIELDS],
    memory: &[u32],
    f: usize,
    v: usize,
) -> bool
    requires { (f < most_fields) × (v < most_settings) × (memory_words ≤ length memory.now) × Masks m.now }
    ensures { (result ≡ true) ↔ Recallable remembers known.now memory.now f v m.now }
{
    if remembers {
        if has_bit(known[f], v) {
            return intact(memory, place(f, v), m);
        }
    }
    false
}

// Remembers what a passed test of position v of field f left: the masks of f's neighbourhood, and 0 for the other fields.
fn remember(memory: &mut [u32], hood: &[u32; FIELDS], f: usize, v: usize, left: &[u32; FIELDS])
    requires { (f < most_fields) × (v < most_settings) × (memory_words ≤ length memory.old) × Masks left.now }
    ensures { Stored memory.old (place_of f v) (words_of (restrict (get_or hood.now f 0) left.now))
        most_fields memory.new }
{
    let base = place(f, v);
    let within = hood[f];
    for h in 0..FIELDS {
        memory[base + h] = left[h] & flood(within, h);
    }
}

// What is found of a setting: it is recalled that it passes, or it was tested.
#[derive(Clone, Copy)]
pub enum CheckResult {
    Recalled,
    Passed,
    Failed,
}

// Whether position v of field f passes in the set m over f's neighbourhood. With `remembers`, what a passed test left in the neighbourhood
// is remembered, and while the set holds all of it the setting is not tested again.
pub fn check<'a>(
    m: &[u32; FIELDS],
    known: &mut [u32; FIELDS],
    memory: &mut [u32],
    remembers: bool,
    f: usize,
    v: usize,
    ac4: &mut Ac4,
    tables: &Tables<'a>,
) -> CheckResult
    requires live_asks { LiveAsks tables.now m.now × Store (problem tables.now) (hoods tables.now) m.now known.old memory.old }
    requires hood_asks { HoodAsks (problem tables.now) (hoods tables.now) f × (has m.now f v ≡ true) }
    requires counted { Counted (problem tables.now) ac4.old m.now }
    ensures checked { Checked (problem tables.now) (hoods tables.now) m.now remembers f v result known.old memory.old
        ac4.old.copy.counts ac4.old.list.places known.new memory.new ac4.new.copy.counts ac4.new.list.places }
    ensures counted { Counted (problem tables.now) ac4.new m.now }
    ensures kept { Kept ac4.old ac4.new }
{
    if recalled(remembers, m, known, memory, f, v) {
        return CheckResult::Recalled;
    }
    let hood = &tables.network.hood;
    let mut left = *m;
    if !test(&mut left, f, v, hood[f], ac4, tables) {
        return CheckResult::Failed;
    }
    if remembers {
        remember(memory, hood, f, v, &left);
        known[f] |= one_bit(v);
    }
    CheckResult::Passed
}
