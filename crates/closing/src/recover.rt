// The copy of the counts, on which tests work: the data structures of a test are taken up from the main ones, by copying.
ghost use Rattle.std.specs.Prelude.{◌≡◌, ◌^◌, ◌<◌};
ghost use Rattle.limits.specs.Limits.{most_fields, counts_words};
ghost use Rattle.pruning.specs.Prune.{OnlySpent};
ghost use Rattle.closing.specs.Recover.{Copied};

use limits::{COUNTER_WORDS, COUNTS_WORDS};
use masks::positions::positions;

// Copies the counts towards field j.
fn copy_towards(copy: &mut [u32; COUNTER_WORDS], counter: &[u32; COUNTER_WORDS], j: usize)
    requires { j < most_fields }
    ensures { Copied counter.now j copy.old counts_words copy.new }
{
    for q in 0..COUNTS_WORDS {
        copy[j * COUNTS_WORDS + q] = counter[j * COUNTS_WORDS + q];
    }
}

// Makes the copy equal to the counts again, where it differs towards the fields of `spent` only.
pub fn recover(copy: &mut [u32; COUNTER_WORDS], counter: &[u32; COUNTER_WORDS], spent: u32)
    requires { (spent < 2 ^ most_fields) × OnlySpent spent counter.now copy.old }
    ensures { copy.new ≡ counter.now }
{
    for j in positions(spent) {
        copy_towards(copy, counter, j);
    }
}
