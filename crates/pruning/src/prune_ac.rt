// pruneAC of Figure 2: the removal list is emptied. The names of the figure: d is D, counter is Counter, support is S, list is listAC. A
// setting is marked in M where it was in D once and is not now.
ghost use Rattle.std.specs.Prelude.{◌≤◌, ◌<◌};
ghost use Rattle.limits.specs.Limits.{most_fields, list_places};
ghost use Rattle.limits.specs.Refusals.{is_wiped, fields_in};
ghost use Rattle.network.specs.Network.{rules, WiredTables};
ghost use Rattle.pruning.specs.Prune.{PruneAsks, Pruned, Spends};
ghost use Rattle.pruning.specs.PruneTurn.{SetLowered, EnoughLowered};

use super::drop::{drop, meet};
use super::support_set::support_set;
use counter::{Counter, lower};
use limits::refusals::WipedOut;
use limits::{COUNTER_WORDS, FIELDS, SETTINGS, SUPPORT_WORDS};
use masks::one_bit;
use network::tables::Tables;
use removal_list::RemovalList;

// Lines 3 and 4 for the (i, a) of S_jb in the first `wide` fields, all at once. `none` becomes those whose count is 0 then. Whether some of
// them are in the set.
fn lower_set(
    d: &[u32; FIELDS],
    none: &mut [u32; FIELDS],
    counter: &mut [u32; COUNTER_WORDS],
    support: &[u32; SUPPORT_WORDS],
    x: usize,
    j: usize,
    wide: usize,
) -> bool
    requires { (x < list_places) × (j < most_fields) × (wide ≤ most_fields) }
    ensures { SetLowered d.now counter.old support.now x j wide result none.new
        counter.new }
{
    let s = support_set(support, x);
    let zero = lower(counter, j, &s, wide);
    *none = zero;
    meet(d, &zero, wide)
}

// The same for n fields: a small sheet has none past the first 8 or 12.
#[tactic(auto, using(crate::specs::PruneTurn::enough_lowered))]
fn lower_fields(
    d: &[u32; FIELDS],
    none: &mut [u32; FIELDS],
    counter: &mut [u32; COUNTER_WORDS],
    support: &[u32; SUPPORT_WORDS],
    x: usize,
    j: usize,
    n: usize,
) -> bool
    requires { (x < list_places) × (j < most_fields) × (n ≤ most_fields) }
    ensures { EnoughLowered d.now counter.old support.now x j n result none.new
        counter.new }
{
    if n <= 8 {
        return lower_set(d, none, counter, support, x, j, 8);
    }
    if n <= 12 {
        return lower_set(d, none, counter, support, x, j, 12);
    }
    lower_set(d, none, counter, support, x, j, FIELDS)
}

// The settings of the list before `start` were taken before. It drops settings of the fields of `within` only, and ends where one of them
// has nothing left. The fields that lost settings.
pub fn prune_ac<'a>(
    d: &mut [u32; FIELDS],
    within: u32,
    counter: &mut Counter,
    support: &[u32; SUPPORT_WORDS],
    list: &mut RemovalList,
    start: usize,
    tables: &Tables<'a>,
) -> Result<u32, WipedOut>
    requires { WiredTables tables.now
        × PruneAsks (rules tables.now) within support.now start d.old list.old.places list.old.tail counter.old.counts }
    ensures { Spends counter.old.spent counter.new.spent (λ spent. Pruned (rules tables.now) within support.now
        d.old list.old.places list.old.tail counter.old.counts (is_wiped result) (fields_in result) spent
        d.new list.new.places list.new.tail counter.new.counts) }
{
    let n = tables.network.fields;
    let mut changed: u32 = 0;
    let mut head = start;
    let mut none = [0u32; FIELDS];
    // 1
    while head < list.tail {
        // 2: (j, b), which entered first of those that wait
        let x = list.places[head] as usize;
        head += 1;
        let j = x / SETTINGS;
        counter.spent |= one_bit(j);
        // 3, 4: for all (i, a) of S_jb at once; whether 5 holds of some
        if lower_fields(d, &mut none, &mut counter.counts, support, x, j, n) {
            // 5 to 8
            changed |= drop(d, &none, tables.network.joined[j] & within, list)?;
        }
    }
    Ok(changed)
}
