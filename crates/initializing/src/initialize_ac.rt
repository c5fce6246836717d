// initializeAC of Figure 2: the support sets and the counts are made, and what has no support is listed. The names of the figure: d is D,
// counter is Counter, support is S, list is listAC. A setting is marked in M where it was in D once and is not now.
ghost use Rattle.std.specs.Prelude.{◌≡◌, ◌^◌, ◌≤◌, ◌<◌};
ghost use Rattle.limits.specs.Limits.{most_fields, most_settings};
ghost use Rattle.limits.specs.Refusals.{is_wiped, fields_in};
ghost use Rattle.network.specs.Network.{rules, WiredTables};
ghost use Rattle.initializing.specs.Count.{CountsMade};
ghost use Rattle.initializing.specs.Initialize.{InitializeAsks, Initialized};

use super::record::record;
use counter::{Counter, raise, uncounted};
use limits::refusals::WipedOut;
use limits::{COUNTER_WORDS, FIELDS, SETTINGS, SUPPORT_WORDS};
use masks::positions::positions;
use network::tables::Tables;
use pruning::drop::drop;
use pruning::support_set::support_set;
use removal_list::RemovalList;

// Lines 3, 4, 6 and 12 for all arcs (i, j) and all a at once, where own is D_j: the counts towards j, which are 0 before.
fn count_towards(
    counter: &mut [u32; COUNTER_WORDS],
    support: &[u32; SUPPORT_WORDS],
    j: usize,
    own: u32,
    wide: usize,
)
    requires { (j < most_fields) × (own < 2 ^ most_settings) × (wide ≤ most_fields) }
    ensures { CountsMade support.now j own wide counter.old 0 counter.new }
{
    for b in positions(own) {
        let s = support_set(support, j * SETTINGS + b);
        raise(counter, j, &s, wide);
    }
}

// Line 1 takes the arcs (i, j) by their field j. The fields that lost settings.
pub fn initialize_ac<'a>(
    d: &mut [u32; FIELDS],
    counter: &mut Counter,
    support: &mut [u32; SUPPORT_WORDS],
    list: &mut RemovalList,
    tables: &Tables<'a>,
) -> Result<u32, WipedOut>
    requires { WiredTables tables.now
        × InitializeAsks (rules tables.now) d.old list.old.places support.old counter.old.counts }
    ensures { Initialized (rules tables.now) d.old list.old.places (is_wiped result) (fields_in result)
        d.new list.new.places list.new.tail support.new counter.new.counts
        × (counter.new.spent ≡ counter.old.spent) }
{
    let n = tables.network.fields;
    let mut changed: u32 = 0;
    list.tail = 0;
    // 1, 2
    for j in 0..n {
        let near = tables.network.joined[j];
        // 4, 5, 7
        record(support, j, near, d, tables);
        // 3, 4, 6, 12
        count_towards(&mut counter.counts, support, j, d[j], n);
        // 8 to 11
        let none = uncounted(&counter.counts, j, d, n);
        changed |= drop(d, &none, near, list)?;
    }
    Ok(changed)
}
