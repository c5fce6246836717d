// Closing by the rules over two fields and by the triple rules: the removal list is emptied, then the set is revised under each triple rule
// that waits, and the list emptied again, until no triple rule waits.
ghost use Rattle.std.specs.Prelude.{◌<◌};
ghost use Rattle.limits.specs.Refusals.{is_wiped, fields_in};
ghost use Rattle.masks.specs.Bits.{Within};
ghost use Rattle.consistency.specs.Problem.{all_fields};
ghost use Rattle.network.specs.Network.{problem, rules, WiredTables, Tripled};
ghost use Rattle.network.specs.TripleTable.{triple_count};
ghost use Rattle.pruning.specs.Prune.{PruneAsks, Pruned, Spends};
ghost use Rattle.revising.specs.Table.{FieldsBelow};
ghost use Rattle.revising.specs.Turn.{Emptied, Turned, lost_in, changed_in};
ghost use Rattle.revising.specs.Narrow.{Waiting, ClosedElse};

use super::revise::revise;
use super::table::touched;
use counter::Counter;
use limits::refusals::WipedOut;
use limits::{FIELDS, SUPPORT_WORDS};
use masks::{clear_bit, lowest_bit};
use network::tables::Tables;
use pruning::drop::drop;
use pruning::prune_ac::prune_ac;
use removal_list::RemovalList;

// What a turn left: the fields that the revision took settings from, and those that lost some after it.
#[derive(Clone, Copy)]
pub struct AfterTurn {
    pub lost: u32,
    pub changed: u32,
}

// The set is revised under triple rule t, what it loses enters the list, and the list is emptied.
fn turn<'a>(
    d: &mut [u32; FIELDS],
    within: u32,
    counter: &mut Counter,
    support: &[u32; SUPPORT_WORDS],
    list: &mut RemovalList,
    t: usize,
    tables: &Tables<'a>,
) -> Result<AfterTurn, WipedOut>
    requires { WiredTables tables.now × Tripled tables.now × (t < triple_count tables.now.triples.now)
        × Within within (all_fields (problem tables.now))
        × Emptied (problem tables.now) within support.now d.old list.old.places list.old.tail counter.old.counts }
    ensures { Spends counter.old.spent counter.new.spent (λ spent. Turned (problem tables.now) within support.now
        t d.old list.old.places list.old.tail counter.old.counts (is_wiped result) (lost_in result) (changed_in result) spent
        d.new list.new.places list.new.tail counter.new.counts) }
{
    let mut none = [0u32; FIELDS];
    let start = list.tail;
    let near = revise(
        d,
        &mut none,
        tables.network.fields,
        within,
        tables.triples,
        t,
    );
    let lost = drop(d, &none, near, list)?;
    let changed = prune_ac(d, within, counter, support, list, start, tables)?;
    Ok(AfterTurn { lost, changed })
}

// The set is revised under the triple rules of `pending` and under those with a field that loses settings, until none waits; the list is
// empty before and after.
fn revise_all<'a>(
    d: &mut [u32; FIELDS],
    within: u32,
    pending: u32,
    counter: &mut Counter,
    support: &[u32; SUPPORT_WORDS],
    list: &mut RemovalList,
    tables: &Tables<'a>,
) -> Result<u32, WipedOut>
    requires { WiredTables tables.now × Tripled tables.now
        × Within within (all_fields (problem tables.now))
        × Emptied (problem tables.now) within support.now d.old list.old.places list.old.tail counter.old.counts
        × Waiting (problem tables.now) within pending d.old }
    ensures { Spends counter.old.spent counter.new.spent (λ spent. Pruned (problem tables.now) within support.now
        d.old list.old.places list.old.tail counter.old.counts (is_wiped result) (fields_in result) spent
        d.new list.new.places list.new.tail counter.new.counts) }
{
    let n = tables.network.fields;
    let mut changed: u32 = 0;
    let mut waits = pending;
    while waits != 0 {
        let t = lowest_bit(waits);
        let r = turn(d, within, counter, support, list, t, tables)?;
        changed |= r.lost | r.changed;
        let again = touched(tables.triples, n, r.lost);
        let more = touched(tables.triples, n, r.changed);
        waits = clear_bit(waits | again, t) | more;
    }
    Ok(changed)
}

// Closes over the fields of `within`. The settings on the list are those that left the set since it was closed, and the set is closed under
// every triple rule without a field of `fields`. The fields that lost settings. It ends where a field of `within` has nothing left.
pub fn narrow<'a>(
    d: &mut [u32; FIELDS],
    within: u32,
    fields: u32,
    counter: &mut Counter,
    support: &[u32; SUPPORT_WORDS],
    list: &mut RemovalList,
    tables: &Tables<'a>,
) -> Result<u32, WipedOut>
    requires { WiredTables tables.now × Tripled tables.now × FieldsBelow tables.now.network.now.fields fields
        × Within within (all_fields (problem tables.now))
        × PruneAsks (rules tables.now) within support.now 0 d.old list.old.places list.old.tail counter.old.counts
        × ClosedElse (problem tables.now) within fields d.old }
    ensures { Spends counter.old.spent counter.new.spent (λ spent. Pruned (problem tables.now) within support.now
        d.old list.old.places list.old.tail counter.old.counts (is_wiped result) (fields_in result) spent
        d.new list.new.places list.new.tail counter.new.counts) }
{
    let changed = prune_ac(d, within, counter, support, list, 0, tables)?;
    let pending = touched(tables.triples, tables.network.fields, fields | changed);
    if pending == 0 {
        return Ok(changed);
    }
    let more = revise_all(d, within, pending, counter, support, list, tables)?;
    Ok(changed | more)
}
