// The test of a setting, and the removal of one that failed: settings leave a set and enter the removal list, and it is emptied.
ghost use Rattle.std.specs.Prelude.{◌≡◌, true, false};
ghost use Rattle.limits.specs.Refusals.{is_wiped, fields_in};
ghost use Rattle.masks.specs.Bits.{bit, Within};
ghost use Rattle.masks.specs.Sets.{has};
ghost use Rattle.consistency.specs.Problem.{all_fields};
ghost use Rattle.network.specs.Network.{problem};
ghost use Rattle.closing.specs.Frame.{Tested, Removed};
ghost use Rattle.closing.specs.Asks.{LiveAsks, Counted, Kept, Lists};

use super::ac4::Ac4;
use super::recover::recover;
use limits::FIELDS;
use limits::refusals::WipedOut;
use masks::{Domains, first_positions, one_bit};
use network::tables::Tables;
use removal_list::move_out;
use revising::narrow::narrow;

// Tests position v of field f over the fields of `within`, on the copy of the counts and starting from the settings of f that are cut off.
// t is the set; where the setting passes, t becomes what the test left.
pub fn test<'a>(
    t: &mut [u32; FIELDS],
    f: usize,
    v: usize,
    within: u32,
    ac4: &mut Ac4,
    tables: &Tables<'a>,
) -> bool
    requires live_asks { LiveAsks tables.now t.old × (has t.old f v ≡ true)
        × Within within (all_fields (problem tables.now)) × (bit within f ≡ true) }
    requires counted { Counted (problem tables.now) ac4.old t.old }
    ensures tested { Tested (problem tables.now) within t.old f v result t.new }
    ensures counted { Counted (problem tables.now) ac4.new t.old }
    ensures kept { Kept ac4.old ac4.new }
    ensures lists { Lists t.old ac4.old.list.places t.new ac4.new.list.places }
{
    let masks = *t;
    let set = Domains { masks };
    let cut = set.cut(f, v);
    let off = t[f] ^ cut.masks[f];
    ac4.list.tail = 0;
    move_out(t, f, off, &mut ac4.list);
    let passes = narrow(
        t,
        within,
        one_bit(f),
        &mut ac4.copy,
        &ac4.support,
        &mut ac4.list,
        tables,
    )
    .is_ok();
    recover(&mut ac4.copy.counts, &ac4.counter.counts, ac4.copy.spent);
    ac4.copy.spent = 0;
    passes
}

// Takes position v of field f from the set and closes it over every field again, with the counts. The fields that lost settings.
pub fn remove<'a>(
    m: &mut [u32; FIELDS],
    f: usize,
    v: usize,
    ac4: &mut Ac4,
    tables: &Tables<'a>,
) -> Result<u32, WipedOut>
    requires live_asks { LiveAsks tables.now m.old × (has m.old f v ≡ true) }
    requires counted { Counted (problem tables.now) ac4.old m.old }
    ensures removed { Removed (problem tables.now) m.old f v (is_wiped result) (fields_in result) m.new }
    ensures counted { is_wiped result ≡ false → Counted (problem tables.now) ac4.new m.new }
    ensures support { ac4.new.support ≡ ac4.old.support }
    ensures lists { Lists m.old ac4.old.list.places m.new ac4.new.list.places }
{
    let masks = *m;
    let set = Domains { masks };
    let left = set.lose(f, v);
    if left.is_empty(f) {
        return Err(WipedOut);
    }
    let off = m[f] ^ left.masks[f];
    ac4.list.tail = 0;
    move_out(m, f, off, &mut ac4.list);
    let own = one_bit(f);
    let all = first_positions(tables.network.fields);
    let more = narrow(
        m,
        all,
        own,
        &mut ac4.counter,
        &ac4.support,
        &mut ac4.list,
        tables,
    )?;
    recover(&mut ac4.copy.counts, &ac4.counter.counts, ac4.counter.spent);
    ac4.counter.spent = 0;
    Ok(own | more)
}
