// Closing at the start of an engine: the support sets and counts are made, and the removal list is emptied (lines 7 and 8 of SAC_2 in
// Figure 2).
ghost use Rattle.std.specs.Prelude.{◌≡◌, false};
ghost use Rattle.limits.specs.Refusals.{is_wiped, fields_in};
ghost use Rattle.consistency.specs.Problem.{all_fields};
ghost use Rattle.network.specs.Network.{problem};
ghost use Rattle.pruning.specs.Close.{Closes};
ghost use Rattle.closing.specs.Asks.{CloseAsks, Counted, Lists};

use super::ac4::Ac4;
use initializing::initialize_ac::initialize_ac;
use limits::FIELDS;
use limits::refusals::WipedOut;
use masks::first_positions;
use network::tables::Tables;
use revising::narrow::narrow;

// Closes m over every field. There are no support sets and no counts before; those that it leaves serve the tests and removals after it.
// The fields that lost settings.
pub fn close<'a>(m: &mut [u32; FIELDS], ac4: &mut Ac4, tables: &Tables<'a>) -> Result<u32, WipedOut>
    requires { CloseAsks tables.now m.old ac4.old }
    ensures closes { Closes (problem tables.now) (all_fields (problem tables.now)) m.old (is_wiped result) (fields_in result) m.new }
    ensures counted { is_wiped result ≡ false → Counted (problem tables.now) ac4.new m.new }
    ensures lists { Lists m.old ac4.old.list.places m.new ac4.new.list.places }
{
    let made = initialize_ac(m, &mut ac4.counter, &mut ac4.support, &mut ac4.list, tables)?;
    let all = first_positions(tables.network.fields);
    let more = narrow(
        m,
        all,
        all,
        &mut ac4.counter,
        &ac4.support,
        &mut ac4.list,
        tables,
    )?;
    ac4.counter.spent = 0;
    ac4.copy = ac4.counter;
    Ok(made | more)
}
