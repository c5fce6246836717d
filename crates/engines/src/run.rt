// An engine by its number, on a network that is built: a network may be built once, and engines run on it many times.
ghost use Rattle.std.specs.Prelude.{◌≤◌, length};
ghost use Rattle.limits.specs.Limits.{memory_words};
ghost use Rattle.limits.specs.Refusals.{is_wiped};
ghost use Rattle.network.specs.Network.{problem, hoods};
ghost use Rattle.engines.specs.Engine.{Engine};
ghost use Rattle.engines.specs.EngineAsks.{RunAsks};

use super::queue::queued;
use super::sac::sac;
use closing::ac4::Ac4;
use limits::refusals::WipedOut;
use limits::{FIELDS, engine};
use network::tables::Tables;

// The engine asked for. Where the set is not wiped out, m becomes its offers under the mask of selected fields. The memory may hold
// anything before and after.
pub fn run<'a>(
    m: &mut [u32; FIELDS],
    memory: &mut [u32],
    engine: u32,
    order: &[u8],
    selected: u32,
    tables: &Tables<'a>,
) -> Result<(), WipedOut>
    requires run_asks { RunAsks tables.now order.now selected m.old }
    requires memory_words_in_bounds { memory_words ≤ length memory.old }
    ensures { Engine (problem tables.now) (hoods tables.now) selected m.old (is_wiped result) m.new }
{
    let mut ac4 = Ac4::new();
    // Any other number is taken for the first engine: the calls refuse it before.
    match engine::Engine::try_from(engine) {
        Ok(engine::Engine::Sac2) => sac(m, memory, true, order, selected, &mut ac4, tables),
        Ok(engine::Engine::Queue) => queued(m, memory, order, selected, &mut ac4, tables),
        Ok(engine::Engine::Sac1) | Err(_) => {
            sac(m, memory, false, order, selected, &mut ac4, tables)
        }
    }
}
