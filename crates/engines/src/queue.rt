// Engine 3, the queue method: only the fields on a queue are visited, all of them selected, and a removal puts selected fields back.
ghost use Rattle.std.specs.Prelude.{◌≡◌, false, ◌≤◌, length};
ghost use Rattle.limits.specs.Limits.{memory_words};
ghost use Rattle.limits.specs.Refusals.{is_wiped, fields_in};
ghost use Rattle.masks.specs.Bits.{Within};
ghost use Rattle.network.specs.Network.{problem, hoods};
ghost use Rattle.closing.specs.Asks.{LiveAsks, Blank, Counted};
ghost use Rattle.visiting.specs.Store.{Store};
ghost use Rattle.engines.specs.Engine.{Engine};
ghost use Rattle.engines.specs.EngineAsks.{Lent, RunAsks};
ghost use Rattle.engines.specs.PutBack.{BackAsks, put_back};
ghost use Rattle.engines.specs.Queue.{Rounded};

use super::sac::{begin, field_at};
use closing::ac4::Ac4;
use limits::refusals::WipedOut;
use limits::{FIELDS, WHOLE_REACH};
use masks::positions::positions;
use masks::{clear_bit, has_bit};
use network::build::Network;
use network::tables::Tables;
use visiting::visit::visit;

// The queue after the fields of `changed` lost settings: at the whole reach every selected field is put back, otherwise the selected ones
// of the other fields of each changed field's neighbourhood.
#[tactic(auto, using(crate::specs::PutBack::back_all))]
fn put_back(queue: u32, changed: u32, selected: u32, net: &Network) -> u32
    requires { BackAsks net.now.fields net.now.hood selected queue changed }
    ensures { result ≡ put_back net.now.fields net.now.reach net.now.hood selected queue changed }
{
    if changed == 0 {
        return queue;
    }
    if WHOLE_REACH <= net.reach {
        return selected;
    }
    let mut r = queue;
    for f in positions(changed) {
        r |= clear_bit(net.hood[f], f);
    }
    r & selected
}

// One round: the fields on the queue are visited in the lent order. The fields that wait after it.
fn round<'a>(
    m: &mut [u32; FIELDS],
    known: &mut [u32; FIELDS],
    memory: &mut [u32],
    waiting: u32,
    order: &[u8],
    selected: u32,
    ac4: &mut Ac4,
    tables: &Tables<'a>,
) -> Result<u32, WipedOut>
    requires live_asks { LiveAsks tables.now m.old × Store (problem tables.now) (hoods tables.now) m.old known.old memory.old }
    requires lent { Lent tables.now order.now selected × Within waiting selected }
    requires counted { Counted (problem tables.now) ac4.old m.old }
    ensures rounded { Rounded (problem tables.now) order.now (hoods tables.now) selected m.old waiting (is_wiped result)
        (fields_in result) m.new }
    ensures store { is_wiped result ≡ false → Store (problem tables.now) (hoods tables.now) m.new known.new memory.new }
    ensures counted { is_wiped result ≡ false → Counted (problem tables.now) ac4.new m.new }
    ensures support { ac4.new.support ≡ ac4.old.support }
{
    let mut queue = waiting;
    for q in 0..tables.network.fields {
        let f = field_at(order, q);
        if has_bit(queue, f) {
            let changed = visit(m, known, memory, false, f, ac4, tables)?;
            queue = put_back(clear_bit(queue, f), changed, selected, tables.network);
        }
    }
    Ok(queue)
}

// Engine 3. Where the set is not wiped out, m becomes its offers.
pub fn queued<'a>(
    m: &mut [u32; FIELDS],
    memory: &mut [u32],
    order: &[u8],
    selected: u32,
    ac4: &mut Ac4,
    tables: &Tables<'a>,
) -> Result<(), WipedOut>
    requires run_asks { RunAsks tables.now order.now selected m.old }
    requires memory_words_in_bounds { memory_words ≤ length memory.old }
    requires blank { Blank ac4.old }
    ensures { Engine (problem tables.now) (hoods tables.now) selected m.old (is_wiped result) m.new }
{
    begin(m, ac4, tables)?;
    let mut known = [0u32; FIELDS];
    let mut queue = selected;
    while queue != 0 {
        queue = round(m, &mut known, memory, queue, order, selected, ac4, tables)?;
    }
    Ok(())
}
