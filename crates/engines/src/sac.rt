// The start that the engines share, and engines 1 and 2, SAC-1 and SAC-2: passes over the selected fields until one changes nothing. SAC-2
// remembers what passed tests left in their neighbourhoods, and tests a setting again only where the set lost some of it.
ghost use Rattle.std.specs.Prelude.{◌≡◌, false, ◌≤◌, ◌<◌, length, get_or};
ghost use Rattle.limits.specs.Limits.{most_fields, memory_words};
ghost use Rattle.limits.specs.Refusals.{is_wiped, fields_in};
ghost use Rattle.network.specs.Network.{problem, hoods};
ghost use Rattle.closing.specs.Asks.{LiveAsks, Blank, Counted};
ghost use Rattle.visiting.specs.Store.{Store};
ghost use Rattle.engines.specs.Engine.{Begun, Engine};
ghost use Rattle.engines.specs.EngineAsks.{StartAsks, Lent, RunAsks};
ghost use Rattle.engines.specs.Pass.{Passed};

use closing::ac4::Ac4;
use closing::close::close;
use limits::FIELDS;
use limits::refusals::WipedOut;
use masks::{Domains, has_bit};
use network::tables::Tables;
use visiting::visit::visit;

// How every engine starts: where no field is empty, it closes over every field.
pub fn begin<'a>(m: &mut [u32; FIELDS], ac4: &mut Ac4, tables: &Tables<'a>) -> Result<(), WipedOut>
    requires start_asks { StartAsks tables.now m.old }
    requires blank { Blank ac4.old }
    ensures begun { Begun (problem tables.now) m.old (is_wiped result) m.new }
    ensures counted { is_wiped result ≡ false → Counted (problem tables.now) ac4.new m.new }
{
    let masks = *m;
    let set = Domains { masks };
    if set.some_empty(tables.network.fields) {
        return Err(WipedOut);
    }
    close(m, ac4, tables)?;
    Ok(())
}

// The field at a place of the order.
pub fn field_at(order: &[u8], q: usize) -> usize
    requires { (q < length order.now) × (get_or order.now q 0 < most_fields) }
    ensures { (result ≡ get_or order.now q 0) × (result < most_fields) }
{
    order[q] as usize
}

// One pass over the selected fields, in the lent order. The fields that lost settings.
fn pass<'a>(
    m: &mut [u32; FIELDS],
    known: &mut [u32; FIELDS],
    memory: &mut [u32],
    remembers: bool,
    order: &[u8],
    selected: u32,
    ac4: &mut Ac4,
    tables: &Tables<'a>,
) -> Result<u32, WipedOut>
    requires live_asks { LiveAsks tables.now m.old × Store (problem tables.now) (hoods tables.now) m.old known.old memory.old }
    requires lent { Lent tables.now order.now selected }
    requires counted { Counted (problem tables.now) ac4.old m.old }
    ensures passed { Passed (problem tables.now) order.now (hoods tables.now) selected m.old (is_wiped result) (fields_in result) m.new }
    ensures store { is_wiped result ≡ false → Store (problem tables.now) (hoods tables.now) m.new known.new memory.new }
    ensures counted { is_wiped result ≡ false → Counted (problem tables.now) ac4.new m.new }
    ensures support { ac4.new.support ≡ ac4.old.support }
{
    let mut touched: u32 = 0;
    for q in 0..tables.network.fields {
        let f = field_at(order, q);
        if has_bit(selected, f) {
            touched |= visit(m, known, memory, remembers, f, ac4, tables)?;
        }
    }
    Ok(touched)
}

// Engine 1, and with `remembers` engine 2. Where the set is not wiped out, m becomes its offers.
pub fn sac<'a>(
    m: &mut [u32; FIELDS],
    memory: &mut [u32],
    remembers: bool,
    order: &[u8],
    selected: u32,
    ac4: &mut Ac4,
    tables: &Tables<'a>,
) -> Result<(), WipedOut>
    requires run_asks { RunAsks tables.now order.now selected m.old }
    requires memory_words_in_bounds { memory_words ≤ length memory.old }
    requires blank { Blank ac4.old }
    ensures { Engine (problem tables.now) (hoods tables.now) selected m.old (is_wiped result) m.new }
{
    begin(m, ac4, tables)?;
    let mut known = [0u32; FIELDS];
    loop {
        let touched = pass(
            m, &mut known, memory, remembers, order, selected, ac4, tables,
        )?;
        let same = touched == 0;
        if same {
            return Ok(());
        }
    }
}
