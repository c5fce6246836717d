// The visit of a field.
ghost use Rattle.std.specs.Prelude.{◌≡◌, false, ◌<◌, get_or};
ghost use Rattle.limits.specs.Refusals.{is_wiped, fields_in};
ghost use Rattle.network.specs.Network.{problem, hoods};
ghost use Rattle.closing.specs.Asks.{LiveAsks, Counted};
ghost use Rattle.visiting.specs.Store.{HoodAsks, Store};
ghost use Rattle.visiting.specs.Visit.{Visited};

use super::store::{CheckResult, check};
use closing::ac4::Ac4;
use closing::test::remove;
use limits::FIELDS;
use limits::refusals::WipedOut;
use masks::{clear_bit, lowest_bit};
use network::tables::Tables;

// Tests each setting of f over f's neighbourhood, and removes those that fail. The fields that lost settings.
pub fn visit<'a>(
    m: &mut [u32; FIELDS],
    known: &mut [u32; FIELDS],
    memory: &mut [u32],
    remembers: bool,
    f: usize,
    ac4: &mut Ac4,
    tables: &Tables<'a>,
) -> Result<u32, WipedOut>
    requires live_asks { LiveAsks tables.now m.old × Store (problem tables.now) (hoods tables.now) m.old known.old memory.old }
    requires f_lt_fields { (f < tables.now.network.now.fields) × HoodAsks (problem tables.now) (hoods tables.now) f }
    requires counted { Counted (problem tables.now) ac4.old m.old }
    ensures visited { Visited (problem tables.now) (get_or (hoods tables.now) f 0) f m.old (is_wiped result) (fields_in result) m.new }
    ensures store { is_wiped result ≡ false → Store (problem tables.now) (hoods tables.now) m.new known.new memory.new }
    ensures counted { is_wiped result ≡ false → Counted (problem tables.now) ac4.new m.new }
    ensures support { ac4.new.support ≡ ac4.old.support }
{
    let mut touched: u32 = 0;
    // No loop over positions: a removal takes positions from `left` too.
    let mut left = m[f];
    while left != 0 {
        let v = lowest_bit(left);
        left = clear_bit(left, v);
        let found = check(m, known, memory, remembers, f, v, ac4, tables);
        if let CheckResult::Failed = found {
            touched |= remove(m, f, v, ac4, tables)?;
            left &= m[f];
        }
    }
    Ok(touched)
}
