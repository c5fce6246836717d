// The table of a sheet's triple rules is made, and the offers found and written. It is on the stack, and a sheet without triple rules has
// none but its front: 74,308 bytes would be set to 0 for nothing.
ghost use Rattle.std.specs.Prelude.{◌≡◌, ◌+◌, ◌*◌, ◌≤◌, take};
ghost use Rattle.limits.specs.Limits.{triples_front, triple_words, triples_words};
ghost use Rattle.limits.specs.Refusals.{is_wiped};
ghost use Rattle.session.specs.View.{view};
ghost use Rattle.answering.specs.Settle.{SheetAsks, Settled};

use super::settle::settle;
use accepted::outline::Outline;
use limits::refusals::WipedOut;
use limits::{TRIPLES_FRONT, TRIPLES_WORDS};
use network::build::Network;
use network::triples::fill_triples;
use session::Session;

// With a table of WORDS words. The sheet's numbers are the first `count` words of the memory.
fn settle_with<const WORDS: usize>(
    session: Session,
    outline: Outline,
    net: &Network,
    count: usize,
    engine: u32,
    order: &[u8],
    offers: &mut [u32],
    tables: &[u32],
    memory: &mut [u32],
) -> Result<(), WipedOut>
    requires { SheetAsks outline net.now count order.now session.selected offers.old tables.now memory.old
        × (triples_front + net.now.triples * triple_words ≤ WORDS) × (WORDS ≤ triples_words) }
    ensures { Settled (take count memory.old) (view session) offers.old (is_wiped result) offers.new }
{
    let mut triples = [0u32; WORDS];
    fill_triples(&memory[..count], &outline.full, &mut triples);
    settle(
        session, outline, net, engine, order, offers, tables, memory, &triples,
    )
}

// Writes the offers under what the session holds, where no field of them is empty.
pub fn settle_sheet(
    session: Session,
    outline: Outline,
    net: &Network,
    count: usize,
    engine: u32,
    order: &[u8],
    offers: &mut [u32],
    tables: &[u32],
    memory: &mut [u32],
) -> Result<(), WipedOut>
    requires { SheetAsks outline net.now count order.now session.selected offers.old tables.now memory.old }
    ensures { Settled (take count memory.old) (view session) offers.old (is_wiped result) offers.new }
{
    if net.triples == 0 {
        settle_with::<TRIPLES_FRONT>(
            session, outline, net, count, engine, order, offers, tables, memory,
        )
    } else {
        settle_with::<TRIPLES_WORDS>(
            session, outline, net, count, engine, order, offers, tables, memory,
        )
    }
}
