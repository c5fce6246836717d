// The offers under what a session holds, found and written. The network is built and the table of the triple rules made already, so a
// caller may settle many times.
ghost use Rattle.std.specs.Prelude.{◌≡◌, ◌++◌, ◌≤◌, length, take, drop};
ghost use Rattle.limits.specs.Limits.{most_fields, offers_words};
ghost use Rattle.limits.specs.Refusals.{is_wiped};
ghost use Rattle.session.specs.View.{view};
ghost use Rattle.answering.specs.Settle.{SettleAsks, SettledOn};

use accepted::outline::Outline;
use engines::run::run;
use limits::FIELDS;
use limits::refusals::WipedOut;
use network::build::Network;
use network::rows;
use network::tables::Tables;
use session::Session;
use session::start::start;

// Writes the first n masks over the front of the offers list.
fn put(offers: &mut [u32], masks: [u32; FIELDS], n: usize)
    requires { (n ≤ most_fields) × (offers_words ≤ length offers.old) }
    ensures { offers.new ≡ take n masks ++ drop n offers.old }
{
    offers[..n].copy_from_slice(&masks[..n]);
}

// Writes the offers under what the session holds, where no field of them is empty.
pub fn settle(
    session: Session,
    outline: Outline,
    net: &Network,
    engine: u32,
    order: &[u8],
    offers: &mut [u32],
    tables: &[u32],
    memory: &mut [u32],
    triples: &[u32],
) -> Result<(), WipedOut>
    requires { SettleAsks outline net.now order.now session.selected offers.old tables.now memory.old triples.now }
    ensures { SettledOn outline net.now tables.now triples.now (view session) offers.old (is_wiped result) offers.new }
{
    let mut m = start(outline, session.decisions);
    let lent = Tables {
        network: net,
        forward: rows::forward(tables),
        turned: rows::turned(tables),
        triples,
    };
    run(&mut m, memory, engine, order, session.selected, &lent)?;
    put(offers, m, outline.fields);
    Ok(())
}
