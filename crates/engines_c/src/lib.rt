// Finding the offers of a set, for the benchmark of the engines alone: no public call of the library, and it asks of its caller what it
// needs. A slice is a pointer and a length. Free is what the work spaces hold afterwards, and the set where it is wiped out.
#![tactic(auto)]

ghost use Rattle.std.specs.Prelude.{◌≡◌, ◌+◌, ◌*◌, ◌≤◌, take};
ghost use Rattle.limits.specs.Limits.{triples_front, triple_words, triples_words};
ghost use Rattle.consistency.specs.Neighbourhood.{neighbourhood};
ghost use Rattle.accepted.specs.Parts.{reach_of};
ghost use Rattle.network.specs.Tables.{forward_of, turned_of};
ghost use Rattle.network.specs.SheetProblem.{sheet_problem};
ghost use Rattle.network.specs.Network.{NetworkOf};
ghost use Rattle.engines.specs.Engine.{Offered};
ghost use Rattle.engines.specs.Offering.{OfferAsks};

use accepted::outline::outline_of;
use engines::run::run;
use limits::{FIELDS, TRIPLES_FRONT, TRIPLES_WORDS};
use network::build::{Network, build};
use network::rows;
use network::tables::Tables;
use network::triples::fill_triples;

// The engine on a network that is built, with a table of the triple rules that has WORDS words.
fn run_with<const WORDS: usize>(
    m: &mut [u32; FIELDS],
    engine: u32,
    order: &[u8],
    selected: u32,
    count: usize,
    net: &Network,
    rows: &[u32],
    memory: &mut [u32],
) -> bool
    requires { OfferAsks (take count memory.old) count order.now selected m.old rows.now memory.old
        × NetworkOf (take count memory.old) net.now (forward_of rows.now) (turned_of rows.now)
        × (triples_front + net.now.triples * triple_words ≤ WORDS) × (WORDS ≤ triples_words) }
    ensures { Offered (sheet_problem (take count memory.old))
        (neighbourhood (sheet_problem (take count memory.old)) (reach_of (take count memory.old))) selected
        m.old result m.new }
{
    let outline = outline_of(&memory[..count]);
    let mut triples = [0u32; WORDS];
    fill_triples(&memory[..count], &outline.full, &mut triples);
    let tables = Tables {
        network: net,
        forward: rows::forward(rows),
        turned: rows::turned(rows),
        triples: &triples,
    };
    run(m, memory, engine, order, selected, &tables).is_err()
}

// The sheet's numbers are the first `count` words of the memory. Whether the set is wiped out; if not, m becomes its offers.
#[unsafe(no_mangle)]
pub extern "C" fn engines_offers(
    m: &mut [u32; FIELDS],
    engine: u32,
    order: &[u8],
    selected: u32,
    count: usize,
    rows: &mut [u32],
    memory: &mut [u32],
) -> bool
    requires { OfferAsks (take count memory.old) count order.now selected m.old rows.old memory.old }
    ensures { Offered (sheet_problem (take count memory.old))
        (neighbourhood (sheet_problem (take count memory.old)) (reach_of (take count memory.old))) selected
        m.old result m.new }
{
    let net = build(&memory[..count], rows);
    // a sheet without triple rules has the front of their table alone
    if net.triples == 0 {
        run_with::<TRIPLES_FRONT>(m, engine, order, selected, count, &net, rows, memory)
    } else {
        run_with::<TRIPLES_WORDS>(m, engine, order, selected, count, &net, rows, memory)
    }
}
