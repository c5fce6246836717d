// The network of a sheet.
ghost use Rattle.std.specs.Prelude.{◌≤◌, length};
ghost use Rattle.limits.specs.Limits.{rows_words};
ghost use Rattle.sheet.specs.Sources.{Accepted};
ghost use Rattle.network.specs.Tables.{forward_of, turned_of};
ghost use Rattle.network.specs.Network.{NetworkOf};

use super::fill::fill;
use super::hoods::neighbourhoods;
use super::links::link;
use accepted::parts::AcceptedSheet;
use limits::FIELDS;

// Beside the tables: the number of fields, the reach, for each field the fields that a rule joins to it, and its neighbourhood; how many
// triple rules there are.
#[derive(Clone, Copy)]
pub struct Network {
    pub fields: usize,
    pub reach: u32,
    pub joined: [u32; FIELDS],
    pub hood: [u32; FIELDS],
    pub triples: usize,
}

// Fills the two tables of rows from an accepted list of numbers: the forward one at the front of `rows`, the turned one after it.
pub fn build(numbers: &[u32], rows: &mut [u32]) -> Network
    requires { Accepted numbers.now × (rows_words ≤ length rows.old) }
    ensures { NetworkOf numbers.now result (forward_of rows.new) (turned_of rows.new) }
{
    let sheet = AcceptedSheet { numbers };
    let n = sheet.fields();
    let reach = sheet.reach();
    let from = sheet.triples();
    let joined = fill(sheet, rows);
    let links = link(from, &joined);
    let hood = neighbourhoods(n, &links, reach);
    Network {
        fields: n,
        reach,
        joined,
        hood,
        triples: from.count,
    }
}
