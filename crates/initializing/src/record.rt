// The support sets are made: S_jb of Figure 2, by words as `support_set` in crate `pruning` reads them.
ghost use Rattle.std.specs.Prelude.{◌≡◌, false, ◌^◌, ◌≤◌, ◌<◌, length};
ghost use Rattle.limits.specs.Limits.{most_fields, most_settings, table_words};
ghost use Rattle.masks.specs.Bits.{bit};
ghost use Rattle.network.specs.Tables.{rows_of};
ghost use Rattle.initializing.specs.Record.{Floods, RecordedArc, RecordedArcs};

use limits::{FIELDS, SETTINGS, SUPPORT_WORDS};
use masks::flood;
use masks::positions::positions;
use network::rows::row;
use network::tables::Tables;

// The floods of the positions of own.
fn floods(own: u32) -> [u32; SETTINGS]
    ensures { Floods own most_settings result }
{
    let mut masks = [0u32; SETTINGS];
    for b in 0..SETTINGS {
        masks[b] = flood(own, b);
    }
    masks
}

// Lines 4, 5 and 7 of initializeAC for the arc (i, j), for all a of D_i at once: S_jb gets those of them that the rule allows beside b, for
// each b of D_j. `masks` are the floods of D_j, and di is D_i.
fn record_arc<'a>(
    support: &mut [u32; SUPPORT_WORDS],
    j: usize,
    i: usize,
    masks: &[u32; SETTINGS],
    di: u32,
    tables: &Tables<'a>,
)
    requires { (j < most_fields) × (i < most_fields) × (j ≡ i → ⊥)
        × (table_words ≤ length tables.now.forward.now) × (table_words ≤ length tables.now.turned.now) }
    ensures { RecordedArc (rows_of tables.now.forward.now tables.now.turned.now j i) j i masks.now di
        support.old most_settings support.new }
{
    let rows = row(tables.forward, tables.turned, j, i);
    for b in 0..SETTINGS {
        support[(j * SETTINGS + b) * FIELDS + i] = rows[b] & masks[b] & di;
    }
}

// The same for all arcs (i, j), where near has the fields i that a rule joins to j.
pub fn record<'a>(
    support: &mut [u32; SUPPORT_WORDS],
    j: usize,
    near: u32,
    d: &[u32; FIELDS],
    tables: &Tables<'a>,
)
    requires { (j < most_fields) × (near < 2 ^ most_fields) × (bit near j ≡ false)
        × (table_words ≤ length tables.now.forward.now) × (table_words ≤ length tables.now.turned.now) }
    ensures { RecordedArcs (λ i. rows_of tables.now.forward.now tables.now.turned.now j i) j near d.now
        support.old 0 support.new }
{
    let masks = floods(d[j]);
    for i in positions(near) {
        record_arc(support, j, i, &masks, d[i], tables);
    }
}
