// The selected fields: the offers under several masks, masks that 18 refuses, and the calls that leave the mask as it is.
use super::run::on_sheet;
use super::script::play;
use ledger::Call;
use session::fresh;
use std::io;

// Fields {1, 2, 3}, {1, 2, 3}, {1, 2}, {1, 2} at reach 1, of which all pairs but the first two differ. Closing keeps every setting; the
// tests of field 0 leave it 3 alone, those of field 1 leave it 3 alone, those of fields 2 and 3 leave all.
const DIFFER: &[u8] = b"\x04\x03\x01\x02\x03\x03\x01\x02\x03\x02\x01\x02\x02\x01\x02\x01\
\x05\x00\x02\x03\x01\x00\x03\x03\x01\x01\x02\x03\x01\x01\x03\x03\x01\x02\x03\x03\x01";

fn differ(rt: &impl Print, selected: u32, engine: u32) -> io::Result<()> {
    print!(rt; "selected {selected}, engine {engine}")?;
    on_sheet(
        rt,
        Call::Open(selected),
        fresh(),
        DIFFER,
        engine,
        b"\x00\x01\x02\x03",
    )?;
    Ok(())
}

pub fn cases(rt: &impl Print) -> io::Result<()> {
    println!(rt; "-- selected fields")?;
    for selected in [1, 2, 3, 12, 15] {
        for engine in [1, 2, 3] {
            differ(rt, selected, engine)?;
        }
    }
    println!(rt; "-- 18, before 7: no field, fields beyond sheet D")?;
    play(rt, fresh(), 0, b"o.0 o.4 o.7 o.3 ")?;
    println!(rt; "-- the mask stays until an open that is not refused")?;
    play(
        rt,
        fresh(),
        1,
        b"o.1 s02 n.. s12 b.. h.. o.4 o.2 c00 c01 o.0 ",
    )
}
