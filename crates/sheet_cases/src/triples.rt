// Sheets with triples that are read, written and refused.
use super::report::{line, read_case, write_case};
use sheet::reading::read;
use sheet::writing::write;
use std::io;

// What follows four fields of one setting and no rules, in bytes: the count of triples, and ranges.
fn ranges_read(rt: &impl Print) -> io::Result<()> {
    let cases: [(&str, &[u8]); 9] = [
        (
            "four triples",
            b"\x04\x01\x00\x01\x00\x01\x00\x01\x00\x18\x00\x04\x00\x01\x02\x05\x00\x01\x03\x05\x00\x02\x03\x05\x01\x02\x03\x05",
        ),
        (
            "a count and no triple",
            b"\x04\x01\x00\x01\x00\x01\x00\x01\x00\x18\x00\x01",
        ),
        (
            "a triple without c",
            b"\x04\x01\x00\x01\x00\x01\x00\x01\x00\x18\x00\x01\x00\x01\x02",
        ),
        (
            "a count of 0",
            b"\x04\x01\x00\x01\x00\x01\x00\x01\x00\x18\x00\x00",
        ),
        (
            "a count of 33",
            b"\x04\x01\x00\x01\x00\x01\x00\x01\x00\x18\x00\x21",
        ),
        (
            "an ill-formed count",
            b"\x04\x01\x00\x01\x00\x01\x00\x01\x00\x18\x00\x80\x00",
        ),
        (
            "k of 4",
            b"\x04\x01\x00\x01\x00\x01\x00\x01\x00\x18\x00\x01\x00\x01\x04\x05",
        ),
        (
            "triple, c 1000000",
            b"\x04\x01\x00\x01\x00\x01\x00\x01\x00\x18\x00\x01\x00\x01\x02\xC0\x84\x3D",
        ),
        (
            "triple, c 1000001",
            b"\x04\x01\x00\x01\x00\x01\x00\x01\x00\x18\x00\x01\x00\x01\x02\xC1\x84\x3D",
        ),
    ];
    for (name, sheet) in cases {
        read_case(rt, name, sheet)?;
    }
    Ok(())
}

// The order of fields and triples, and what follows the last triple.
fn order_read(rt: &impl Print) -> io::Result<()> {
    let cases: [(&str, &[u8]); 6] = [
        (
            "triple, i = j",
            b"\x04\x01\x00\x01\x00\x01\x00\x01\x00\x18\x00\x01\x01\x01",
        ),
        (
            "triple, j = k",
            b"\x04\x01\x00\x01\x00\x01\x00\x01\x00\x18\x00\x01\x00\x01\x01",
        ),
        (
            "triples that fall, to j",
            b"\x04\x01\x00\x01\x00\x01\x00\x01\x00\x18\x00\x02\x00\x02\x03\x05\x00\x01",
        ),
        (
            "triples that fall, to k",
            b"\x04\x01\x00\x01\x00\x01\x00\x01\x00\x18\x00\x02\x00\x02\x03\x05\x00\x01\x02",
        ),
        (
            "surplus",
            b"\x04\x01\x00\x01\x00\x01\x00\x01\x00\x18\x00\x01\x00\x01\x02\x05\x00",
        ),
        (
            "surplus, ill-formed",
            b"\x04\x01\x00\x01\x00\x01\x00\x01\x00\x18\x00\x01\x00\x01\x02\x05\x80\x00",
        ),
    ];
    for (name, sheet) in cases {
        read_case(rt, name, sheet)?;
    }
    Ok(())
}

// So as lists.
fn lists_written(rt: &impl Print) -> io::Result<()> {
    let cases: [(&str, &[u32]); 9] = [
        (
            "list, two triples",
            &[4, 1, 0, 1, 0, 1, 0, 1, 0, 24, 0, 2, 0, 1, 2, 5, 0, 1, 3, 5],
        ),
        (
            "list, a count and no triple",
            &[4, 1, 0, 1, 0, 1, 0, 1, 0, 24, 0, 1],
        ),
        ("list, a count of 0", &[4, 1, 0, 1, 0, 1, 0, 1, 0, 24, 0, 0]),
        (
            "list, a count of 33",
            &[4, 1, 0, 1, 0, 1, 0, 1, 0, 24, 0, 33],
        ),
        (
            "list, triple, c 1000000",
            &[4, 1, 0, 1, 0, 1, 0, 1, 0, 24, 0, 1, 0, 1, 2, 1000000],
        ),
        (
            "list, triple, c 1000001",
            &[4, 1, 0, 1, 0, 1, 0, 1, 0, 24, 0, 1, 0, 1, 2, 1000001],
        ),
        (
            "list, triple, j = k",
            &[4, 1, 0, 1, 0, 1, 0, 1, 0, 24, 0, 1, 0, 1, 1],
        ),
        (
            "list, a triple twice",
            &[4, 1, 0, 1, 0, 1, 0, 1, 0, 24, 0, 2, 0, 1, 2, 5, 0, 1, 2, 5],
        ),
        (
            "list, surplus",
            &[4, 1, 0, 1, 0, 1, 0, 1, 0, 24, 0, 1, 0, 1, 2, 5, 0],
        ),
    ];
    for (name, numbers) in cases {
        write_case(rt, name, numbers)?;
    }
    Ok(())
}

// A sheet with a triple: an output that lacks one place, and one that has room.
fn short_cases(rt: &impl Print) -> io::Result<()> {
    let sheet = b"\x03\x01\x00\x01\x00\x01\x00\x18\x00\x01\x00\x01\x02\x05";
    line(rt, "output of 13, a triple", read(sheet, &mut [7u32; 13]))?;
    let mut numbers = [7u32; 14];
    line(rt, "output of 14, a triple", read(sheet, &mut numbers))?;
    line(rt, "list, output of 13", write(&numbers, &mut [0u8; 13]))?;
    line(rt, "list, output of 14", write(&numbers, &mut [0u8; 14]))
}

pub fn triple_cases(rt: &impl Print) -> io::Result<()> {
    ranges_read(rt)?;
    order_read(rt)?;
    lists_written(rt)?;
    short_cases(rt)
}
