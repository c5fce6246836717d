// Sheets that are read, written and refused: a line for each, with its number and its length.
#![tactic(auto)]

mod report; // report.rt: the line of a case
mod triples; // triples.rt: sheets with triples
mod largest; // largest.rt: the largest sheet

use largest::largest_case;
use report::{line, read_case, write_case};
use sheet::reading::read;
use std::io;
use triples::triple_cases;

// Bytes that are a sheet or are refused.
fn read_cases(rt: &impl Print) -> io::Result<()> {
    let cases: [(&str, &[u8]); 10] = [
        (
            "sheet D",
            b"\x02\x03\x64\xC8\x01\xAC\x02\x03\x64\xC8\x01\xAC\x02\x18\x01\x00\x01\x01\x64",
        ),
        ("setting 65536", b"\x01\x01\x80\x80\x04\x18\x00"),
        ("setting 1000000", b"\x01\x01\xC0\x84\x3D\x18\x00"),
        ("setting 1000001", b"\x01\x01\xC1\x84\x3D\x18\x00"),
        (
            "24 fields",
            b"\x18\x01\x00\x01\x00\x01\x00\x01\x00\x01\x00\x01\x00\x01\x00\x01\x00\x01\x00\x01\x00\x01\x00\x01\x00\
            \x01\x00\x01\x00\x01\x00\x01\x00\x01\x00\x01\x00\x01\x00\x01\x00\x01\x00\x01\x00\x01\x00\x01\x00\x18\x00",
        ),
        ("25 fields", b"\x19"),
        ("80 00", b"\x80\x00"),
        ("80 80 80 80", b"\x80\x80\x80\x80"),
        ("i = j", b"\x02\x01\x00\x01\x00\x18\x01\x01\x01\x01\x00"),
        (
            "a mask of 2",
            b"\x02\x01\x00\x01\x00\x18\x01\x00\x01\x00\x02",
        ),
    ];
    for (name, sheet) in cases {
        read_case(rt, name, sheet)?;
    }
    Ok(())
}

// Lists of numbers.
fn write_cases(rt: &impl Print) -> io::Result<()> {
    let cases: [(&str, &[u32]); 4] = [
        ("list, setting 65536", &[1, 1, 65536, 24, 0]),
        ("list, setting 1000000", &[1, 1, 1000000, 24, 0]),
        ("list, setting 1000001", &[1, 1, 1000001, 24, 0]),
        ("list, a word past four groups", &[1, 1, 268435456, 24, 0]),
    ];
    for (name, numbers) in cases {
        write_case(rt, name, numbers)?;
    }
    Ok(())
}

// The retired kind: read, and not written where no number before it is at fault.
fn retired_cases(rt: &impl Print) -> io::Result<()> {
    read_case(
        rt,
        "kind 2",
        b"\x02\x01\x00\x01\x00\x18\x01\x00\x01\x02\x05",
    )?;
    let cases: [(&str, &[u32]); 6] = [
        ("list, kind 2", &[2, 1, 0, 1, 0, 24, 1, 0, 1, 2, 5]),
        ("list, ends after kind 2", &[2, 1, 0, 1, 0, 24, 1, 0, 1, 2]),
        ("list, ends before kind 2", &[2, 1, 0, 1, 0, 24, 1, 0, 1]),
        (
            "list, kind 2, then 0",
            &[2, 1, 0, 1, 0, 24, 1, 0, 1, 2, 5, 0],
        ),
        (
            "list, setting 1000001, kind 2",
            &[2, 1, 1000001, 1, 0, 24, 1, 0, 1, 2, 5],
        ),
        ("list, kind 6", &[2, 1, 0, 1, 0, 24, 1, 0, 1, 6, 5]),
    ];
    for (name, numbers) in cases {
        write_case(rt, name, numbers)?;
    }
    Ok(())
}

// A rule of each kind that has a c, by the groups of its c: in bytes, and as a list.
fn amount_cases(rt: &impl Print, groups: [u8; 3], c: u32) -> io::Result<()> {
    let [low, middle, high] = groups;
    for kind in 1..6u8 {
        read_case(
            rt,
            format_args!("kind {kind}, c {c}"),
            &[2, 1, 0, 1, 0, 24, 1, 0, 1, kind, low, middle, high],
        )?;
        write_case(
            rt,
            format_args!("list, kind {kind}, c {c}"),
            &[2, 1, 0, 1, 0, 24, 1, 0, 1, u32::from(kind), c],
        )?;
    }
    Ok(())
}

// An output that is too short, and a sheet that is refused before its output is looked at.
fn short_cases(rt: &impl Print) -> io::Result<()> {
    let mut numbers = [7u32; 4];
    line(
        rt,
        "output of 4",
        read(b"\x01\x01\x00\x18\x00", &mut numbers),
    )?;
    let surplus = b"\x03\x01\x00\x01\x00\x01\x00\x18\x00\x01\x00\x01\x02\x05\x00";
    line(rt, "output of 4, surplus", read(surplus, &mut numbers))?;
    println!(rt; "output as it was: {} 0", numbers[0])
}

fn main(rt: HostRuntime) -> io::Result<()> {
    read_cases(&rt)?;
    write_cases(&rt)?;
    amount_cases(&rt, [0x80, 0x80, 0x04], 65536)?;
    amount_cases(&rt, [0xC0, 0x84, 0x3D], 1000000)?;
    amount_cases(&rt, [0xC1, 0x84, 0x3D], 1000001)?;
    retired_cases(&rt)?;
    short_cases(&rt)?;
    triple_cases(&rt)?;
    largest_case(&rt)
}
