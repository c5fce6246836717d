// A line for each case, with its number and its length.
use limits::MOST_NUMBERS;
use limits::refusals::Refusal;
use sheet::reading::read;
use sheet::writing::write;
use std::fmt::Display;
use std::io;

pub fn line(
    rt: &impl Print,
    name: impl Display + Drop,
    answer: Result<usize, Refusal>,
) -> io::Result<()> {
    match answer {
        Ok(length) => println!(rt; "{name}: 0 {length}"),
        Err(refusal) => println!(rt; "{name}: {} 0", refusal.number()),
    }
}

pub fn read_case(rt: &impl Print, name: impl Display + Drop, sheet: &[u8]) -> io::Result<()> {
    let mut numbers = [0u32; MOST_NUMBERS];
    line(rt, name, read(sheet, &mut numbers))
}

pub fn write_case(rt: &impl Print, name: impl Display + Drop, numbers: &[u32]) -> io::Result<()> {
    let mut sheet = [0u8; 64];
    line(rt, name, write(numbers, &mut sheet))
}
