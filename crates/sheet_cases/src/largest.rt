// The largest sheet.
use super::report::line;
use limits::{
    LARGEST_SETTING, MOST_BYTES, MOST_FIELDS, MOST_NUMBERS, MOST_RULES, MOST_SETTINGS,
    MOST_TRIPLES, WHOLE_REACH,
};
use sheet::reading::read;
use sheet::writing::write;
use std::io;

// A list of numbers: the first `len` stand.
#[derive(Drop)]
struct List {
    numbers: [u32; MOST_NUMBERS],
    len: usize,
}

// The least of the 24 largest settings.
const LEAST: u32 = LARGEST_SETTING + 1 - MOST_SETTINGS;

// A mask of four groups.
const MASK: u32 = (1 << MOST_SETTINGS) - 1;

impl List {
    fn push(&mut self, x: u32) {
        if self.len < MOST_NUMBERS {
            self.numbers[self.len] = x;
            self.len += 1;
        }
    }

    // Each field has the 24 largest settings, each in three groups.
    fn push_fields(&mut self) {
        self.push(MOST_FIELDS);
        for _ in 0..MOST_FIELDS {
            self.push(MOST_SETTINGS);
            for v in 0..MOST_SETTINGS {
                self.push(LEAST + v);
            }
        }
    }

    // Each pair of fields has a rule of 24 masks.
    fn push_rules(&mut self) {
        self.push(MOST_RULES);
        for i in 0..MOST_FIELDS {
            for j in i + 1..MOST_FIELDS {
                self.push(i);
                self.push(j);
                self.push(0);
                for _ in 0..MOST_SETTINGS {
                    self.push(MASK);
                }
            }
        }
    }

    // Those of the fields 0 and 1 come first, then those of 0 and 2, each with the largest c, in three groups.
    fn push_triples(&mut self) {
        self.push(MOST_TRIPLES);
        let of_1 = (2..MOST_FIELDS).map(|k| (1, k));
        let of_2 = (3..MOST_FIELDS).map(|k| (2, k));
        for (j, k) in of_1.chain(of_2).take(MOST_TRIPLES as usize) {
            self.push(0);
            self.push(j);
            self.push(k);
            self.push(LARGEST_SETTING);
        }
    }
}

// The largest sheet, written, read and written again.
pub fn largest_case(rt: &impl Print) -> io::Result<()> {
    let mut list = List {
        numbers: [0; MOST_NUMBERS],
        len: 0,
    };
    list.push_fields();
    list.push(WHOLE_REACH);
    list.push_rules();
    list.push_triples();
    let mut sheet = [0u8; MOST_BYTES];
    line(rt, "largest, written", write(&list.numbers, &mut sheet))?;
    let mut back = [0u32; MOST_NUMBERS];
    line(rt, "largest, read", read(&sheet, &mut back))?;
    let mut again = [0u8; MOST_BYTES];
    line(rt, "largest, written again", write(&back, &mut again))?;
    println!(rt; "the same bytes: {} 0", u32::from(sheet == again))
}
