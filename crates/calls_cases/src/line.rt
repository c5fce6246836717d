// The lines that the cases print.
use limits::OFFERS_WORDS;
use session::Session;
use std::{fmt, io};

// What a call answered, and the end of the line: its number, the first words of the offers list, and the session after it.
pub fn answered(
    rt: &impl Print,
    number: u32,
    offers: &[u32; OFFERS_WORDS],
    session: &Session,
) -> io::Result<()> {
    let Session {
        decisions,
        count,
        selected,
        ..
    } = session;
    let [c0, c1, ..] = decisions.choices;
    let [s0, s1, ..] = decisions.strikes;
    let [o0, o1, o2, ..] = offers;
    println!(rt; ": {number} | {o0} {o1} {o2} | {c0} {c1} | {s0} {s1} | {count} | {selected}")
}

// A space whose words all had one value: how many of them have changed.
#[derive(Clone, Copy)]
pub struct Changed<'a> {
    pub words: &'a [u32],
    pub before: u32,
}

impl fmt::Display for Changed<'_> {
    fn fmt<W: fmt::Write>(&self, f: &mut fmt::Formatter<W>) -> fmt::Result {
        let changed = self.words.iter().filter(|&&w| w != self.before).count();
        let all = self.words.len();
        write!(f, "changed {changed} of {all}")
    }
}
