// Sessions that no call has made.
use super::run::started;
use super::script::{one, play};
use ledger::{Call, Event};
use session::Session;
use std::io;

// Masks of choices and strikes of field 0, a first event, and a count of events.
fn forged(choices: u32, strikes: u32, event: Event, count: u32) -> Session {
    let mut s = started();
    s.decisions.choices[0] = choices;
    s.decisions.strikes[0] = strikes;
    s.events[0] = event;
    s.count = count;
    s
}

const fn event(kind: u32, field: u32, position: u32) -> Event {
    Event {
        kind,
        field,
        position,
    }
}

// A count of 65.
pub fn overfull() -> Session {
    Session {
        count: 65,
        ..started()
    }
}

// A strike of position 31 in field 23.
fn far() -> Session {
    let mut s = started();
    s.decisions.strikes[23] = 1 << 31;
    s
}

// Show of sessions with strikes in field 0 and one event.
fn events(rt: &impl Print) -> io::Result<()> {
    println!(rt; "-- 15, or not: events")?;
    for (name, strikes, event) in [
        ("kind 0", 0, event(0, 0, 0)),
        ("kind 5", 0, event(5, 0, 0)),
        ("a withdrawal in field 2", 0, event(3, 2, 0)),
        ("a withdrawal of position 3", 0, event(4, 0, 3)),
        ("an addition in force", 4, event(2, 0, 2)),
        ("an addition not in force", 0, event(2, 0, 2)),
        ("a choice added, a strike in force", 4, event(1, 0, 2)),
        ("a withdrawal in force", 4, event(4, 0, 2)),
    ] {
        print!(rt; "{name}, ")?;
        one(rt, Call::Show, forged(0, strikes, event, 1), 1)?;
    }
    Ok(())
}

// Show of sessions with decisions, and an event past the count.
fn decisions(rt: &impl Print) -> io::Result<()> {
    println!(rt; "-- 15, or not: decisions")?;
    let past = event(7, 7, 7);
    for (name, session) in [
        ("none", forged(0, 0, past, 0)),
        ("a strike of position 2", forged(0, 4, past, 0)),
        ("a strike of position 3", forged(0, 8, past, 0)),
        ("a choice of position 3", forged(8, 0, past, 0)),
        ("a strike in field 23", far()),
    ] {
        print!(rt; "{name}, ")?;
        one(rt, Call::Show, session, 1)?;
    }
    Ok(())
}

// Sessions with a mask of selected fields: show by engine 0, since 15 comes before 7, then five calls by engine 1.
fn selections(rt: &impl Print) -> io::Result<()> {
    println!(rt; "-- 15, or not: selected fields")?;
    for selected in [0, 4, 7, u32::MAX, 2] {
        let masked = Session {
            selected,
            ..started()
        };
        print!(rt; "selected {selected}, ")?;
        one(rt, Call::Show, masked, 0)?;
        play(rt, masked, 1, b"h.. c01 b.. n.. o.1 ")?;
    }
    Ok(())
}

// Each call; open skips 15.
fn counts(rt: &impl Print) -> io::Result<()> {
    println!(rt; "-- 15, before 7: count 65")?;
    play(rt, overfull(), 1, b"h.. c01 s02 C01 S02 b.. n.. ")?;
    play(rt, overfull(), 0, b"h.. o.3 ")?;
    play(rt, overfull(), 1, b"o.3 ")?;
    println!(rt; "-- 15: the largest count")?;
    let largest = Session {
        count: u32::MAX,
        ..started()
    };
    play(rt, largest, 1, b"h.. o.3 ")
}

// Wiped out before the call; 14 goes by what would hold after it.
fn wiped_out(rt: &impl Print) -> io::Result<()> {
    println!(rt; "-- 14: every position of field 0 struck")?;
    let struck = forged(0, 7, event(2, 0, 2), 1);
    play(rt, struck, 1, b"h.. s12 n.. b.. ")?;
    play(rt, struck, 1, b"S01 ")?;
    println!(rt; "-- 14: two choices in field 0")?;
    play(rt, forged(6, 0, event(0, 0, 0), 0), 1, b"h.. C01 ")
}

pub fn cases(rt: &impl Print) -> io::Result<()> {
    counts(rt)?;
    events(rt)?;
    decisions(rt)?;
    selections(rt)?;
    wiped_out(rt)
}
