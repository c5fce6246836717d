// Closing by AC-4, in the order of Figure 2 of source document 004, where an engine needs it.
#![tactic(auto)]

pub mod ac4; // ac4.rt: what closing keeps from one test to the next
pub mod recover; // recover.rt: the copy of the counts, made again
pub mod close; // close.rt: closing at the start of an engine
pub mod test; // test.rt: the test of a setting, and its removal
