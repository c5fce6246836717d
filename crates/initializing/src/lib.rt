// initializeAC of Figure 2 of source document 004: the support sets and the counts are made.
#![tactic(auto)]

pub mod record; // record.rt: the support sets
pub mod initialize_ac; // initialize_ac.rt: the counts, and what has none
