// The visit of a field: each of its settings is tested, and removed where it fails.
#![tactic(auto)]

pub mod store; // store.rt: what engine 2 remembers
pub mod visit; // visit.rt: the visit of a field
