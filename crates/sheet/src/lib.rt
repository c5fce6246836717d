// The sheet of a set_up page: its bytes, its numbers, and what is refused.
#![tactic(auto)]

pub mod answer;
pub mod reading;
pub mod writing;
