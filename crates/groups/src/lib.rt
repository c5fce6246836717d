// One number of a sheet in bytes, written and read.
#![tactic(auto)]

pub mod groups;
pub mod reader;
