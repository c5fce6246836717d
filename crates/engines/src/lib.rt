// The engines that find the offers of a set.
#![tactic(auto)]

pub mod sac; // sac.rt: engines 1 and 2
pub mod queue; // queue.rt: engine 3
pub mod run; // run.rt: an engine by its number
