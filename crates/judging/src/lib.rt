// Whether a call may be made: the causes 15 or 18, 7 and 9 to 13 of a refusal, stage by stage.
#![tactic(auto)]

pub mod order; // order.rt: whether a list is an order of the fields
pub mod stages; // stages.rt: the first cause of each stage
pub mod judge; // judge.rt: the first cause of all
