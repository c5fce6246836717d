// The answer to a call, from the session by value.
#![tactic(auto)]

pub mod intake; // intake.rt: the sheet read, and its outline
pub mod settle; // settle.rt: the offers, found and written
pub mod drafts; // drafts.rt: the same with the table of the triple rules made
pub mod answer; // answer.rt: the answer to any call
