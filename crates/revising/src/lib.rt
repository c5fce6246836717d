// Triple rules: a set is revised under each of them, and the removal list emptied, until neither takes anything.
#![tactic(auto)]

pub mod table; // table.rt: where the parts of a triple rule stand
pub mod support; // support.rt: what a triple rule supports of its three fields
pub mod revise; // revise.rt: the revision under one triple rule
pub mod narrow; // narrow.rt: closing by the rules over two fields and the triple rules
