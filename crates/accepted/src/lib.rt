// An accepted sheet: its parts, its outline and its kinds of rules.
#![tactic(auto)]

pub mod parts; // parts.rt: an accepted sheet, and where its parts stand among its numbers
pub mod fields; // fields.rt: a field
pub mod rules; // rules.rt: a rule
pub mod triples; // triples.rt: the triples, and one of them
pub mod outline; // outline.rt: the outline of a sheet
pub mod kinds; // kinds.rt: what a kind allows
