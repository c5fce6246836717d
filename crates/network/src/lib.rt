// The network of a sheet: the tables of its rules and triple rules, the joined fields, and the neighbourhoods.
#![tactic(auto)]

pub mod rows; // rows.rt: the rows of the tables
pub mod turn; // turn.rt: the rows of a rule turned round
pub mod fill; // fill.rt: the tables, filled from an accepted list of numbers
pub mod links; // links.rt: the linked fields
pub mod hoods; // hoods.rt: the neighbourhoods of the fields
pub mod triples; // triples.rt: the table of the triple rules
pub mod build; // build.rt: the whole network
pub mod tables; // tables.rt: the network with its tables, lent
