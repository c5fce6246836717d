// The grammar of a sheet: what each number leads to, and what is refused.
#![tactic(auto, unfolding(masks::specs::Pick::pick))]

pub mod grammar;
pub mod triples;
