// A sheet's network with the tables of its rules, as closing and the engines are lent them.
use super::build::Network;

// `forward` and `turned` are the two tables of rows, `triples` is that of the triple rules.
#[derive(Clone, Copy)]
pub struct Tables<'a> {
    pub network: &'a Network,
    pub forward: &'a [u32],
    pub turned: &'a [u32],
    pub triples: &'a [u32],
}
