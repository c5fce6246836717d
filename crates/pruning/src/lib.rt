// pruneAC of Figure 2 of source document 004: the removal list is emptied.
#![tactic(auto)]

pub mod support_set; // support_set.rt: the support set of a setting
pub mod drop; // drop.rt: settings without a count leave the set and enter the removal list
pub mod prune_ac; // prune_ac.rt: one setting from the list a turn
