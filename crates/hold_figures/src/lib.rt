// The crews' figures of a year in lent words: rounds, total and largest hold of each.
#![tactic(auto)]

pub mod figures;
