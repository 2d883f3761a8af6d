// Hints that a call is lent as words.
#![tactic(auto)]

pub mod taken;
