// Hints: places where the agent may wait, and how a lent list of words keeps them, 64 at most.
#![tactic(auto)]

pub mod entries;
pub mod hint;
