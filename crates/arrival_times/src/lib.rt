// The search for safe arrival times over a lent table.
#![tactic(auto)]

pub mod calls;
pub mod listing;
pub mod soonest;
pub mod sweep;
pub mod turn;
