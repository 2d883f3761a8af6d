// What the obstacles of a lent table say of a candidate: near legs, exits, the next candidate.
#![tactic(auto)]

pub mod adjust;
pub mod near;
pub mod next_candidate;
pub mod track;
