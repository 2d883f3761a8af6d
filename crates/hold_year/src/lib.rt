// A year's holds, read part by part, and what is answered in the end.
#![tactic(auto)]

pub mod printing;
pub mod year;
