// The table of obstacles: as lent lists, packed in two arrays, and how both are read.
#![tactic(auto)]

pub mod listed;
pub mod reading;
pub mod walked;
