// The lines of a year's holds: what a line is, and how it is read byte by byte.
#![tactic(auto)]

pub mod place;
