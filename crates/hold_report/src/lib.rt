// The report of a year's holds, put into a lent room of bytes from the crews' words.
#![tactic(auto)]

pub mod report;
