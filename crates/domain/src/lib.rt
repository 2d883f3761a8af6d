// The table of the domain, a test for each row, the calls for distances and boxes, and what is wrong with a call for paths.
#![tactic(auto)]

pub mod beside;
pub mod calls;
pub mod limits;
#[cfg(test)]
mod tests;
