// The plan that a request asks for: its fields as numbers, its obstacles in a packed table.
#![tactic(auto)]

pub mod calls;
mod fields;
mod reading;
