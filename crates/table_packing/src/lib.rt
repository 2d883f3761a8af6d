// The packed table, as it is filled: a word or a row at a time, the boxes of all obstacles, and all of it from lent lists.
#![tactic(auto)]

pub mod boxes;
pub mod filling;
pub mod packing;
