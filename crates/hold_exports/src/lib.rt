// The calls of a year's holds for C and Rust: begin, feed a part, finish, in the caller's memory.
#![tactic(auto)]

pub mod hold_calls;
mod kept;
