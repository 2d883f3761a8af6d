// The calls of `number_exports` as a static library, for C and Rust.
#![tactic(auto)]

pub mod root_calls;
pub mod time_calls;
