// The calls of `hold_exports` as a static library, for C and Rust.
#![tactic(auto)]

pub mod hold_calls;
