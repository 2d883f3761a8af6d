// The calls of `plan_exports` as a static library, for C and Rust.
#![tactic(auto)]

pub mod arrival_calls;
pub mod hint_calls;
pub mod path_calls;
pub mod plan_calls;
pub mod text_calls;
