// The calls of `geometry_exports` as a static library, for C and Rust.
#![tactic(auto)]

pub mod line_calls;
pub mod proximity_calls;
pub mod segment_calls;
pub mod shape_calls;
