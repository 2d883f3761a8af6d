// The reply to a stream, and what `plan` prints for it.
#![tactic(auto)]

pub mod replying;
