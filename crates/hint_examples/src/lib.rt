// Examples of hints worked out on paper: theorems that no function needs, in proofs/. The crate has no code of its own.
#![tactic(auto)]
