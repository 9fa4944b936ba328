//! For the crates of tests: what they demand of a tree of any kind, and of what is printed of it. A library doesn't end its program, so a check answers
//! what it found in place of what is wanted, and a test expects its `Ok`.
#![tactic(auto)]

pub mod flaws;
pub mod mismatch;
pub mod refused;
pub mod sinks;
pub mod trees;
