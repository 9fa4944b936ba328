//! For the crates of tests: a worked tree of each kind that is printed, and a count of the calls that were refused memory.
//! Each tree has all the parts that its kind may have, and each of its names, texts and nodes has a location at offset 0.
#![tactic(auto)]

pub mod definitions;
pub mod executable;
pub mod parts;
pub mod refused;
pub mod type_extensions;
pub mod types;
pub mod values;
