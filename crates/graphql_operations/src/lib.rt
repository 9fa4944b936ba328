//! Operations and the fragments that they reach.
//!
//! - `fragment_spreads`: the names of the fragments that are spread within a node.
//! - `fragments_reached`: the fragments of a document that are reached from a node.
//! - `separate_operations`: a document for each operation, with the fragments that it reaches.
#![tactic(auto)]

mod fragments;
mod operations;
mod spreads;

pub use crate::fragments::fragments_reached;
pub use crate::operations::separate_operations;
pub use crate::spreads::fragment_spreads;
