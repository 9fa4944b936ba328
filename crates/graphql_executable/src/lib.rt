//! GraphQL's executable definitions: operations, fragments and their selections.
//!
//! - `operation_definition`, `variable_definition`: operations and their variables.
//! - `fragment_definition`: definitions of fragments.
//! - `selection`, `field`, `fragment_spread`, `inline_fragment`: what stands in selection sets.
//! - `writers`: what the kinds of the crates above are written with.
//! - `laws`: laws of these kinds, as contracts of functions that do nothing.
#![tactic(auto)]

pub mod field;
pub mod fragment_definition;
pub mod fragment_spread;
pub mod inline_fragment;
pub mod laws;
pub mod operation_definition;
mod optional_parts;
pub mod selection;
mod stacks;
pub mod variable_definition;
pub mod writers;
