//! GraphQL documents, and every public name of the crates that they stand on: to use trees, name this crate alone.
//!
//! - `ast`: the types of the tree, and the macros `ty!` and `value!`. `definition` and `document` are those of this crate.
//!   `value_macro` is what `value!` calls.
//! - `name`: names, and the macro `name!`. `node`: values that several trees may share. `span`: source locations.
//! - `serialize`: what is printed, and why a print fails. `sink`: what takes the bytes.
//! - `ill_formed`: why a tree isn't well formed.
//! - `laws`: laws of definitions and documents, as contracts of functions that do nothing.
//!
//! docs/API.md names each type and each call of these modules, with its signature and a sentence.
//!
//! What is said of these in contracts stands in `specs/` of this crate or of one below, and has its name in this one too.
#![tactic(auto)]

pub mod ast;
pub mod definition;
pub mod document;
pub mod laws;
pub mod name;

pub use crate::name::{InvalidNameError, Name};
pub use graphql_base::node::Node;
pub use graphql_base::{node, span};
pub use graphql_text::{engine as serialize, ill_formed, sink};
pub use graphql_values::value_macro;
