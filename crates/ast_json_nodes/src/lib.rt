//! JSON that is read as a node of AST JSON, of any kind: its kind, its members and where it stands, or why it isn't one.
//!
//! - `NodeReader`, `JsonNode`: JSON that is read, by a reading that refuses what is unknown or passes over it.
//! - `error`: why JSON is of no tree, and where in it.
//! - `Offsets`: what the offsets of locations count, and where they fall in bytes.
//!
//! Which nodes are of which trees is told by `graphql_ast_json`, which passes these on.
#![tactic(auto)]

pub mod error;
mod nesting;
mod offsets;
mod read;

pub use crate::error::AstJsonError;
pub use crate::offsets::Offsets;
pub use crate::read::text::read_json;
pub use crate::read::{JsonNode, NodeReader, Unknown, find_member, index_of, is_one_of};
