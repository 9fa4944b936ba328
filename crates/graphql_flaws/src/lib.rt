//! The flaws of syntax trees: every one, in the order of print, each with its path.
//!
//! - `FindFlaws`: what may have flaws, each of the thirty kinds of trees; `flaws` finds those of a tree.
//! - `FoundFlaw`: a flaw that was found, and where. `FlawPath`, `PathStep`: its path, in the names of AST JSON.
//! - `FlawSearch`: a search for flaws that is under way.
//!
//! `find_ill_formed` of `graphql_ast` finds the first of them, and takes no memory.
#![tactic(auto)]

mod documents;
mod executable;
mod find_flaws;
mod found_flaw;
mod parts;
mod search;
mod type_system;
mod values;

pub use crate::find_flaws::FindFlaws;
pub use crate::found_flaw::{FlawPath, FoundFlaw, PathStep};
pub use crate::search::FlawSearch;
