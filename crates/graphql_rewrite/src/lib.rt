//! Rewriting of syntax trees: each value, list of arguments, list of directives, field and selection set, the inner ones
//! first.
//!
//! - `Rewriter`: what is made of each of these parts. `rebuild_document`: a document in which each is made anew, or nothing
//!   where no part changes; the old document stays as it is, and what doesn't change is shared by both. `rewrite`: in place.
//! - `Rebuild`: what may be rebuilt, each type of nodes; `rebuild_node`, `rebuild_nodes`.
//! - Ready: `add_field_everywhere`, `rename_fields`, `remove_directive`, `replace_variables`, and their rewriters `AddField`,
//!   `RenameFields`, `RemoveDirective`, `ReplaceVariables`.
//! - Of whole documents: `concat`, `sort_definitions`, `with_definitions`.
//! - `laws`: which rewritings keep the side conditions of documents.
#![tactic(auto)]

mod concatenation;
mod directives;
mod documents;
mod executable;
mod fields;
pub mod laws;
mod parts;
mod rebuild;
mod rewriter;
mod shared_lists;
mod sorting;
mod type_system;
mod values;
mod variables;

pub use crate::concatenation::concat;
pub use crate::directives::{RemoveDirective, remove_directive};
pub use crate::documents::{rebuild_document, with_definitions};
pub use crate::fields::{AddField, RenameFields, add_field_everywhere, rename_fields};
pub use crate::rebuild::{Rebuild, rebuild_node, rebuild_nodes, rewrite};
pub use crate::rewriter::{Rebuilt, Rewriter};
pub use crate::sorting::sort_definitions;
pub use crate::variables::{ReplaceVariables, replace_variables};
