//! The calls of the C interface over AST JSON: JSON in, a buffer out, a status back.
//!
//! - `print_json`, `print_value_json`: a document, or a value, as GraphQL text.
//! - `check_json`: whether JSON is of a document that is well formed.
//! - `write_json`: AST JSON, normalized.
//! - `Status`: what they answer. Where no text was made, the buffer has a message that says why.
//!
//! Beside memory for the tree they ask for none: the text is written into the caller's buffer, and counted where it
//! doesn't fit.
#![tactic(auto)]

mod buffer;
mod check;
mod message;
mod print;
mod read;
mod status;
mod write;

pub use crate::check::check_json;
pub use crate::print::{print_json, print_value_json};
pub use crate::status::Status;
pub use crate::write::write_json;
