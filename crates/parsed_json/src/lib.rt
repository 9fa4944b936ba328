//! JSON in two forms: a value of `serde_json`, or a value of the kit's crate `json` that was parsed from a text in which its own
//! texts lie, and which is made in a fraction of the time.
//!
//! - `parse_json`: JSON that is parsed from a text, exactly where `serde_json` reads the text, and the same.
//! - `is_too_deep`: whether a text is not read since its arrays and objects nest too deep.
//! - `AnyJson`, `AnyItems`: JSON, and the items of an array, in either form.
//! - `owned_json`: JSON that was parsed, as a value of `serde_json`.
#![tactic(auto)]

mod any_json;
mod numbers;
mod owned;
mod parse;

pub use crate::any_json::{AnyItems, AnyJson};
pub use crate::owned::owned_json;
pub use crate::parse::{is_too_deep, parse_json};
