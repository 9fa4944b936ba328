//! JSON as text without white space, written piece by piece to what takes the bytes of a print. It knows nothing of GraphQL.
//!
//! - `write_string`: a string, with the escapes that it needs.
//! - `write_number`: a number.
//! - `write_comma`: a comma, behind another item.
#![tactic(auto)]

mod comma;
mod number;
mod string;

pub use crate::comma::write_comma;
pub use crate::number::write_number;
pub use crate::string::write_string;
