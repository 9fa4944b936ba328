//! What each part of a GraphQL syntax tree is made of: names, values that may be shared, and their
//! source locations.
//!
//! - `span`: numbers of source files, and source locations.
//! - `name`: names, with their syntax, and the macro `name!`.
//! - `node`: values and texts that several trees may share.
//! - `short_text`: short texts that take no memory.
//! - `laws`: what holds of all of these, as contracts of functions that do nothing.
#![tactic(auto)]

pub mod laws;
mod located_text;
mod location;
pub mod name;
pub mod node;
mod node_str;
mod shared;
mod shared_text;
pub mod short_text;
pub mod span;
mod static_text;
