//! Source locations of syntax trees: how they are taken out.
//!
//! - `strip_locations`: another document with the same tree, in which nothing has a location, and which has no sources.
//! - `Located`: what may have locations, each type of nodes and of their parts; `without_locations` makes another one of it.
//!
//! Trees that differ in locations at most are equal and print alike. Take the locations out where they would be wrong or say too
//! much: of a part that goes into a document with other sources, or of a tree that is written as JSON.
#![tactic(auto)]

mod documents;
mod executable;
mod located;
mod parts;
mod type_system;
mod values;

pub use crate::documents::strip_locations;
pub use crate::located::Located;
