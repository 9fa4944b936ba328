//! GraphQL's type system: definitions and extensions of schemas and types.
//!
//! - `schema`, `scalar_type`, `object_type`, `interface_type`, `union_type`, `enum_type`, `input_object_type`: a
//!   definition and an extension each.
//! - `field_definition`, `enum_value_definition`: what object, interface and enum types hold.
//! - `laws`: laws of these kinds, as contracts of functions that do nothing.
#![tactic(auto)]

pub mod enum_type;
pub mod enum_value_definition;
pub mod field_definition;
pub mod input_object_type;
pub mod interface_type;
mod joined_names;
pub mod laws;
mod member;
mod members;
pub mod object_type;
mod root_operation;
pub mod scalar_type;
pub mod schema;
pub mod union_type;
