//! Syntax trees from AST JSON, the form of graphql-js 16, and as AST JSON.
//!
//! - `AstJson`: what can be read from AST JSON, and written as it; `AstNode`: of which each tree is one node.
//! - `NodeReader`: JSON that is read, by a reading that refuses what is unknown or passes over it.
//! - `parse_json`: JSON that is parsed from a text; `JsonNode`: JSON that is read, in that form or as a value of `serde_json`.
//! - `from_ast_json_str`: a tree from the text of its JSON.
//! - `error`: why JSON is of no tree, and where in it.
//! - `from_well_formed_ast_json_str`: a well-formed tree from the text of its JSON, or where it has the first flaw.
//! - `Offsets`: what the offsets of locations count, and where they fall in bytes.
//! - `laws`: what holds of AST JSON, as contracts of functions that do nothing.
#![tactic(auto)]

mod argument;
mod ast_json;
mod definition;
mod directive;
mod directive_definition;
mod directive_list;
mod directive_location;
mod document;
mod enum_type;
mod enum_value_definition;
mod field_definition;
mod form;
mod fragment_definition;
mod fragment_spread;
mod input_object_type;
mod input_value_definition;
mod interface_type;
pub mod laws;
mod members;
mod name;
mod object_type;
mod operation_definition;
mod operation_type;
mod root_operation;
mod scalar_type;
mod schema;
mod selection;
mod string;
mod types;
mod union_type;
mod value;
mod variable_definition;
mod well_formed;
mod write;

pub use crate::ast_json::{AstJson, AstNode, from_ast_json_str};
pub use crate::well_formed::{
    BrokenCondition, WellFormedError, from_well_formed_ast_json_str, read_well_formed_ast_json,
    read_well_formed_json,
};
pub use ast_json_nodes::{AstJsonError, JsonNode, NodeReader, Offsets, Unknown, error};
pub use parsed_json::{AnyItems, AnyJson, is_too_deep, parse_json};
