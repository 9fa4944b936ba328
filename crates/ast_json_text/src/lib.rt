//! Syntax trees as the text of their AST JSON, written without a value of `serde_json` between them.
//!
//! - `WriteAstJson`: what can be written so; `WriteAstNode`: of which each tree is one node.
//! - `to_ast_json_text`: that text; `send_ast_json`: the same to a sink; `AsAstJson`: what is written so.
//! - `to_ast_json_text_by_value`: the text of any kind that has `to_ast_json` alone.
//!
//! The members of each node stand in the order of their names, as `serde_json` writes them.
#![tactic(auto)]

mod argument;
mod context;
mod definition;
mod directive;
mod directive_definition;
mod directive_list;
mod directive_location;
mod document;
mod enum_type;
mod enum_value_definition;
mod field_definition;
mod form;
mod fragment_definition;
mod fragment_spread;
mod input_object_type;
mod input_value_definition;
mod interface_type;
mod name;
mod object_type;
mod operation_definition;
mod root_operation;
mod scalar_type;
mod schema;
mod selection;
mod string;
mod text;
mod types;
mod union_type;
mod value;
mod variable_definition;
mod write;

pub use crate::context::NodeContext;
pub use crate::text::{
    AsAstJson, WriteAstJson, WriteAstNode, send_ast_json, to_ast_json_text,
    to_ast_json_text_by_value,
};
