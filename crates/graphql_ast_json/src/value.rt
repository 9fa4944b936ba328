//! Values in AST JSON.
ghost use Rattle.graphql_values.specs.kinds.Values.{ValueTree};
ghost use Rattle.graphql_values.specs.trees.ValueTrees.{value_tree};
ghost use Rattle.graphql_ast_json.specs.kinds.ValueJson.{IsValue};
ghost use Rattle.graphql_ast_json.specs.lemmas.ValueNodes.{value_laws};

pub(crate) mod read;
pub(crate) mod write;

use crate::ast_json::AstNode;
use crate::write::NodeWriter;
use ast_json_nodes::JsonNode;
use ast_json_nodes::error::AstJsonError;
use graphql_ast::ast::Value;
use read::read_value;
use serde_json::Value as Json;
use std::alloc::AllocError;
use write::write_value;

impl AstNode for Value {
    ghost Tree = { ValueTree };

    ghost tree = { value_tree };

    ghost is_node = { IsValue };

    ghost laws = { value_laws };

    fn read_json_node(node: JsonNode<'_, '_>) -> Result<Value, AstJsonError> {
        read_value(node)
    }

    fn write_node(&self, node: NodeWriter) -> Result<Json, AllocError> {
        write_value(node, self)
    }
}
