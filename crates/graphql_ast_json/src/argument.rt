//! Arguments in AST JSON.
ghost use Rattle.graphql_values.specs.kinds.Arguments.{ArgumentTree};
ghost use Rattle.graphql_values.specs.trees.DirectiveTrees.{argument_tree};
ghost use Rattle.graphql_ast_json.specs.kinds.DirectiveJson.{IsArgument};
ghost use Rattle.graphql_ast_json.specs.lemmas.DirectiveNodes.{argument_laws};

use crate::ast_json::AstNode;
use crate::form::OnOneLine;
use crate::value::read::named_value;
use crate::write::NodeWriter;
use ast_json_nodes::JsonNode;
use ast_json_nodes::error::AstJsonError;
use graphql_ast::ast::{Argument, Value};
use graphql_ast::name::Name;
use serde_json::Value as Json;
use std::alloc::AllocError;

impl AstNode for Argument {
    ghost Tree = { ArgumentTree };

    ghost tree = { argument_tree };

    ghost is_node = { IsArgument };

    ghost laws = { argument_laws };

    fn read_json_node(node: JsonNode<'_, '_>) -> Result<Argument, AstJsonError> {
        let (name, value) = named_value(node, "Argument")?;
        Ok(Argument { name, value })
    }

    fn write_node(&self, mut node: NodeWriter) -> Result<Json, AllocError> {
        node.begin("Argument")?;
        node.put::<Name>("name", &self.name)?;
        node.put::<OnOneLine<Value>>("value", &self.value)?;
        Ok(node.into_json())
    }
}
