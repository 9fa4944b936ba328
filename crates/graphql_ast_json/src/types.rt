//! Type references in AST JSON.
ghost use Rattle.graphql_values.specs.kinds.TypeReferences.{TypeTree};
ghost use Rattle.graphql_values.specs.trees.TypeTrees.{type_tree};
ghost use Rattle.graphql_ast_json.specs.kinds.TypeJson.{IsTypeReference};
ghost use Rattle.graphql_ast_json.specs.lemmas.TypeNodes.{type_laws};

pub(crate) mod read;
pub(crate) mod write;

use crate::ast_json::AstNode;
use crate::write::NodeWriter;
use ast_json_nodes::JsonNode;
use ast_json_nodes::error::AstJsonError;
use graphql_ast::ast::Type;
use read::read_type;
use serde_json::Value as Json;
use std::alloc::AllocError;
use write::write_type;

impl AstNode for Type {
    ghost Tree = { TypeTree };

    ghost tree = { type_tree };

    ghost is_node = { IsTypeReference };

    ghost laws = { type_laws };

    fn read_json_node(node: JsonNode<'_, '_>) -> Result<Type, AstJsonError> {
        read_type(node)
    }

    fn write_node(&self, node: NodeWriter) -> Result<Json, AllocError> {
        write_type(node, self)
    }
}
