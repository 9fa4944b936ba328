//! Root operations of schemas in AST JSON: nodes of the kind `OperationTypeDefinition`.
ghost use Rattle.graphql_type_system.specs.kinds.Schemas.{RootOperationTree};
ghost use Rattle.graphql_type_system.specs.trees.TypeSystemTrees.{root_operation_tree};
ghost use Rattle.graphql_ast_json.specs.kinds.TypeSystemJson.{IsRootOperation};
ghost use Rattle.graphql_ast_json.specs.lemmas.TypeSystemNodes.{root_operation_laws};

use crate::ast_json::AstNode;
use crate::form::NamedTypeForm;
use crate::members::member;
use crate::operation_type::operation_type;
use crate::write::NodeWriter;
use ast_json_nodes::JsonNode;
use ast_json_nodes::error::AstJsonError;
use graphql_ast::ast::{NamedType, OperationType};
use serde_json::Value as Json;
use std::alloc::AllocError;

impl AstNode for (OperationType, NamedType) {
    ghost Tree = { RootOperationTree };

    ghost tree = { root_operation_tree };

    ghost is_node = { IsRootOperation };

    ghost laws = { root_operation_laws };

    fn read_json_node(node: JsonNode<'_, '_>) -> Result<(OperationType, NamedType), AstJsonError> {
        node.check("OperationTypeDefinition", &["operation", "type"])?;
        let operation_type = operation_type(node)?;
        let ty = member::<NamedTypeForm>(node, "type")?;
        Ok((operation_type, ty))
    }

    fn write_node(&self, mut node: NodeWriter) -> Result<Json, AllocError> {
        node.begin("OperationTypeDefinition")?;
        node.put_text("operation", self.0.name())?;
        node.put::<NamedTypeForm>("type", &self.1)?;
        Ok(node.into_json())
    }
}
