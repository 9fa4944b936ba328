//! Schemas in AST JSON: definitions and extensions.
ghost use Rattle.graphql_type_system.specs.kinds.Schemas.{schema_definition_kind, schema_extension_kind};
ghost use Rattle.graphql_type_system.specs.trees.TypeSystemTrees.{schema_definition_tree, schema_extension_tree};
ghost use Rattle.graphql_ast_json.specs.kinds.TypeSystemJson.{IsSchemaDefinition, IsSchemaExtension};
ghost use Rattle.graphql_ast_json.specs.lemmas.TypeSystemNodes.{schema_definition_laws, schema_extension_laws};

use crate::ast_json::AstNode;
use crate::members::{directives, list, optional};
use crate::write::NodeWriter;
use ast_json_nodes::JsonNode;
use ast_json_nodes::error::AstJsonError;
use graphql_ast::ast::{NamedType, OperationType, SchemaDefinition, SchemaExtension};
use graphql_base::node::{Node, NodeStr};
use serde_json::Value as Json;
use std::alloc::AllocError;

impl AstNode for SchemaDefinition {
    ghost Tree = { schema_definition_kind.Tree };

    ghost tree = { schema_definition_tree };

    ghost is_node = { IsSchemaDefinition };

    ghost laws = { schema_definition_laws };

    fn read_json_node(node: JsonNode<'_, '_>) -> Result<SchemaDefinition, AstJsonError> {
        node.check(
            "SchemaDefinition",
            &["description", "directives", "operationTypes"],
        )?;
        Ok(SchemaDefinition {
            description: optional::<NodeStr>(node, "description")?,
            directives: directives(node)?,
            root_operations: list::<Node<(OperationType, NamedType)>>(node, "operationTypes")?,
        })
    }

    fn write_node(&self, mut node: NodeWriter) -> Result<Json, AllocError> {
        node.begin("SchemaDefinition")?;
        node.put_optional::<NodeStr>("description", &self.description)?;
        node.put_directives(&self.directives)?;
        node.put_list::<Node<(OperationType, NamedType)>>("operationTypes", &self.root_operations)?;
        Ok(node.into_json())
    }
}

impl AstNode for SchemaExtension {
    ghost Tree = { schema_extension_kind.Tree };

    ghost tree = { schema_extension_tree };

    ghost is_node = { IsSchemaExtension };

    ghost laws = { schema_extension_laws };

    fn read_json_node(node: JsonNode<'_, '_>) -> Result<SchemaExtension, AstJsonError> {
        node.check("SchemaExtension", &["directives", "operationTypes"])?;
        Ok(SchemaExtension {
            directives: directives(node)?,
            root_operations: list::<Node<(OperationType, NamedType)>>(node, "operationTypes")?,
        })
    }

    fn write_node(&self, mut node: NodeWriter) -> Result<Json, AllocError> {
        node.begin("SchemaExtension")?;
        node.put_directives(&self.directives)?;
        node.put_list::<Node<(OperationType, NamedType)>>("operationTypes", &self.root_operations)?;
        Ok(node.into_json())
    }
}
