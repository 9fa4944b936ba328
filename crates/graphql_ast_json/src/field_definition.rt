//! Definitions of fields in AST JSON.
ghost use Rattle.graphql_type_system.specs.kinds.FieldDefinitions.{field_definition_kind};
ghost use Rattle.graphql_type_system.specs.trees.TypeSystemTrees.{field_definition_tree};
ghost use Rattle.graphql_ast_json.specs.kinds.TypeSystemJson.{IsFieldDefinition};
ghost use Rattle.graphql_ast_json.specs.lemmas.TypeSystemNodes.{field_definition_laws};

use crate::ast_json::AstNode;
use crate::members::{directives, list, member, optional};
use crate::write::NodeWriter;
use ast_json_nodes::JsonNode;
use ast_json_nodes::error::AstJsonError;
use graphql_ast::ast::{FieldDefinition, InputValueDefinition, Type};
use graphql_ast::name::Name;
use graphql_base::node::{Node, NodeStr};
use graphql_values::writers::some_want_lines;
use serde_json::Value as Json;
use std::alloc::AllocError;

impl AstNode for FieldDefinition {
    ghost Tree = { field_definition_kind.Tree };

    ghost tree = { field_definition_tree };

    ghost is_node = { IsFieldDefinition };

    ghost laws = { field_definition_laws };

    fn read_json_node(node: JsonNode<'_, '_>) -> Result<FieldDefinition, AstJsonError> {
        node.check(
            "FieldDefinition",
            &["description", "name", "arguments", "type", "directives"],
        )?;
        Ok(FieldDefinition {
            description: optional::<NodeStr>(node, "description")?,
            name: member::<Name>(node, "name")?,
            arguments: list::<Node<InputValueDefinition>>(node, "arguments")?,
            ty: member::<Type>(node, "type")?,
            directives: directives(node)?,
        })
    }

    fn write_node(&self, mut node: NodeWriter) -> Result<Json, AllocError> {
        node.begin("FieldDefinition")?;
        node.put_optional::<NodeStr>("description", &self.description)?;
        node.put::<Name>("name", &self.name)?;
        let over_lines = some_want_lines(&self.arguments);
        node.put_parameters("arguments", &self.arguments, over_lines)?;
        node.put::<Type>("type", &self.ty)?;
        node.put_directives(&self.directives)?;
        Ok(node.into_json())
    }
}
