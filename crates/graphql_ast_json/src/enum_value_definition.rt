//! Definitions of enum values in AST JSON.
ghost use Rattle.graphql_type_system.specs.kinds.EnumValueDefinitions.{enum_value_definition_kind};
ghost use Rattle.graphql_type_system.specs.trees.TypeSystemTrees.{enum_value_definition_tree};
ghost use Rattle.graphql_ast_json.specs.kinds.TypeSystemJson.{IsEnumValueDefinition};
ghost use Rattle.graphql_ast_json.specs.lemmas.TypeSystemNodes.{enum_value_definition_laws};

use crate::ast_json::AstNode;
use crate::members::{directives, member, optional};
use crate::write::NodeWriter;
use ast_json_nodes::JsonNode;
use ast_json_nodes::error::AstJsonError;
use graphql_ast::ast::EnumValueDefinition;
use graphql_ast::name::Name;
use graphql_base::node::NodeStr;
use serde_json::Value as Json;
use std::alloc::AllocError;

impl AstNode for EnumValueDefinition {
    ghost Tree = { enum_value_definition_kind.Tree };

    ghost tree = { enum_value_definition_tree };

    ghost is_node = { IsEnumValueDefinition };

    ghost laws = { enum_value_definition_laws };

    fn read_json_node(node: JsonNode<'_, '_>) -> Result<EnumValueDefinition, AstJsonError> {
        node.check(
            "EnumValueDefinition",
            &["description", "name", "directives"],
        )?;
        Ok(EnumValueDefinition {
            description: optional::<NodeStr>(node, "description")?,
            value: member::<Name>(node, "name")?,
            directives: directives(node)?,
        })
    }

    fn write_node(&self, mut node: NodeWriter) -> Result<Json, AllocError> {
        node.begin("EnumValueDefinition")?;
        node.put_optional::<NodeStr>("description", &self.description)?;
        node.put::<Name>("name", &self.value)?;
        node.put_directives(&self.directives)?;
        Ok(node.into_json())
    }
}
