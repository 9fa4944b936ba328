//! Enum types in AST JSON: definitions and extensions.
ghost use Rattle.graphql_type_system.specs.kinds.EnumTypes.{enum_type_definition_kind, enum_type_extension_kind};
ghost use Rattle.graphql_type_system.specs.trees.TypeSystemTrees.{enum_type_definition_tree, enum_type_extension_tree};
ghost use Rattle.graphql_ast_json.specs.kinds.TypeSystemJson.{IsEnumTypeDefinition, IsEnumTypeExtension};
ghost use Rattle.graphql_ast_json.specs.lemmas.TypeSystemNodes.{enum_type_definition_laws, enum_type_extension_laws};

use crate::ast_json::AstNode;
use crate::members::{directives, list, member, optional};
use crate::write::NodeWriter;
use ast_json_nodes::JsonNode;
use ast_json_nodes::error::AstJsonError;
use graphql_ast::ast::{EnumTypeDefinition, EnumTypeExtension, EnumValueDefinition};
use graphql_ast::name::Name;
use graphql_base::node::{Node, NodeStr};
use serde_json::Value as Json;
use std::alloc::AllocError;

impl AstNode for EnumTypeDefinition {
    ghost Tree = { enum_type_definition_kind.Tree };

    ghost tree = { enum_type_definition_tree };

    ghost is_node = { IsEnumTypeDefinition };

    ghost laws = { enum_type_definition_laws };

    fn read_json_node(node: JsonNode<'_, '_>) -> Result<EnumTypeDefinition, AstJsonError> {
        node.check(
            "EnumTypeDefinition",
            &["description", "name", "directives", "values"],
        )?;
        Ok(EnumTypeDefinition {
            description: optional::<NodeStr>(node, "description")?,
            name: member::<Name>(node, "name")?,
            directives: directives(node)?,
            values: list::<Node<EnumValueDefinition>>(node, "values")?,
        })
    }

    fn write_node(&self, mut node: NodeWriter) -> Result<Json, AllocError> {
        node.begin("EnumTypeDefinition")?;
        node.put_optional::<NodeStr>("description", &self.description)?;
        node.put::<Name>("name", &self.name)?;
        node.put_directives(&self.directives)?;
        node.put_list::<Node<EnumValueDefinition>>("values", &self.values)?;
        Ok(node.into_json())
    }
}

impl AstNode for EnumTypeExtension {
    ghost Tree = { enum_type_extension_kind.Tree };

    ghost tree = { enum_type_extension_tree };

    ghost is_node = { IsEnumTypeExtension };

    ghost laws = { enum_type_extension_laws };

    fn read_json_node(node: JsonNode<'_, '_>) -> Result<EnumTypeExtension, AstJsonError> {
        node.check("EnumTypeExtension", &["name", "directives", "values"])?;
        Ok(EnumTypeExtension {
            name: member::<Name>(node, "name")?,
            directives: directives(node)?,
            values: list::<Node<EnumValueDefinition>>(node, "values")?,
        })
    }

    fn write_node(&self, mut node: NodeWriter) -> Result<Json, AllocError> {
        node.begin("EnumTypeExtension")?;
        node.put::<Name>("name", &self.name)?;
        node.put_directives(&self.directives)?;
        node.put_list::<Node<EnumValueDefinition>>("values", &self.values)?;
        Ok(node.into_json())
    }
}
