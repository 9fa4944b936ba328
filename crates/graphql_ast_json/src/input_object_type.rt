//! Input object types in AST JSON: definitions and extensions.
ghost use Rattle.graphql_type_system.specs.kinds.InputObjectTypes.{input_object_type_definition_kind, input_object_type_extension_kind};
ghost use Rattle.graphql_type_system.specs.trees.TypeSystemTrees.{input_object_type_definition_tree, input_object_type_extension_tree};
ghost use Rattle.graphql_ast_json.specs.kinds.TypeSystemJson.{IsInputObjectTypeDefinition, IsInputObjectTypeExtension};
ghost use Rattle.graphql_ast_json.specs.lemmas.TypeSystemNodes.{input_object_type_definition_laws, input_object_type_extension_laws};

use crate::ast_json::AstNode;
use crate::members::{directives, list, member, optional};
use crate::write::NodeWriter;
use ast_json_nodes::JsonNode;
use ast_json_nodes::error::AstJsonError;
use graphql_ast::ast::{InputObjectTypeDefinition, InputObjectTypeExtension, InputValueDefinition};
use graphql_ast::name::Name;
use graphql_base::node::{Node, NodeStr};
use serde_json::Value as Json;
use std::alloc::AllocError;

impl AstNode for InputObjectTypeDefinition {
    ghost Tree = { input_object_type_definition_kind.Tree };

    ghost tree = { input_object_type_definition_tree };

    ghost is_node = { IsInputObjectTypeDefinition };

    ghost laws = { input_object_type_definition_laws };

    fn read_json_node(node: JsonNode<'_, '_>) -> Result<InputObjectTypeDefinition, AstJsonError> {
        node.check(
            "InputObjectTypeDefinition",
            &["description", "name", "directives", "fields"],
        )?;
        Ok(InputObjectTypeDefinition {
            description: optional::<NodeStr>(node, "description")?,
            name: member::<Name>(node, "name")?,
            directives: directives(node)?,
            fields: list::<Node<InputValueDefinition>>(node, "fields")?,
        })
    }

    fn write_node(&self, mut node: NodeWriter) -> Result<Json, AllocError> {
        node.begin("InputObjectTypeDefinition")?;
        node.put_optional::<NodeStr>("description", &self.description)?;
        node.put::<Name>("name", &self.name)?;
        node.put_directives(&self.directives)?;
        node.put_list::<Node<InputValueDefinition>>("fields", &self.fields)?;
        Ok(node.into_json())
    }
}

impl AstNode for InputObjectTypeExtension {
    ghost Tree = { input_object_type_extension_kind.Tree };

    ghost tree = { input_object_type_extension_tree };

    ghost is_node = { IsInputObjectTypeExtension };

    ghost laws = { input_object_type_extension_laws };

    fn read_json_node(node: JsonNode<'_, '_>) -> Result<InputObjectTypeExtension, AstJsonError> {
        node.check(
            "InputObjectTypeExtension",
            &["name", "directives", "fields"],
        )?;
        Ok(InputObjectTypeExtension {
            name: member::<Name>(node, "name")?,
            directives: directives(node)?,
            fields: list::<Node<InputValueDefinition>>(node, "fields")?,
        })
    }

    fn write_node(&self, mut node: NodeWriter) -> Result<Json, AllocError> {
        node.begin("InputObjectTypeExtension")?;
        node.put::<Name>("name", &self.name)?;
        node.put_directives(&self.directives)?;
        node.put_list::<Node<InputValueDefinition>>("fields", &self.fields)?;
        Ok(node.into_json())
    }
}
