//! Definitions of input values in AST JSON.
ghost use Rattle.graphql_values.specs.kinds.InputValueDefinitions.{input_value_definition_kind};
ghost use Rattle.graphql_values.specs.trees.DefinitionTrees.{input_value_definition_tree};
ghost use Rattle.graphql_ast_json.specs.kinds.DefinitionJson.{IsInputValueDefinition};
ghost use Rattle.graphql_ast_json.specs.lemmas.DefinitionNodes.{input_value_definition_laws};

use crate::ast_json::AstNode;
use crate::members::{directives, member, optional};
use crate::write::NodeWriter;
use ast_json_nodes::JsonNode;
use ast_json_nodes::error::AstJsonError;
use graphql_ast::ast::{InputValueDefinition, Type, Value};
use graphql_ast::name::Name;
use graphql_base::node::{Node, NodeStr};
use serde_json::Value as Json;
use std::alloc::AllocError;

impl AstNode for InputValueDefinition {
    ghost Tree = { input_value_definition_kind.Tree };

    ghost tree = { input_value_definition_tree };

    ghost is_node = { IsInputValueDefinition };

    ghost laws = { input_value_definition_laws };

    fn read_json_node(node: JsonNode<'_, '_>) -> Result<InputValueDefinition, AstJsonError> {
        node.check(
            "InputValueDefinition",
            &["description", "name", "type", "defaultValue", "directives"],
        )?;
        Ok(InputValueDefinition {
            description: optional::<NodeStr>(node, "description")?,
            name: member::<Name>(node, "name")?,
            ty: member::<Node<Type>>(node, "type")?,
            default_value: optional::<Node<Value>>(node, "defaultValue")?,
            directives: directives(node)?,
        })
    }

    fn write_node(&self, mut node: NodeWriter) -> Result<Json, AllocError> {
        node.begin("InputValueDefinition")?;
        node.put_optional::<NodeStr>("description", &self.description)?;
        node.put::<Name>("name", &self.name)?;
        node.put::<Node<Type>>("type", &self.ty)?;
        node.put_default_value(&self.default_value)?;
        node.put_directives(&self.directives)?;
        Ok(node.into_json())
    }
}
