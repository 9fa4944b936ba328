//! Definitions of variables in AST JSON.
ghost use Rattle.graphql_executable.specs.kinds.VariableDefinitions.{variable_definition_kind};
ghost use Rattle.graphql_executable.specs.trees.ExecutableTrees.{variable_definition_tree};
ghost use Rattle.graphql_ast_json.specs.kinds.ExecutableJson.{IsVariableDefinition};
ghost use Rattle.graphql_ast_json.specs.lemmas.ExecutableNodes.{variable_definition_laws};

use crate::ast_json::AstNode;
use crate::form::VariableForm;
use crate::members::{directives, member, optional};
use crate::write::NodeWriter;
use ast_json_nodes::JsonNode;
use ast_json_nodes::error::AstJsonError;
use graphql_ast::ast::{Type, Value, VariableDefinition};
use graphql_base::node::{Node, NodeStr};
use serde_json::Value as Json;
use std::alloc::AllocError;

impl AstNode for VariableDefinition {
    ghost Tree = { variable_definition_kind.Tree };

    ghost tree = { variable_definition_tree };

    ghost is_node = { IsVariableDefinition };

    ghost laws = { variable_definition_laws };

    fn read_json_node(node: JsonNode<'_, '_>) -> Result<VariableDefinition, AstJsonError> {
        node.check(
            "VariableDefinition",
            &[
                "description",
                "variable",
                "type",
                "defaultValue",
                "directives",
            ],
        )?;
        Ok(VariableDefinition {
            description: optional::<NodeStr>(node, "description")?,
            name: member::<VariableForm>(node, "variable")?,
            ty: member::<Node<Type>>(node, "type")?,
            default_value: optional::<Node<Value>>(node, "defaultValue")?,
            directives: directives(node)?,
        })
    }

    fn write_node(&self, mut node: NodeWriter) -> Result<Json, AllocError> {
        node.begin("VariableDefinition")?;
        node.put_optional::<NodeStr>("description", &self.description)?;
        node.put::<VariableForm>("variable", &self.name)?;
        node.put::<Node<Type>>("type", &self.ty)?;
        node.put_default_value(&self.default_value)?;
        node.put_directives(&self.directives)?;
        Ok(node.into_json())
    }
}
