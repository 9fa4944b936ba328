//! Operations in AST JSON.
ghost use Rattle.graphql_executable.specs.kinds.OperationDefinitions.{operation_definition_kind};
ghost use Rattle.graphql_executable.specs.trees.ExecutableTrees.{operation_definition_tree};
ghost use Rattle.graphql_ast_json.specs.kinds.ExecutableJson.{IsOperationDefinition};
ghost use Rattle.graphql_ast_json.specs.lemmas.ExecutableNodes.{operation_definition_laws};

use crate::ast_json::AstNode;
use crate::form::SelectionSetForm;
use crate::members::{directives, list, member, optional};
use crate::operation_type::operation_type;
use crate::write::NodeWriter;
use ast_json_nodes::JsonNode;
use ast_json_nodes::error::AstJsonError;
use graphql_ast::ast::{OperationDefinition, VariableDefinition};
use graphql_ast::name::Name;
use graphql_base::node::{Node, NodeStr};
use serde_json::Value as Json;
use std::alloc::AllocError;

/// Whether a variable has a description, so that the default layout prints variables over lines.
fn some_are_described(variables: &[Node<VariableDefinition>]) -> bool {
    variables
        .iter()
        .any(|variable| variable.description.is_some())
}

impl AstNode for OperationDefinition {
    ghost Tree = { operation_definition_kind.Tree };

    ghost tree = { operation_definition_tree };

    ghost is_node = { IsOperationDefinition };

    ghost laws = { operation_definition_laws };

    fn read_json_node(node: JsonNode<'_, '_>) -> Result<OperationDefinition, AstJsonError> {
        node.check(
            "OperationDefinition",
            &[
                "description",
                "operation",
                "name",
                "variableDefinitions",
                "directives",
                "selectionSet",
            ],
        )?;
        Ok(OperationDefinition {
            description: optional::<NodeStr>(node, "description")?,
            operation_type: operation_type(node)?,
            name: optional::<Name>(node, "name")?,
            variables: list::<Node<VariableDefinition>>(node, "variableDefinitions")?,
            directives: directives(node)?,
            selection_set: member::<SelectionSetForm>(node, "selectionSet")?,
        })
    }

    fn write_node(&self, mut node: NodeWriter) -> Result<Json, AllocError> {
        node.begin("OperationDefinition")?;
        node.put_optional::<NodeStr>("description", &self.description)?;
        node.put_text("operation", self.operation_type.name())?;
        node.put_optional::<Name>("name", &self.name)?;
        let over_lines = some_are_described(&self.variables);
        node.put_parameters("variableDefinitions", &self.variables, over_lines)?;
        node.put_directives(&self.directives)?;
        node.put::<SelectionSetForm>("selectionSet", &self.selection_set)?;
        Ok(node.into_json())
    }
}
