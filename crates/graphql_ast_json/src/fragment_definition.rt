//! Definitions of fragments in AST JSON.
ghost use Rattle.graphql_executable.specs.kinds.FragmentDefinitions.{fragment_definition_kind};
ghost use Rattle.graphql_executable.specs.trees.ExecutableTrees.{fragment_definition_tree};
ghost use Rattle.graphql_ast_json.specs.kinds.ExecutableJson.{IsFragmentDefinition};
ghost use Rattle.graphql_ast_json.specs.lemmas.ExecutableNodes.{fragment_definition_laws};

use crate::ast_json::AstNode;
use crate::form::{NamedTypeForm, SelectionSetForm};
use crate::members::{directives, member, optional};
use crate::write::NodeWriter;
use ast_json_nodes::JsonNode;
use ast_json_nodes::error::AstJsonError;
use graphql_ast::ast::FragmentDefinition;
use graphql_ast::name::Name;
use graphql_base::node::NodeStr;
use serde_json::Value as Json;
use std::alloc::AllocError;

impl AstNode for FragmentDefinition {
    ghost Tree = { fragment_definition_kind.Tree };

    ghost tree = { fragment_definition_tree };

    ghost is_node = { IsFragmentDefinition };

    ghost laws = { fragment_definition_laws };

    fn read_json_node(node: JsonNode<'_, '_>) -> Result<FragmentDefinition, AstJsonError> {
        node.check(
            "FragmentDefinition",
            &[
                "description",
                "name",
                "typeCondition",
                "directives",
                "selectionSet",
            ],
        )?;
        Ok(FragmentDefinition {
            description: optional::<NodeStr>(node, "description")?,
            name: member::<Name>(node, "name")?,
            type_condition: member::<NamedTypeForm>(node, "typeCondition")?,
            directives: directives(node)?,
            selection_set: member::<SelectionSetForm>(node, "selectionSet")?,
        })
    }

    fn write_node(&self, mut node: NodeWriter) -> Result<Json, AllocError> {
        node.begin("FragmentDefinition")?;
        node.put_optional::<NodeStr>("description", &self.description)?;
        node.put::<Name>("name", &self.name)?;
        node.put::<NamedTypeForm>("typeCondition", &self.type_condition)?;
        node.put_directives(&self.directives)?;
        node.put::<SelectionSetForm>("selectionSet", &self.selection_set)?;
        Ok(node.into_json())
    }
}
