//! Definitions of directives in AST JSON.
ghost use Rattle.graphql_values.specs.kinds.DirectiveDefinitions.{directive_definition_kind};
ghost use Rattle.graphql_values.specs.trees.DefinitionTrees.{directive_definition_tree};
ghost use Rattle.graphql_ast_json.specs.kinds.DefinitionJson.{IsDirectiveDefinition};
ghost use Rattle.graphql_ast_json.specs.lemmas.DefinitionNodes.{directive_definition_laws};

use crate::ast_json::AstNode;
use crate::members::{list, member, optional, required_list};
use crate::write::NodeWriter;
use ast_json_nodes::JsonNode;
use ast_json_nodes::error::AstJsonError;
use graphql_ast::ast::{DirectiveDefinition, DirectiveLocation, InputValueDefinition};
use graphql_ast::name::Name;
use graphql_base::node::{Node, NodeStr};
use graphql_values::writers::some_want_lines;
use serde_json::Value as Json;
use std::alloc::AllocError;

impl AstNode for DirectiveDefinition {
    ghost Tree = { directive_definition_kind.Tree };

    ghost tree = { directive_definition_tree };

    ghost is_node = { IsDirectiveDefinition };

    ghost laws = { directive_definition_laws };

    fn read_json_node(node: JsonNode<'_, '_>) -> Result<DirectiveDefinition, AstJsonError> {
        node.check(
            "DirectiveDefinition",
            &[
                "description",
                "name",
                "arguments",
                "repeatable",
                "locations",
            ],
        )?;
        Ok(DirectiveDefinition {
            description: optional::<NodeStr>(node, "description")?,
            name: member::<Name>(node, "name")?,
            arguments: list::<Node<InputValueDefinition>>(node, "arguments")?,
            repeatable: node.flag("repeatable")?,
            locations: required_list::<DirectiveLocation>(node, "locations")?,
        })
    }

    fn write_node(&self, mut node: NodeWriter) -> Result<Json, AllocError> {
        node.begin("DirectiveDefinition")?;
        node.put_optional::<NodeStr>("description", &self.description)?;
        node.put::<Name>("name", &self.name)?;
        let over_lines = some_want_lines(&self.arguments);
        node.put_parameters("arguments", &self.arguments, over_lines)?;
        node.put_boolean("repeatable", self.repeatable)?;
        node.put_list::<DirectiveLocation>("locations", &self.locations)?;
        Ok(node.into_json())
    }
}
