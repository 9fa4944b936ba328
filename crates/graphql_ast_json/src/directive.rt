//! Directives in AST JSON.
ghost use Rattle.graphql_values.specs.kinds.Directives.{DirectiveTree};
ghost use Rattle.graphql_values.specs.trees.DirectiveTrees.{directive_tree};
ghost use Rattle.graphql_ast_json.specs.kinds.DirectiveJson.{IsDirective};
ghost use Rattle.graphql_ast_json.specs.lemmas.DirectiveNodes.{directive_laws};

use crate::ast_json::AstNode;
use crate::members::{list, member};
use crate::write::NodeWriter;
use ast_json_nodes::JsonNode;
use ast_json_nodes::error::AstJsonError;
use graphql_ast::ast::{Argument, Directive};
use graphql_ast::name::Name;
use graphql_base::node::Node;
use serde_json::Value as Json;
use std::alloc::AllocError;

impl AstNode for Directive {
    ghost Tree = { DirectiveTree };

    ghost tree = { directive_tree };

    ghost is_node = { IsDirective };

    ghost laws = { directive_laws };

    fn read_json_node(node: JsonNode<'_, '_>) -> Result<Directive, AstJsonError> {
        node.check("Directive", &["name", "arguments"])?;
        Ok(Directive {
            name: member::<Name>(node, "name")?,
            arguments: list::<Node<Argument>>(node, "arguments")?,
        })
    }

    fn write_node(&self, mut node: NodeWriter) -> Result<Json, AllocError> {
        node.begin("Directive")?;
        node.put::<Name>("name", &self.name)?;
        node.put_list::<Node<Argument>>("arguments", &self.arguments)?;
        Ok(node.into_json())
    }
}
