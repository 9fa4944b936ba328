//! Lists of directives in AST JSON: arrays.
ghost use Rattle.std.specs.Prelude.{List, None, ⊤};
ghost use Rattle.graphql_values.specs.kinds.Directives.{DirectiveTree};
ghost use Rattle.graphql_values.specs.trees.DirectiveTrees.{directive_trees};
ghost use Rattle.graphql_ast_json.specs.kinds.DirectiveJson.{AreDirectives};
ghost use Rattle.graphql_ast_json.specs.lemmas.DirectiveNodes.{directives_laws};

use crate::ast_json::AstJson;
use crate::members::array;
use crate::write::write_list;
use ast_json_nodes::error::AstJsonError;
use ast_json_nodes::{JsonNode, NodeReader};
use graphql_ast::ast::{Directive, DirectiveList};
use graphql_base::node::Node;
use serde_json::Value as Json;
use std::alloc::{AllocError, Global};

impl AstJson for DirectiveList {
    ghost Tree = { List DirectiveTree };

    ghost tree = { directive_trees };

    ghost is_json_of = { AreDirectives };

    ghost location = { λ _. None };

    ghost stands = { λ _ _. ⊤ };

    ghost laws = { directives_laws };

    fn read_ast_json(node: NodeReader<'_>) -> Result<DirectiveList, AstJsonError> {
        Self::read_json(JsonNode::of(node))
    }

    fn read_json(node: JsonNode<'_, '_>) -> Result<DirectiveList, AstJsonError> {
        Ok(DirectiveList(array::<Node<Directive>>(node)?))
    }

    fn reads_parsed() -> bool {
        true
    }

    fn to_ast_json(&self, alloc: Global) -> Result<Json, AllocError> {
        write_list::<Node<Directive>>(alloc, self.0.as_slice())
    }
}
