//! Fragment spreads in AST JSON.
ghost use Rattle.graphql_executable.specs.kinds.FragmentSpreads.{FragmentSpreadTree};
ghost use Rattle.graphql_executable.specs.trees.ExecutableTrees.{fragment_spread_tree};
ghost use Rattle.graphql_ast_json.specs.kinds.ExecutableJson.{IsFragmentSpread};
ghost use Rattle.graphql_ast_json.specs.lemmas.ExecutableNodes.{fragment_spread_laws};

use crate::ast_json::AstNode;
use crate::members::{directives, member};
use crate::write::NodeWriter;
use ast_json_nodes::JsonNode;
use ast_json_nodes::error::AstJsonError;
use graphql_ast::ast::FragmentSpread;
use graphql_ast::name::Name;
use serde_json::Value as Json;
use std::alloc::AllocError;

impl AstNode for FragmentSpread {
    ghost Tree = { FragmentSpreadTree };

    ghost tree = { fragment_spread_tree };

    ghost is_node = { IsFragmentSpread };

    ghost laws = { fragment_spread_laws };

    fn read_json_node(node: JsonNode<'_, '_>) -> Result<FragmentSpread, AstJsonError> {
        node.check("FragmentSpread", &["name", "directives"])?;
        Ok(FragmentSpread {
            fragment_name: member::<Name>(node, "name")?,
            directives: directives(node)?,
        })
    }

    fn write_node(&self, mut node: NodeWriter) -> Result<Json, AllocError> {
        node.begin("FragmentSpread")?;
        node.put::<Name>("name", &self.fragment_name)?;
        node.put_directives(&self.directives)?;
        Ok(node.into_json())
    }
}
