//! Selections in AST JSON: a field, a fragment spread or an inline fragment, whose location is that of its node.
ghost use Rattle.graphql_executable.specs.code.SelectionQueries.{selection_location};
ghost use Rattle.graphql_executable.specs.trees.ExecutableTrees.{field_tree, inline_fragment_tree, selection_tree};
ghost use Rattle.graphql_executable.specs.kinds.Fields.{FieldTree};
ghost use Rattle.graphql_executable.specs.kinds.InlineFragments.{InlineFragmentTree};
ghost use Rattle.graphql_executable.specs.kinds.Selections.{SelectionTree};
ghost use Rattle.ast_json_nodes.specs.code.NodeReading.{StandsAt};
ghost use Rattle.graphql_ast_json.specs.kinds.ExecutableJson.{IsField, IsInlineFragment, IsSelection};
ghost use Rattle.graphql_ast_json.specs.lemmas.ExecutableNodes.{field_laws, inline_fragment_laws, selection_laws};
ghost use Rattle.graphql_ast_json.specs.lemmas.Leaves.{json_laws};

pub(crate) mod read;
pub(crate) mod write;

use crate::ast_json::{AstJson, AstNode};
use crate::write::NodeWriter;
use ast_json_nodes::error::AstJsonError;
use ast_json_nodes::{JsonNode, NodeReader};
use graphql_ast::ast::{Field, InlineFragment, Selection};
use read::{read_field, read_inline_fragment, read_selection};
use serde_json::Value as Json;
use std::alloc::{AllocError, Global};
use write::{write_field, write_inline_fragment, write_selection};

impl AstJson for Selection {
    ghost Tree = { SelectionTree };

    ghost tree = { selection_tree };

    ghost is_json_of = { IsSelection };

    ghost location = { selection_location };

    ghost stands = { λ selection. StandsAt (selection_location selection) };

    ghost laws = { json_laws selection_laws };

    fn read_ast_json(node: NodeReader<'_>) -> Result<Selection, AstJsonError> {
        Self::read_json(JsonNode::of(node))
    }

    fn read_json(node: JsonNode<'_, '_>) -> Result<Selection, AstJsonError> {
        read_selection(node)
    }

    fn reads_parsed() -> bool {
        true
    }

    fn to_ast_json(&self, alloc: Global) -> Result<Json, AllocError> {
        write_selection(alloc, self)
    }
}

impl AstNode for Field {
    ghost Tree = { FieldTree };

    ghost tree = { field_tree };

    ghost is_node = { IsField };

    ghost laws = { field_laws };

    fn read_json_node(node: JsonNode<'_, '_>) -> Result<Field, AstJsonError> {
        read_field(node)
    }

    fn write_node(&self, node: NodeWriter) -> Result<Json, AllocError> {
        write_field(node, self)
    }
}

impl AstNode for InlineFragment {
    ghost Tree = { InlineFragmentTree };

    ghost tree = { inline_fragment_tree };

    ghost is_node = { IsInlineFragment };

    ghost laws = { inline_fragment_laws };

    fn read_json_node(node: JsonNode<'_, '_>) -> Result<InlineFragment, AstJsonError> {
        read_inline_fragment(node)
    }

    fn write_node(&self, node: NodeWriter) -> Result<Json, AllocError> {
        write_inline_fragment(node, self)
    }
}
