//! Strings in AST JSON: nodes of the kind `StringValue`, as descriptions are.
ghost use Rattle.std.specs.Prelude.{◌≡◌, ℕ, List, IfOk, IfErr, None, Some, codes, encode_utf8_all, if◌then◌else◌, true};
ghost use Rattle.serde_json.specs.Data.{boolean};
ghost use Rattle.serde_json.specs.View.{view};
ghost use Rattle.graphql_base.specs.Node.{IsNodeStrAt, node_str_location};
ghost use Rattle.graphql_text.specs.trees.Leaves.{description_tree};
ghost use Rattle.graphql_text.specs.lexical.Literals.{StringText};
ghost use Rattle.graphql_ast_json.specs.code.Drafts.{location_of};
ghost use Rattle.ast_json_nodes.specs.code.Errors.{IsMemory};
ghost use Rattle.ast_json_nodes.specs.code.JsonNodes.{node_data, IsReadFrom};
ghost use Rattle.ast_json_nodes.specs.code.NodeReading.{IsStringOf, StandsAt};
ghost use Rattle.ast_json_nodes.specs.code.ToldErrors.{IsToldOfString};
ghost use Rattle.ast_json_nodes.specs.declared.read.Unknown.{Unknown};
ghost use Rattle.graphql_ast_json.specs.lemmas.Leaves.{json_laws, string_laws};
ghost use Rattle.ast_json_nodes.specs.nodes.Nodes.{IsLocated, IsStringValue, member_of};

use crate::ast_json::AstJson;
use crate::write::NodeWriter;
use ast_json_nodes::error::AstJsonError;
use ast_json_nodes::{JsonNode, NodeReader};
use graphql_base::node::NodeStr;
use graphql_base::span::SourceSpan;
use graphql_text::writers::can_be_block;
use serde_json::Value as Json;
use std::alloc::{AllocError, Global};

/// The text of the string that a node is.
pub(crate) fn string_text<'j>(node: JsonNode<'j, '_>) -> Result<&'j str, AstJsonError>
    requires { IsLocated node.unknown (node_data node) }
    ensures ok { IfOk result (λ text. IsReadFrom IsStringOf node.entry text.now) }
    ensures err { IfErr result (λ error. ¬ IsMemory error
        → (text : List ℕ) → ¬ IsReadFrom IsStringOf node.entry text) }
    ensures told { IfErr result (λ error. ¬ IsMemory error → IsToldOfString node.entry error) }
{
    node.check("StringValue", &["value", "block"])?;
    let text = node.text("value")?;
    node.check_optional_boolean("block")?;
    Ok(text)
}

/// A copy of the text, at its location if it has one.
fn text_at(alloc: Global, location: Option<SourceSpan>, text: &str) -> Result<NodeStr, AllocError>
    ensures { IfOk result (IsNodeStrAt location text.now) }
{
    match location {
        Some(span) => NodeStr::new_str_parsed(alloc, text, span),
        None => NodeStr::new_str(alloc, text),
    }
}

/// Whether the default layout prints the value of this text, which a node is, as a block string.
pub(crate) fn is_block_value(node: &NodeWriter, text: &str) -> bool {
    !node.is_on_one_line() && text.as_bytes().contains(&b'\n') && can_be_block(text)
}

/// The node of a string of these characters, which tells `block` where it is one.
pub(crate) fn write_string(
    mut node: NodeWriter,
    text: &str,
    is_block: bool,
) -> Result<Json, AllocError>
    ensures ok { IfOk result (λ json. (unknown : Unknown) (string : StringText)
        → encode_utf8_all string.text ≡ text.now → IsStringValue unknown string (view json)) }
    ensures block { IfOk result (λ json. member_of (codes "block") (view json)
        ≡ (if is_block then Some (boolean true) else None)) }
    ensures stands { IfOk result (λ json. StandsAt (location_of node) (view json)) }
{
    node.begin("StringValue")?;
    node.put_text("value", text)?;
    node.put_flag("block", is_block)?;
    Ok(node.into_json())
}

impl AstJson for NodeStr {
    ghost Tree = { StringText };

    ghost tree = { description_tree };

    ghost is_json_of = { IsStringValue };

    ghost location = { node_str_location };

    ghost stands = { λ text. StandsAt (node_str_location text) };

    ghost laws = { json_laws string_laws };

    /// The text, at its location if the JSON tells one.
    fn read_ast_json(node: NodeReader<'_>) -> Result<NodeStr, AstJsonError> {
        Self::read_json(JsonNode::of(node))
    }

    fn read_json(node: JsonNode<'_, '_>) -> Result<NodeStr, AstJsonError> {
        let location = node.location()?;
        let text = string_text(node)?;
        Ok(text_at(node.alloc, location, text)?)
    }

    fn reads_parsed() -> bool {
        true
    }

    /// The text tells `block` exactly where the default layout prints the description as a block string.
    fn to_ast_json(&self, alloc: Global) -> Result<Json, AllocError> {
        let text = self.as_str();
        write_string(
            NodeWriter::new(alloc, self.location()),
            text,
            can_be_block(text),
        )
    }
}
