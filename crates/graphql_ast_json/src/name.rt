//! Names in AST JSON: nodes of the kind `Name`.
ghost use Rattle.std.specs.Prelude.{◌≡◌, IfOk, IfErr, IfSome, None, Some, codes, length, option_map};
ghost use Rattle.graphql_base.specs.Name.{name_location, name_text};
ghost use Rattle.graphql_text.specs.trees.Leaves.{name_tree};
ghost use Rattle.graphql_text.specs.lexical.Literals.{NameText};
ghost use Rattle.ast_json_nodes.specs.code.Errors.{IsMemory};
ghost use Rattle.ast_json_nodes.specs.code.JsonNodes.{node_data};
ghost use Rattle.ast_json_nodes.specs.code.NodeReading.{IsTextNode, NameStandsAt, stretch_of};
ghost use Rattle.ast_json_nodes.specs.code.ToldErrors.{IsToldOfText};
ghost use Rattle.graphql_ast_json.specs.lemmas.Leaves.{json_laws, name_laws};
ghost use Rattle.ast_json_nodes.specs.nodes.Nodes.{IsLocated, IsName, as_long_as};

use crate::ast_json::AstJson;
use crate::write::NodeWriter;
use ast_json_nodes::error::AstJsonError;
use ast_json_nodes::{JsonNode, NodeReader};
use graphql_ast::name::Name;
use graphql_base::span::SourceSpan;
use serde_json::Value as Json;
use std::alloc::{AllocError, Global};

/// The name that a node of this kind is.
pub(crate) fn name_of_kind(node: JsonNode<'_, '_>, kind: &str) -> Result<Name, AstJsonError>
    requires { IsLocated node.unknown (node_data node) }
    ensures ok { IfOk result (λ name.
        IsTextNode node.entry.unknown kind.now (name_tree name).text (node_data node.entry)) }
    ensures new { IfOk result (λ name. name_location name ≡ None) }
    ensures err { IfErr result (λ error. ¬ IsMemory error → (name : NameText)
        → ¬ IsTextNode node.entry.unknown kind.now name.text (node_data node.entry)) }
    ensures told { IfErr result (λ error. ¬ IsMemory error
        → IsToldOfText node.entry kind.now (codes "a name") error) }
{
    let text = node.text_of_kind(kind)?;
    if Name::is_valid_syntax(text) {
        Ok(Name::compact_unchecked(node.alloc, text)?)
    } else {
        Err(node.wrong_text("value", text, "a name"))
    }
}

/// The name, at this location if it is as long as the name: a program that renames may leave the old one.
#[tactic(auto, using(crate::proofs::nodes::NameLocations::fits, crate::proofs::nodes::NameLocations::unfit))]
fn name_at(name: Name, location: Option<SourceSpan>) -> Name
    requires { name_location name ≡ None }
    ensures text { name_text result ≡ name_text name }
    ensures stands { option_map stretch_of (name_location result)
        ≡ as_long_as (length (name_text name)) (option_map stretch_of location) }
    ensures no_other { IfSome (name_location result) (λ span. location ≡ Some span) }
{
    match location {
        Some(span) => {
            if span.len() as usize == name.len() {
                name.with_location(span)
            } else {
                name
            }
        }
        None => name,
    }
}

/// A name has a location only where that is as long as the name.
impl AstJson for Name {
    ghost Tree = { NameText };

    ghost tree = { name_tree };

    ghost is_json_of = { IsName };

    ghost location = { name_location };

    ghost stands = { NameStandsAt };

    ghost laws = { json_laws name_laws };

    fn read_ast_json(node: NodeReader<'_>) -> Result<Name, AstJsonError> {
        Self::read_json(JsonNode::of(node))
    }

    fn read_json(node: JsonNode<'_, '_>) -> Result<Name, AstJsonError> {
        let location = node.location()?;
        let name = name_of_kind(node, "Name")?;
        Ok(name_at(name, location))
    }

    fn reads_parsed() -> bool {
        true
    }

    fn to_ast_json(&self, alloc: Global) -> Result<Json, AllocError> {
        NodeWriter::new(alloc, self.location()).with_text("Name", self.as_str())
    }
}
