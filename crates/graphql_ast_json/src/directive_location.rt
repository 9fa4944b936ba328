//! Directive locations in AST JSON: nodes of the kind `Name`.
ghost use Rattle.std.specs.Prelude.{◌≡◌, IfSome, IsNone};
ghost use Rattle.graphql_values.specs.kinds.DirectiveLocations.{DirectiveLocationTree, location_name};
ghost use Rattle.graphql_values.specs.trees.LocationTrees.{location_tree};
ghost use Rattle.graphql_ast_json.specs.kinds.DefinitionJson.{IsDirectiveLocation};
ghost use Rattle.graphql_ast_json.specs.lemmas.DefinitionNodes.{location_laws};

use crate::ast_json::AstNode;
use crate::write::NodeWriter;
use ast_json_nodes::JsonNode;
use ast_json_nodes::error::AstJsonError;
use graphql_ast::ast::DirectiveLocation;
use serde_json::Value as Json;
use std::alloc::AllocError;

/// The directive location whose word in the grammar the text is.
fn location_named(text: &str) -> Option<DirectiveLocation>
    ensures some { IfSome result (λ location. text.now ≡ location_name (location_tree location)) }
    ensures none { IsNone result
        → (tree : DirectiveLocationTree) → ¬ (text.now ≡ location_name tree) }
{
    match text {
        "QUERY" => Some(DirectiveLocation::Query),
        "MUTATION" => Some(DirectiveLocation::Mutation),
        "SUBSCRIPTION" => Some(DirectiveLocation::Subscription),
        "FIELD" => Some(DirectiveLocation::Field),
        "FRAGMENT_DEFINITION" => Some(DirectiveLocation::FragmentDefinition),
        "FRAGMENT_SPREAD" => Some(DirectiveLocation::FragmentSpread),
        "INLINE_FRAGMENT" => Some(DirectiveLocation::InlineFragment),
        "VARIABLE_DEFINITION" => Some(DirectiveLocation::VariableDefinition),
        "SCHEMA" => Some(DirectiveLocation::Schema),
        "SCALAR" => Some(DirectiveLocation::Scalar),
        "OBJECT" => Some(DirectiveLocation::Object),
        "FIELD_DEFINITION" => Some(DirectiveLocation::FieldDefinition),
        "ARGUMENT_DEFINITION" => Some(DirectiveLocation::ArgumentDefinition),
        "INTERFACE" => Some(DirectiveLocation::Interface),
        "UNION" => Some(DirectiveLocation::Union),
        "ENUM" => Some(DirectiveLocation::Enum),
        "ENUM_VALUE" => Some(DirectiveLocation::EnumValue),
        "INPUT_OBJECT" => Some(DirectiveLocation::InputObject),
        "INPUT_FIELD_DEFINITION" => Some(DirectiveLocation::InputFieldDefinition),
        _ => None,
    }
}

/// Where a directive location stands is tested and left out.
impl AstNode for DirectiveLocation {
    ghost Tree = { DirectiveLocationTree };

    ghost tree = { location_tree };

    ghost is_node = { IsDirectiveLocation };

    ghost laws = { location_laws };

    fn read_json_node(node: JsonNode<'_, '_>) -> Result<DirectiveLocation, AstJsonError> {
        let text = node.text_of_kind("Name")?;
        match location_named(text) {
            Some(location) => Ok(location),
            None => Err(node.wrong_text("value", text, "a directive location")),
        }
    }

    fn write_node(&self, node: NodeWriter) -> Result<Json, AllocError> {
        node.with_text("Name", self.name())
    }
}
