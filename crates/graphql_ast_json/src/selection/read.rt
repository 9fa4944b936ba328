//! Selections and their sets from AST JSON.
ghost use Rattle.std.specs.Prelude.{◌≡◌, ◌≢◌, ◌<◌, ◌+◌, [], ◌∷◌, IfOk, IfErr, OnOk, Some, codes, option_and_then};
ghost use Rattle.serde_json.specs.Data.{depth, items_depth, string};
ghost use Rattle.serde_json.specs.Find.{as_array};
ghost use Rattle.graphql_executable.specs.code.SelectionQueries.{selection_location};
ghost use Rattle.graphql_executable.specs.trees.ExecutableTrees.{field_tree, inline_fragment_tree, selection_tree, selection_trees};
ghost use Rattle.graphql_executable.specs.kinds.Fields.{FieldTree};
ghost use Rattle.graphql_executable.specs.kinds.InlineFragments.{InlineFragmentTree};
ghost use Rattle.graphql_executable.specs.kinds.Selections.{SelectionTree, SelectionTrees, field_selection, inline_selection};
ghost use Rattle.parsed_json.specs.AnyJson.{items_data};
ghost use Rattle.ast_json_nodes.specs.code.Errors.{IsMemory};
ghost use Rattle.ast_json_nodes.specs.code.JsonNodes.{node_data, IsFromNone, IsReadFrom};
ghost use Rattle.graphql_ast_json.specs.code.Nesting.{field_head_tree, inline_fragment_head_tree};
ghost use Rattle.ast_json_nodes.specs.code.NodeReading.{IsInFile, StandsAt};
ghost use Rattle.graphql_ast_json.specs.kinds.ExecutableJson.{AreSelections, HasFieldHead, HasInlineFragmentHead, HasOptionalSetOf, HasSetOf};
ghost use Rattle.graphql_ast_json.specs.kinds.ExecutableJson.{IsField, IsInlineFragment, IsSelection, IsSelectionSet};
ghost use Rattle.graphql_ast_json.specs.kinds.ExecutableJson.{field_members, inline_fragment_members};
ghost use Rattle.ast_json_nodes.specs.nodes.Nodes.{IsLocated, IsNode, member_of};

use crate::ast_json::{AstNode, node_at};
use crate::form::NamedTypeForm;
use crate::members::{directives, list, member, optional};
use ast_json_nodes::error::AstJsonError;
use ast_json_nodes::{JsonNode, find_member};
use graphql_ast::ast::{Argument, DirectiveList, Field, FragmentSpread, InlineFragment, Selection};
use graphql_ast::name::{Name, NamedType};
use graphql_base::node::Node;
use graphql_base::span::SourceSpan;
use parsed_json::AnyItems;
use std::alloc::Global;

/// What stands before the set of a field.
#[derive(Drop)]
struct FieldHead {
    alias: Option<Name>,
    name: Name,
    arguments: Vec<Node<Argument>>,
    directives: DirectiveList,
}

/// What stands before the set of an inline fragment.
#[derive(Drop)]
struct InlineFragmentHead {
    type_condition: Option<NamedType>,
    directives: DirectiveList,
}

// What leads to no other selection has a frame of its own, so that the frames of selections in one another are small.

/// What stands before the set in a field.
#[inline(never)]
fn field_head(node: JsonNode<'_, '_>) -> Result<FieldHead, AstJsonError>
    requires { IsLocated node.unknown (node_data node) }
    ensures node { OnOk result
        (IsNode node.entry.unknown (codes "Field") field_members (node_data node.entry)) }
    ensures head { IfOk result (λ head.
        HasFieldHead node.entry.unknown (field_head_tree head) (node_data node.entry)) }
    ensures err { IfErr result (λ error. ¬ IsMemory error → IsFromNone IsField node.entry) }
{
    node.check(
        "Field",
        &["alias", "name", "arguments", "directives", "selectionSet"],
    )?;
    Ok(FieldHead {
        alias: optional::<Name>(node, "alias")?,
        name: member::<Name>(node, "name")?,
        arguments: list::<Node<Argument>>(node, "arguments")?,
        directives: directives(node)?,
    })
}

/// What stands before the set in an inline fragment.
#[inline(never)]
fn inline_fragment_head(node: JsonNode<'_, '_>) -> Result<InlineFragmentHead, AstJsonError>
    requires { IsLocated node.unknown (node_data node) }
    ensures node { OnOk result (IsNode node.entry.unknown (codes "InlineFragment")
        inline_fragment_members (node_data node.entry)) }
    ensures head { IfOk result (λ head. HasInlineFragmentHead node.entry.unknown
        (inline_fragment_head_tree head) (node_data node.entry)) }
    ensures err { IfErr result (λ error. ¬ IsMemory error
        → IsFromNone IsInlineFragment node.entry) }
{
    node.check(
        "InlineFragment",
        &["typeCondition", "directives", "selectionSet"],
    )?;
    Ok(InlineFragmentHead {
        type_condition: optional::<NamedTypeForm>(node, "typeCondition")?,
        directives: directives(node)?,
    })
}

/// The items of a selection set. Where the set itself stands is tested and left out.
#[inline(never)]
fn set_items<'j, 't>(node: JsonNode<'j, 't>) -> Result<AnyItems<'j, 't>, AstJsonError>
    ensures node { OnOk result (IsNode node.entry.unknown (codes "SelectionSet")
        (codes "selections" ∷ []) (node_data node.entry)) }
    ensures items { IfOk result (λ items. option_and_then as_array
        (member_of (codes "selections") (node_data node.entry)) ≡ Some (items_data items)) }
    ensures inside { IfOk result (λ items.
        items_depth (items_data items) + 1 < depth (node_data node.entry)) }
    ensures err { IfErr result (λ error. ¬ IsMemory error → IsFromNone IsSelectionSet node.entry) }
{
    node.location()?;
    node.check("SelectionSet", &["selections"])?;
    node.items("selections")
}

/// The field with this set, where it stands.
#[inline(never)]
fn field_with(
    alloc: Global,
    location: Option<SourceSpan>,
    head: FieldHead,
    selection_set: Vec<Selection>,
) -> Result<Selection, AstJsonError>
    ensures tree { IfOk result (λ selection. selection_tree selection
        ≡ field_selection (field_head_tree head) (selection_trees selection_set.items)) }
    ensures location { IfOk result (λ selection. selection_location selection ≡ location) }
    ensures err { IfErr result IsMemory }
{
    let field = Field {
        alias: head.alias,
        name: head.name,
        arguments: head.arguments,
        directives: head.directives,
        selection_set,
    };
    Ok(Selection::Field(node_at(alloc, location, field)?))
}

/// The inline fragment with this set, where it stands.
#[inline(never)]
fn inline_fragment_with(
    alloc: Global,
    location: Option<SourceSpan>,
    head: InlineFragmentHead,
    selection_set: Vec<Selection>,
) -> Result<Selection, AstJsonError>
    ensures tree { IfOk result (λ selection. selection_tree selection
        ≡ inline_selection (inline_fragment_head_tree head)
        (selection_trees selection_set.items)) }
    ensures location { IfOk result (λ selection. selection_location selection ≡ location) }
    ensures err { IfErr result IsMemory }
{
    let fragment = InlineFragment {
        type_condition: head.type_condition,
        directives: head.directives,
        selection_set,
    };
    Ok(Selection::InlineFragment(node_at(alloc, location, fragment)?))
}

/// The selection of this kind that has no set, if it is one.
#[inline(never)]
fn leaf(
    node: JsonNode<'_, '_>,
    location: Option<SourceSpan>,
    kind: &str,
) -> Result<Selection, AstJsonError>
    requires located { IsLocated node.unknown (node_data node) }
    requires kind { member_of (codes "kind") (node_data node) ≡ Some (string kind.now) }
    requires field { kind.now ≢ codes "Field" }
    requires inline_fragment { kind.now ≢ codes "InlineFragment" }
    ensures ok { IfOk result (λ selection.
        IsReadFrom IsSelection node.entry (selection_tree selection)) }
    ensures location { IfOk result (λ selection. selection_location selection ≡ location) }
    ensures err { IfErr result (λ error. ¬ IsMemory error → IsFromNone IsSelection node.entry) }
{
    match kind {
        "FragmentSpread" => {
            let spread = FragmentSpread::read_json_node(node)?;
            Ok(Selection::FragmentSpread(node_at(node.alloc, location, spread)?))
        }
        _ => Err(node.wrong_kind(kind, "a selection")),
    }
}

/// The field that a node is of, whose location was read.
pub(crate) fn read_field(node: JsonNode<'_, '_>) -> Result<Field, AstJsonError>
    requires { IsLocated node.unknown (node_data node) }
    ensures ok { IfOk result (λ field. IsReadFrom IsField node.entry (field_tree field)) }
    ensures err { IfErr result (λ error. ¬ IsMemory error → IsFromNone IsField node.entry) }
{
    let head = field_head(node)?;
    let selection_set = optional_set(node)?;
    Ok(Field {
        alias: head.alias,
        name: head.name,
        arguments: head.arguments,
        directives: head.directives,
        selection_set,
    })
}

/// The inline fragment that a node is of, whose location was read.
pub(crate) fn read_inline_fragment(node: JsonNode<'_, '_>) -> Result<InlineFragment, AstJsonError>
    requires { IsLocated node.unknown (node_data node) }
    ensures ok { IfOk result (λ fragment.
        IsReadFrom IsInlineFragment node.entry (inline_fragment_tree fragment)) }
    ensures err { IfErr result (λ error. ¬ IsMemory error
        → IsFromNone IsInlineFragment node.entry) }
{
    let head = inline_fragment_head(node)?;
    let selection_set = required_set(node)?;
    Ok(InlineFragment {
        type_condition: head.type_condition,
        directives: head.directives,
        selection_set,
    })
}

/// The selection that a node is of, which stands where the node does.
#[cycle(selection)]
pub(crate) fn read_selection(node: JsonNode<'_, '_>) -> Result<Selection, AstJsonError>
    ensures ok { IfOk result (λ selection.
        IsReadFrom IsSelection node.entry (selection_tree selection)) }
    ensures stands { IfOk result (λ selection.
        StandsAt (selection_location selection) (node_data node.entry)) }
    ensures file { IfOk result (λ selection.
        IsInFile node.entry.source (selection_location selection)) }
    ensures err { IfErr result (λ error. ¬ IsMemory error → IsFromNone IsSelection node.entry) }
{
    let (location, kind) = node.located_kind()?;
    match kind {
        "Field" => field(node, location),
        "InlineFragment" => inline_fragment(node, location),
        _ => leaf(node, location, kind),
    }
}

/// The field that a node is of, as a selection that stands there.
#[cycle(selection)]
#[inline(never)]
fn field(node: JsonNode<'_, '_>, location: Option<SourceSpan>) -> Result<Selection, AstJsonError>
    requires { IsLocated node.unknown (node_data node) }
    ensures ok { IfOk result (λ selection.
        IsReadFrom IsSelection node.entry (selection_tree selection)) }
    ensures location { IfOk result (λ selection. selection_location selection ≡ location) }
    ensures err { IfErr result (λ error. ¬ IsMemory error → IsFromNone IsField node.entry) }
{
    let head = field_head(node)?;
    let selection_set = optional_set(node)?;
    field_with(node.alloc, location, head, selection_set)
}

/// The inline fragment that a node is of, as a selection that stands there.
#[cycle(selection)]
#[inline(never)]
fn inline_fragment(
    node: JsonNode<'_, '_>,
    location: Option<SourceSpan>,
) -> Result<Selection, AstJsonError>
    requires { IsLocated node.unknown (node_data node) }
    ensures ok { IfOk result (λ selection.
        IsReadFrom IsSelection node.entry (selection_tree selection)) }
    ensures location { IfOk result (λ selection. selection_location selection ≡ location) }
    ensures err { IfErr result (λ error. ¬ IsMemory error
        → IsFromNone IsInlineFragment node.entry) }
{
    let head = inline_fragment_head(node)?;
    let selection_set = required_set(node)?;
    inline_fragment_with(node.alloc, location, head, selection_set)
}

/// The selections of the set that the node has, or none where it has no set.
#[cycle(selection)]
fn optional_set(node: JsonNode<'_, '_>) -> Result<Vec<Selection>, AstJsonError>
    ensures ok { IfOk result (λ set. HasOptionalSetOf node.entry.unknown
        (AreSelections node.entry.unknown (selection_trees set.items)) (node_data node.entry)) }
    ensures err { IfErr result (λ error. ¬ IsMemory error → (set : SelectionTrees)
        → ¬ HasOptionalSetOf node.entry.unknown (AreSelections node.entry.unknown set)
        (node_data node.entry)) }
{
    match find_member(node.json, "selectionSet") {
        None => Ok(Vec::new(node.alloc)),
        Some(json) => {
            node.told_within(
                "selectionSet",
                read_selection_set(JsonNode { json, ..node }),
            )
        }
    }
}

/// The selections of the set that the node must have.
#[cycle(selection)]
fn required_set(node: JsonNode<'_, '_>) -> Result<Vec<Selection>, AstJsonError>
    ensures ok { IfOk result (λ set. HasSetOf node.entry.unknown
        (AreSelections node.entry.unknown (selection_trees set.items)) (node_data node.entry)) }
    ensures err { IfErr result (λ error. ¬ IsMemory error → (set : SelectionTrees)
        → ¬ HasSetOf node.entry.unknown (AreSelections node.entry.unknown set)
        (node_data node.entry)) }
{
    let json = node.required("selectionSet")?;
    node.told_within(
        "selectionSet",
        read_selection_set(JsonNode { json, ..node }),
    )
}

/// The selections of a set. Where the set itself stands is tested and left out.
#[cycle(selection)]
pub(crate) fn read_selection_set(node: JsonNode<'_, '_>) -> Result<Vec<Selection>, AstJsonError>
    ensures ok { IfOk result (λ set.
        IsReadFrom IsSelectionSet node.entry (selection_trees set.items)) }
    ensures err { IfErr result (λ error. ¬ IsMemory error → IsFromNone IsSelectionSet node.entry) }
{
    let items = set_items(node)?;
    node.told_within("selections", selections(node, items))
}

#[cycle(selection)]
fn selections(
    node: JsonNode<'_, '_>,
    items: AnyItems<'_, '_>,
) -> Result<Vec<Selection>, AstJsonError>
    ensures ok { IfOk result (λ selections.
        AreSelections node.entry.unknown (selection_trees selections.items)
        (items_data items.entry)) }
    ensures err { IfErr result (λ error. ¬ IsMemory error → (trees : SelectionTrees)
        → ¬ AreSelections node.entry.unknown trees (items_data items.entry)) }
{
    let mut selections = Vec::with_capacity(node.alloc, items.len())?;
    for index in 0..items.len() {
        let json = items.at(index);
        match read_selection(JsonNode { json, ..node }) {
            Ok(selection) => selections.push(selection)?,
            Err(error) => return Err(error.in_item(node.alloc, index)),
        }
    }
    Ok(selections)
}
