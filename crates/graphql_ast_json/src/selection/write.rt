//! Selections and their sets are written.
ghost use Rattle.std.specs.Prelude.{IfOk, IsSomeAnd, MatchOption, None, option_map};
ghost use Rattle.serde_json.specs.Data.{no_items};
ghost use Rattle.serde_json.specs.Find.{as_array};
ghost use Rattle.serde_json.specs.View.{view};
ghost use Rattle.graphql_executable.specs.code.SelectionQueries.{selection_location};
ghost use Rattle.graphql_executable.specs.trees.ExecutableTrees.{field_tree, inline_fragment_tree, selection_tree, selection_trees};
ghost use Rattle.graphql_ast_json.specs.code.Drafts.{location_of};
ghost use Rattle.ast_json_nodes.specs.code.NodeReading.{StandsAt};
ghost use Rattle.ast_json_nodes.specs.declared.read.Unknown.{Unknown};
ghost use Rattle.graphql_ast_json.specs.kinds.ExecutableJson.{AreSelections, IsField, IsInlineFragment, IsSelection, IsSelectionSet};

use crate::ast_json::AstNode;
use crate::form::NamedTypeForm;
use crate::write::NodeWriter;
use graphql_ast::ast::{Argument, Field, InlineFragment, Selection};
use graphql_ast::name::Name;
use graphql_base::node::Node;
use serde_json::{Value as Json, push};
use std::alloc::{AllocError, Global};

/// A selection, at its location if it has one. `AllocError` if an allocation fails.
#[cycle(selection)]
pub(crate) fn write_selection(alloc: Global, selection: &Selection) -> Result<Json, AllocError>
    ensures ok { IfOk result (λ json. (unknown : Unknown)
        → IsSelection unknown (selection_tree selection.now) (view json)) }
    ensures stands { IfOk result (λ json. StandsAt (selection_location selection.now) (view json)) }
{
    match selection {
        Selection::Field(field) => write_field(NodeWriter::new(alloc, field.location()), field),
        Selection::FragmentSpread(spread) => spread.to_ast_json_at(alloc, spread.location()),
        Selection::InlineFragment(fragment) => {
            write_inline_fragment(NodeWriter::new(alloc, fragment.location()), fragment)
        }
    }
}

/// The field as a node. Without selections it has no set.
#[cycle(selection)]
pub(crate) fn write_field(mut node: NodeWriter, field: &Field) -> Result<Json, AllocError>
    ensures ok { IfOk result (λ json. (unknown : Unknown)
        → IsField unknown (field_tree field.now) (view json)) }
    ensures stands { IfOk result (λ json. StandsAt (location_of node) (view json)) }
{
    node.begin("Field")?;
    node.put_optional::<Name>("alias", &field.alias)?;
    node.put::<Name>("name", &field.name)?;
    node.put_list::<Node<Argument>>("arguments", &field.arguments)?;
    node.put_directives(&field.directives)?;
    let set = write_optional_set(node.allocator(), &field.selection_set)?;
    node.put_optional_json("selectionSet", set)?;
    Ok(node.into_json())
}

/// The inline fragment as a node.
#[cycle(selection)]
pub(crate) fn write_inline_fragment(
    mut node: NodeWriter,
    fragment: &InlineFragment,
) -> Result<Json, AllocError>
    ensures ok { IfOk result (λ json. (unknown : Unknown)
        → IsInlineFragment unknown (inline_fragment_tree fragment.now) (view json)) }
    ensures stands { IfOk result (λ json. StandsAt (location_of node) (view json)) }
{
    node.begin("InlineFragment")?;
    node.put_optional::<NamedTypeForm>("typeCondition", &fragment.type_condition)?;
    node.put_directives(&fragment.directives)?;
    let set = write_selection_set(node.allocator(), &fragment.selection_set)?;
    node.put_json("selectionSet", set)?;
    Ok(node.into_json())
}

/// A selection set, if there is a selection.
#[cycle(selection)]
fn write_optional_set(alloc: Global, selections: &[Selection]) -> Result<Option<Json>, AllocError>
    ensures { IfOk result (λ set. (unknown : Unknown) → MatchOption (option_map view set)
        (AreSelections unknown (selection_trees selections.now) no_items)
        (IsSelectionSet unknown (selection_trees selections.now))) }
{
    if selections.is_empty() {
        return Ok(None);
    }
    Ok(Some(write_selection_set(alloc, selections)?))
}

/// A selection set, which has no location of its own.
#[cycle(selection)]
pub(crate) fn write_selection_set(
    alloc: Global,
    selections: &[Selection],
) -> Result<Json, AllocError>
    ensures ok { IfOk result (λ json. (unknown : Unknown)
        → IsSelectionSet unknown (selection_trees selections.now) (view json)) }
    ensures stands { IfOk result (λ json. StandsAt None (view json)) }
{
    let list = write_selections(alloc, selections)?;
    NodeWriter::new(alloc, None).with_member("SelectionSet", "selections", list)
}

#[cycle(selection)]
fn write_selections(alloc: Global, selections: &[Selection]) -> Result<Json, AllocError>
    ensures { IfOk result (λ json. (unknown : Unknown) → IsSomeAnd (as_array (view json))
        (AreSelections unknown (selection_trees selections.now))) }
{
    let mut list = Vec::new(alloc);
    for selection in selections {
        let json = write_selection(alloc, selection)?;
        push(&mut list, json)?;
    }
    Ok(Json::Array(list))
}
