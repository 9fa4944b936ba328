//! Selections and their sets as the text of their AST JSON.
ghost use Rattle.std.specs.Prelude.{[], IsSomeAnd, MatchOption, codes};
ghost use Rattle.serde_json.specs.Data.{no_items};
ghost use Rattle.serde_json.specs.Find.{as_array};
ghost use Rattle.graphql_executable.specs.code.SelectionQueries.{selection_location};
ghost use Rattle.graphql_executable.specs.trees.ExecutableTrees.{field_tree, inline_fragment_tree, selection_tree, selection_trees};
ghost use Rattle.ast_json_nodes.specs.code.NodeReading.{StandsAt};
ghost use Rattle.ast_json_nodes.specs.declared.read.Unknown.{Unknown};
ghost use Rattle.graphql_ast_json.specs.kinds.ExecutableJson.{AreSelections, IsField, IsInlineFragment, IsSelection, IsSelectionSet};
ghost use Rattle.json_text.specs.Texts.{WritesJson};
ghost use Rattle.ast_json_text.specs.Members.{WritesOptional};

use crate::context::NodeContext;
use crate::form::NamedTypeForm;
use crate::text::{WriteAstJson, WriteAstNode};
use crate::write::{
    write_directives, write_leading, write_list, write_location, write_member, write_optional,
};
use graphql_ast::ast::{Argument, Field, InlineFragment, Selection};
use graphql_ast::name::Name;
use graphql_base::node::Node;
use graphql_base::span::SourceSpan;
use graphql_text::writers::Target;
use json_text::write_comma;

/// Writes a selection, at its location if it has one.
#[cycle(selection)]
pub(crate) fn write_selection<O: Target>(out: &mut O, selection: &Selection)
    ensures { WritesJson O.wrote out.old out.new (λ json.
        ((unknown : Unknown) → IsSelection unknown (selection_tree selection.now) json)
        × StandsAt (selection_location selection.now) json) }
{
    match selection {
        Selection::Field(field) => write_field(out, field.location(), field),
        Selection::FragmentSpread(spread) => spread.write_ast_json(out),
        Selection::InlineFragment(fragment) => {
            write_inline_fragment(out, fragment.location(), fragment);
        }
    }
}

/// Writes the field as a node. Without selections it has no set.
#[cycle(selection)]
pub(crate) fn write_field<O: Target>(out: &mut O, location: Option<SourceSpan>, field: &Field)
    ensures { WritesJson O.wrote out.old out.new (λ json.
        ((unknown : Unknown) → IsField unknown (field_tree field.now) json)
        × StandsAt location json) }
{
    out.text("{");
    write_leading::<Name, O>(out, "\"alias\":", &field.alias);
    write_list::<Node<Argument>, O>(out, "\"arguments\":", &field.arguments);
    write_directives(out, ",\"directives\":", &field.directives);
    out.text(",\"kind\":\"Field\"");
    write_location(out, location);
    write_member::<Name, O>(out, ",\"name\":", &field.name);
    write_optional_set(out, &field.selection_set);
    out.text("}");
}

/// Writes the inline fragment as a node.
#[cycle(selection)]
pub(crate) fn write_inline_fragment<O: Target>(
    out: &mut O,
    location: Option<SourceSpan>,
    fragment: &InlineFragment,
)
    ensures { WritesJson O.wrote out.old out.new (λ json.
        ((unknown : Unknown) → IsInlineFragment unknown (inline_fragment_tree fragment.now) json)
        × StandsAt location json) }
{
    write_directives(out, "{\"directives\":", &fragment.directives);
    out.text(",\"kind\":\"InlineFragment\"");
    write_location(out, location);
    out.text(",\"selectionSet\":");
    write_selection_set(out, &fragment.selection_set);
    write_optional::<NamedTypeForm, O>(out, ",\"typeCondition\":", &fragment.type_condition);
    out.text("}");
}

/// Writes a member `selectionSet` behind others, if there is a selection.
#[cycle(selection)]
fn write_optional_set<O: Target>(out: &mut O, selections: &[Selection])
    ensures { WritesOptional O.wrote out.old (codes ",\"selectionSet\":") [] out.new
        (λ json. (unknown : Unknown) → MatchOption json
        (AreSelections unknown (selection_trees selections.now) no_items)
        (IsSelectionSet unknown (selection_trees selections.now))) }
{
    if selections.is_empty() {
        return;
    }
    out.text(",\"selectionSet\":");
    write_selection_set(out, selections);
}

/// Writes a selection set, which has no location of its own.
#[cycle(selection)]
pub(crate) fn write_selection_set<O: Target>(out: &mut O, selections: &[Selection])
    ensures { WritesJson O.wrote out.old out.new (λ json. (unknown : Unknown)
        → IsSelectionSet unknown (selection_trees selections.now) json) }
{
    out.text("{\"kind\":\"SelectionSet\",\"selections\":");
    write_selections(out, selections);
    out.text("}");
}

/// Writes an array of these selections.
#[cycle(selection)]
fn write_selections<O: Target>(out: &mut O, selections: &[Selection])
    ensures { WritesJson O.wrote out.old out.new (λ json. (unknown : Unknown)
        → IsSomeAnd (as_array json) (AreSelections unknown (selection_trees selections.now))) }
{
    out.text("[");
    let mut is_behind = false;
    for selection in selections {
        write_comma(out, is_behind);
        write_selection(out, selection);
        is_behind = true;
    }
    out.text("]");
}

impl WriteAstJson for Selection {
    /// The selection, at its location if it has one.
    fn write_ast_json<O: Target>(&self, out: &mut O) {
        write_selection(out, self);
    }
}

impl WriteAstNode for Field {
    fn write_ast_node<O: Target>(&self, out: &mut O, context: NodeContext) {
        write_field(out, context.location, self);
    }
}

impl WriteAstNode for InlineFragment {
    fn write_ast_node<O: Target>(&self, out: &mut O, context: NodeContext) {
        write_inline_fragment(out, context.location, self);
    }
}
