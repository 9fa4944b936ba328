//! The flaws of selections, variable definitions, operations and fragments.
ghost use Rattle.std.specs.Prelude.{◌≡◌, OnOk, option_copied};
ghost use Rattle.std.specs.Option.{option_map};
ghost use Rattle.graphql_text.specs.trees.Leaves.{name_tree};
ghost use Rattle.graphql_executable.specs.kinds.Fields.{field_kind};
ghost use Rattle.graphql_executable.specs.kinds.FragmentNames.{is_fragment_name};
ghost use Rattle.graphql_executable.specs.kinds.InlineFragments.{inline_fragment_kind};
ghost use Rattle.graphql_executable.specs.kinds.Selections.{selection_flaws, selection_set_flaws, selections_flaws};
ghost use Rattle.graphql_executable.specs.trees.ExecutableTrees.{field_tree, inline_fragment_tree, selection_tree, selection_trees};
ghost use Rattle.graphql_flaws.specs.FoundFlaws.{Finds};

use crate::find_flaws::FindFlaws;
use crate::found_flaw::PathStep::{Item, Member};
use crate::parts::{NAME_TEXT, push_nodes};
use crate::search::FlawSearch;
use crate::values::{push_arguments, push_default_value, push_directives};
use graphql_ast::Name;
use graphql_ast::ast::{
    Field, FragmentDefinition, FragmentSpread, InlineFragment, OperationDefinition, Selection,
    VariableDefinition,
};
use graphql_ast::ill_formed::SideCondition::{HasSelection, IsNotOn};
use graphql_values::writers::Constness;
use std::alloc::AllocError;

/// Whether a name can be that of a fragment (`FragmentName`, section 2.8): any but `on`.
fn is_fragment_name(name: &str) -> bool
    ensures { result ≡ is_fragment_name name.now }
{
    name != "on"
}

/// Finds the flaws of what a selection is a node of.
#[cycle(selections)]
fn push_selection<'a>(
    search: &mut FlawSearch<'a>,
    selection: &'a Selection,
) -> Result<(), AllocError>
    ensures { OnOk result (Finds
        (selection_flaws (selection_tree selection.now)) search.old search.new) }
{
    match selection {
        Selection::Field(field) => push_field(search, field),
        Selection::FragmentSpread(spread) => spread.push_flaws(search),
        Selection::InlineFragment(fragment) => push_inline_fragment(search, fragment),
    }
}

#[cycle(selections)]
fn push_field<'a>(search: &mut FlawSearch<'a>, field: &'a Field) -> Result<(), AllocError>
    ensures { OnOk result (Finds
        (field_kind.flaws (field_tree field.now)) search.old search.new) }
{
    push_arguments(search, &field.arguments, Constness::NonConst)?;
    push_directives(search, &field.directives, Constness::NonConst)?;
    push_selections(search, &field.selection_set)
}

#[cycle(selections)]
fn push_inline_fragment<'a>(
    search: &mut FlawSearch<'a>,
    fragment: &'a InlineFragment,
) -> Result<(), AllocError>
    ensures { OnOk result (Finds
        (inline_fragment_kind.flaws (inline_fragment_tree fragment.now)) search.old search.new) }
{
    push_directives(search, &fragment.directives, Constness::NonConst)?;
    push_selection_set(
        search,
        fragment.type_condition.as_ref(),
        &fragment.selection_set,
    )
}

/// Finds the flaws of the selection set of what has this name, which has one selection at least.
#[cycle(selections)]
#[tactic(auto, using(graphql_executable::proofs::layout::SelectionShapes::has_selections_is, crate::proofs::PartsFound::finds_then))]
fn push_selection_set<'a>(
    search: &mut FlawSearch<'a>,
    name: Option<&'a Name>,
    selections: &'a [Selection],
) -> Result<(), AllocError>
    ensures { OnOk result (Finds
        (selection_set_flaws (option_map name_tree (option_copied name.entry))
        (selection_trees selections.now)) search.old search.new) }
{
    let has_selections = !selections.is_empty();
    let steps = [Member("selectionSet")];
    search.push_unless(has_selections, HasSelection, name, &steps)?;
    push_selections(search, selections)
}

#[cycle(selections)]
fn push_selections<'a>(
    search: &mut FlawSearch<'a>,
    selections: &'a [Selection],
) -> Result<(), AllocError>
    ensures { OnOk result (Finds
        (selections_flaws (selection_trees selections.now)) search.old search.new) }
{
    for index in 0..selections.len() {
        let selection = &selections[index];
        let steps = [Member("selectionSet"), Member("selections"), Item(index)];
        let outer = search.enter(&steps, selection.location())?;
        push_selection(search, selection)?;
        search.leave(outer);
    }
    Ok(())
}

impl FindFlaws for Selection {
    fn push_flaws<'a>(&'a self, search: &mut FlawSearch<'a>) -> Result<(), AllocError> {
        let outer = search.enter(&[], self.location())?;
        push_selection(search, self)?;
        search.leave(outer);
        Ok(())
    }
}

impl FindFlaws for Field {
    fn push_flaws<'a>(&'a self, search: &mut FlawSearch<'a>) -> Result<(), AllocError> {
        push_field(search, self)
    }
}

impl FindFlaws for FragmentSpread {
    fn push_flaws<'a>(&'a self, search: &mut FlawSearch<'a>) -> Result<(), AllocError> {
        let is_free = is_fragment_name(self.fragment_name.as_str());
        let name = Some(&self.fragment_name);
        search.push_unless(is_free, IsNotOn, name, &NAME_TEXT)?;
        push_directives(search, &self.directives, Constness::NonConst)
    }
}

impl FindFlaws for InlineFragment {
    fn push_flaws<'a>(&'a self, search: &mut FlawSearch<'a>) -> Result<(), AllocError> {
        push_inline_fragment(search, self)
    }
}

impl FindFlaws for VariableDefinition {
    fn push_flaws<'a>(&'a self, search: &mut FlawSearch<'a>) -> Result<(), AllocError> {
        push_default_value(search, self.default_value.as_ref())?;
        push_directives(search, &self.directives, Constness::Const)
    }
}

impl FindFlaws for OperationDefinition {
    fn push_flaws<'a>(&'a self, search: &mut FlawSearch<'a>) -> Result<(), AllocError> {
        push_nodes(search, "variableDefinitions", &self.variables)?;
        push_directives(search, &self.directives, Constness::NonConst)?;
        push_selection_set(search, self.name.as_ref(), &self.selection_set)
    }
}

impl FindFlaws for FragmentDefinition {
    fn push_flaws<'a>(&'a self, search: &mut FlawSearch<'a>) -> Result<(), AllocError> {
        let is_free = is_fragment_name(self.name.as_str());
        let name = Some(&self.name);
        search.push_unless(is_free, IsNotOn, name, &NAME_TEXT)?;
        push_directives(search, &self.directives, Constness::NonConst)?;
        push_selection_set(search, Some(&self.name), &self.selection_set)
    }
}
