//! Selections, variable definitions, operations and fragments are rebuilt.
ghost use Rattle.std.specs.Prelude.{◌≡◌, IfOk};
ghost use Rattle.graphql_executable.specs.code.SelectionQueries.{selection_location};
ghost use Rattle.graphql_executable.specs.kinds.Fields.{FieldTree};
ghost use Rattle.graphql_executable.specs.kinds.FragmentDefinitions.{fragment_definition_kind};
ghost use Rattle.graphql_executable.specs.kinds.FragmentSpreads.{FragmentSpreadTree};
ghost use Rattle.graphql_executable.specs.kinds.InlineFragments.{InlineFragmentTree};
ghost use Rattle.graphql_executable.specs.kinds.OperationDefinitions.{operation_definition_kind};
ghost use Rattle.graphql_executable.specs.kinds.Selections.{SelectionTree};
ghost use Rattle.graphql_executable.specs.kinds.VariableDefinitions.{variable_definition_kind};
ghost use Rattle.graphql_executable.specs.trees.ExecutableTrees.{field_tree, fragment_definition_tree, fragment_spread_tree, inline_fragment_tree, operation_definition_tree, selection_tree, selection_trees, variable_definition_tree};
ghost use Rattle.graphql_rewrite.specs.Kept.{located};
ghost use Rattle.graphql_rewrite.specs.Outcomes.{outcome};
ghost use Rattle.graphql_rewrite.specs.kinds.Executable.{rewritten_field, rewritten_fragment_definition, rewritten_fragment_spread, rewritten_inline_fragment, rewritten_operation_definition, rewritten_selection, rewritten_selections, rewritten_set, rewritten_variable_definition, rewritten_within_field};

use crate::parts::or_copy;
use crate::rebuild::{Rebuild, rebuild_node, rebuild_nodes};
use crate::rewriter::{Rebuilt, Rewriter};
use crate::shared_lists::keep;
use crate::values::{rebuild_arguments, rebuild_default, rebuild_directives};
use graphql_ast::ast::{
    Field, FragmentDefinition, FragmentSpread, InlineFragment, OperationDefinition, Selection,
    VariableDefinition,
};
use std::alloc::Global;

/// What is made of a field behind what was made within it.
fn field_behind<R: Rewriter>(
    alloc: Global,
    rewriter: &R,
    field: &Field,
    inner: Option<Field>,
) -> Rebuilt<Field>
    ensures { IfOk result (λ made. outcome field_tree (field_tree field.now) made
        ≡ (R.rewriting rewriter.now).field (outcome field_tree (field_tree field.now) inner)) }
{
    match inner {
        None => rewriter.field(alloc, field),
        Some(inner) => match rewriter.field(alloc, &inner)? {
            None => Ok(Some(inner)),
            Some(made) => Ok(Some(made)),
        },
    }
}

#[cycle(selections)]
#[tactic(auto, using(crate::proofs::SelectionsMade::selection_steps))]
fn rebuild_selection<R: Rewriter>(
    alloc: Global,
    rewriter: &R,
    selection: &Selection,
) -> Rebuilt<Selection>
    ensures tree { IfOk result (λ made. outcome selection_tree (selection_tree selection.now) made
        ≡ rewritten_selection (R.rewriting rewriter.now) (selection_tree selection.now)) }
    ensures location { IfOk result (λ made.
        outcome selection_location (selection_location selection.now) made
        ≡ selection_location selection.now) }
{
    match selection {
        Selection::Field(node) => match rebuild_field(alloc, rewriter, node)? {
            Some(made) => Ok(Some(Selection::Field(node.same_location(alloc, made)?))),
            None => Ok(None),
        },
        Selection::FragmentSpread(node) => match rebuild_node(alloc, rewriter, node)? {
            Some(made) => Ok(Some(Selection::FragmentSpread(made))),
            None => Ok(None),
        },
        Selection::InlineFragment(node) => match rebuild_inline_fragment(alloc, rewriter, node)? {
            Some(made) => Ok(Some(Selection::InlineFragment(node.same_location(alloc, made)?))),
            None => Ok(None),
        },
    }
}

#[cycle(selections)]
fn rebuild_field<R: Rewriter>(alloc: Global, rewriter: &R, field: &Field) -> Rebuilt<Field>
    ensures { IfOk result (λ made. outcome field_tree (field_tree field.now) made
        ≡ rewritten_field (R.rewriting rewriter.now) (field_tree field.now)) }
{
    let inner = rebuild_within_field(alloc, rewriter, field)?;
    field_behind(alloc, rewriter, field, inner)
}

#[cycle(selections)]
#[tactic(auto, using(graphql_executable::proofs::layout::SelectionShapes::field_is))]
fn rebuild_within_field<R: Rewriter>(alloc: Global, rewriter: &R, field: &Field) -> Rebuilt<Field>
    ensures { IfOk result (λ made. outcome field_tree (field_tree field.now) made
        ≡ rewritten_within_field (R.rewriting rewriter.now) (field_tree field.now)) }
{
    let arguments = rebuild_arguments(alloc, rewriter, &field.arguments)?;
    let directives = rebuild_directives(alloc, rewriter, &field.directives)?;
    let selection_set = rebuild_set(alloc, rewriter, &field.selection_set)?;
    if arguments.is_none() && directives.is_none() && selection_set.is_none() {
        return Ok(None);
    }
    Ok(Some(Field {
        alias: field.alias.clone()?,
        name: field.name.clone()?,
        arguments: or_copy(arguments, &field.arguments)?,
        directives: or_copy(directives, &field.directives)?,
        selection_set: or_copy(selection_set, &field.selection_set)?,
    }))
}

#[cycle(selections)]
#[tactic(auto, using(graphql_executable::proofs::layout::SelectionShapes::inline_fragment_is))]
fn rebuild_inline_fragment<R: Rewriter>(
    alloc: Global,
    rewriter: &R,
    fragment: &InlineFragment,
) -> Rebuilt<InlineFragment>
    ensures { IfOk result (λ made.
        outcome inline_fragment_tree (inline_fragment_tree fragment.now) made
        ≡ rewritten_inline_fragment (R.rewriting rewriter.now)
        (inline_fragment_tree fragment.now)) }
{
    let directives = rebuild_directives(alloc, rewriter, &fragment.directives)?;
    let selection_set = rebuild_set(alloc, rewriter, &fragment.selection_set)?;
    if directives.is_none() && selection_set.is_none() {
        return Ok(None);
    }
    Ok(Some(InlineFragment {
        type_condition: fragment.type_condition.clone()?,
        directives: or_copy(directives, &fragment.directives)?,
        selection_set: or_copy(selection_set, &fragment.selection_set)?,
    }))
}

/// A selection set. An empty list is none.
#[cycle(selections)]
#[tactic(auto, using(crate::proofs::SelectionsMade::set_steps))]
fn rebuild_set<R: Rewriter>(
    alloc: Global,
    rewriter: &R,
    selections: &[Selection],
) -> Rebuilt<Vec<Selection>>
    ensures { IfOk result (λ made.
        outcome (λ made. selection_trees made.items) (selection_trees selections.now) made
        ≡ rewritten_set (R.rewriting rewriter.now) (selection_trees selections.now)) }
{
    if selections.is_empty() {
        return Ok(None);
    }
    match rebuild_selections(alloc, rewriter, selections)? {
        None => rewriter.selections(alloc, selections),
        Some(inner) => match rewriter.selections(alloc, &inner)? {
            None => Ok(Some(inner)),
            Some(made) => Ok(Some(made)),
        },
    }
}

#[cycle(selections)]
#[tactic(auto, using(crate::proofs::Lists::made_on, crate::proofs::SelectionsMade::selections_made))]
fn rebuild_selections<R: Rewriter>(
    alloc: Global,
    rewriter: &R,
    selections: &[Selection],
) -> Rebuilt<Vec<Selection>>
    ensures { IfOk result (λ made.
        outcome (λ made. selection_trees made.items) (selection_trees selections.now) made
        ≡ rewritten_selections (R.rewriting rewriter.now) (selection_trees selections.now)) }
{
    let mut made = None;
    for (index, selection) in selections.iter().enumerate() {
        let changed = rebuild_selection(alloc, rewriter, selection)?;
        made = keep(alloc, made, selections, index, changed)?;
    }
    Ok(made)
}

impl Rebuild for Selection {
    ghost Tree = { SelectionTree };

    ghost tree = { selection_tree };

    ghost rewritten = { rewritten_selection };

    ghost kept = { λ selection. located (selection_location selection) };

    fn rebuild<R: Rewriter>(&self, alloc: Global, rewriter: &R) -> Rebuilt<Selection> {
        rebuild_selection(alloc, rewriter, self)
    }
}

impl Rebuild for Field {
    ghost Tree = { FieldTree };

    ghost tree = { field_tree };

    ghost rewritten = { rewritten_field };

    fn rebuild<R: Rewriter>(&self, alloc: Global, rewriter: &R) -> Rebuilt<Field> {
        rebuild_field(alloc, rewriter, self)
    }
}

impl Rebuild for FragmentSpread {
    ghost Tree = { FragmentSpreadTree };

    ghost tree = { fragment_spread_tree };

    ghost rewritten = { rewritten_fragment_spread };

    fn rebuild<R: Rewriter>(&self, alloc: Global, rewriter: &R) -> Rebuilt<FragmentSpread> {
        match rebuild_directives(alloc, rewriter, &self.directives)? {
            Some(directives) => Ok(Some(FragmentSpread {
                fragment_name: self.fragment_name.clone()?,
                directives,
            })),
            None => Ok(None),
        }
    }
}

impl Rebuild for InlineFragment {
    ghost Tree = { InlineFragmentTree };

    ghost tree = { inline_fragment_tree };

    ghost rewritten = { rewritten_inline_fragment };

    fn rebuild<R: Rewriter>(&self, alloc: Global, rewriter: &R) -> Rebuilt<InlineFragment> {
        rebuild_inline_fragment(alloc, rewriter, self)
    }
}

impl Rebuild for VariableDefinition {
    ghost Tree = { variable_definition_kind.Tree };

    ghost tree = { variable_definition_tree };

    ghost rewritten = { rewritten_variable_definition };

    fn rebuild<R: Rewriter>(&self, alloc: Global, rewriter: &R) -> Rebuilt<VariableDefinition> {
        let default_value = rebuild_default(alloc, rewriter, &self.default_value)?;
        let directives = rebuild_directives(alloc, rewriter, &self.directives)?;
        if default_value.is_none() && directives.is_none() {
            return Ok(None);
        }
        Ok(Some(VariableDefinition {
            description: self.description.clone()?,
            name: self.name.clone()?,
            ty: self.ty.clone()?,
            default_value: or_copy(default_value, &self.default_value)?,
            directives: or_copy(directives, &self.directives)?,
        }))
    }
}

impl Rebuild for OperationDefinition {
    ghost Tree = { operation_definition_kind.Tree };

    ghost tree = { operation_definition_tree };

    ghost rewritten = { rewritten_operation_definition };

    fn rebuild<R: Rewriter>(&self, alloc: Global, rewriter: &R) -> Rebuilt<OperationDefinition> {
        let variables = rebuild_nodes(alloc, rewriter, &self.variables)?;
        let directives = rebuild_directives(alloc, rewriter, &self.directives)?;
        let selection_set = rebuild_set(alloc, rewriter, &self.selection_set)?;
        if variables.is_none() && directives.is_none() && selection_set.is_none() {
            return Ok(None);
        }
        Ok(Some(OperationDefinition {
            description: self.description.clone()?,
            operation_type: self.operation_type,
            name: self.name.clone()?,
            variables: or_copy(variables, &self.variables)?,
            directives: or_copy(directives, &self.directives)?,
            selection_set: or_copy(selection_set, &self.selection_set)?,
        }))
    }
}

impl Rebuild for FragmentDefinition {
    ghost Tree = { fragment_definition_kind.Tree };

    ghost tree = { fragment_definition_tree };

    ghost rewritten = { rewritten_fragment_definition };

    fn rebuild<R: Rewriter>(&self, alloc: Global, rewriter: &R) -> Rebuilt<FragmentDefinition> {
        let directives = rebuild_directives(alloc, rewriter, &self.directives)?;
        let selection_set = rebuild_set(alloc, rewriter, &self.selection_set)?;
        if directives.is_none() && selection_set.is_none() {
            return Ok(None);
        }
        Ok(Some(FragmentDefinition {
            description: self.description.clone()?,
            name: self.name.clone()?,
            type_condition: self.type_condition.clone()?,
            directives: or_copy(directives, &self.directives)?,
            selection_set: or_copy(selection_set, &self.selection_set)?,
        }))
    }
}
