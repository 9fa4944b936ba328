//! Selections, variable definitions, operations and fragments without locations.
ghost use Rattle.std.specs.Prelude.{◌≡◌, [], IfOk};
ghost use Rattle.graphql_executable.specs.kinds.Fields.{FieldTree};
ghost use Rattle.graphql_executable.specs.kinds.FragmentDefinitions.{fragment_definition_kind};
ghost use Rattle.graphql_executable.specs.kinds.FragmentSpreads.{FragmentSpreadTree};
ghost use Rattle.graphql_executable.specs.kinds.InlineFragments.{InlineFragmentTree};
ghost use Rattle.graphql_executable.specs.kinds.OperationDefinitions.{operation_definition_kind};
ghost use Rattle.graphql_executable.specs.kinds.Selections.{SelectionTree};
ghost use Rattle.graphql_executable.specs.kinds.VariableDefinitions.{variable_definition_kind};
ghost use Rattle.graphql_executable.specs.trees.ExecutableTrees.{field_tree, fragment_definition_tree, fragment_spread_tree, inline_fragment_tree, operation_definition_tree, selection_tree, selection_trees, variable_definition_tree};
ghost use Rattle.graphql_locations.specs.Leaves.{list_locations};
ghost use Rattle.graphql_locations.specs.kinds.Executable.{field_locations, fragment_definition_locations, fragment_spread_locations, inline_fragment_locations, operation_definition_locations, selection_locations, variable_definition_locations};

use crate::located::Located;
use graphql_ast::Node;
use graphql_ast::ast::{
    Field, FragmentDefinition, FragmentSpread, InlineFragment, OperationDefinition, Selection,
    VariableDefinition,
};
use std::alloc::{AllocError, Global};

#[cycle(selections)]
fn strip_selection(alloc: Global, selection: &Selection) -> Result<Selection, AllocError>
    ensures tree { IfOk result (λ made. selection_tree made ≡ selection_tree selection.now) }
    ensures locations { IfOk result (λ made. selection_locations made ≡ []) }
{
    match selection {
        Selection::Field(node) => {
            let field = strip_field(alloc, node)?;
            Ok(Selection::Field(Node::new(alloc, field)?))
        }
        Selection::FragmentSpread(node) => {
            Ok(Selection::FragmentSpread(node.without_locations(alloc)?))
        }
        Selection::InlineFragment(node) => {
            let fragment = strip_inline_fragment(alloc, node)?;
            Ok(Selection::InlineFragment(Node::new(alloc, fragment)?))
        }
    }
}

#[cycle(selections)]
#[tactic(auto, using(graphql_executable::proofs::layout::SelectionShapes::field_is, crate::proofs::SelectionsStripped::field_has))]
fn strip_field(alloc: Global, field: &Field) -> Result<Field, AllocError>
    ensures tree { IfOk result (λ made. field_tree made ≡ field_tree field.now) }
    ensures locations { IfOk result (λ made. field_locations made ≡ []) }
{
    Ok(Field {
        alias: field.alias.without_locations(alloc)?,
        name: field.name.without_locations(alloc)?,
        arguments: field.arguments.without_locations(alloc)?,
        directives: field.directives.without_locations(alloc)?,
        selection_set: strip_selections(alloc, &field.selection_set)?,
    })
}

#[cycle(selections)]
#[tactic(auto, using(graphql_executable::proofs::layout::SelectionShapes::inline_fragment_is, crate::proofs::SelectionsStripped::inline_fragment_has))]
fn strip_inline_fragment(
    alloc: Global,
    fragment: &InlineFragment,
) -> Result<InlineFragment, AllocError>
    ensures tree { IfOk result (λ made.
        inline_fragment_tree made ≡ inline_fragment_tree fragment.now) }
    ensures locations { IfOk result (λ made. inline_fragment_locations made ≡ []) }
{
    Ok(InlineFragment {
        type_condition: fragment.type_condition.without_locations(alloc)?,
        directives: fragment.directives.without_locations(alloc)?,
        selection_set: strip_selections(alloc, &fragment.selection_set)?,
    })
}

#[cycle(selections)]
#[tactic(auto, using(crate::proofs::PartsStripped::list_steps, crate::proofs::SelectionsStripped::selections_made))]
fn strip_selections(alloc: Global, selections: &[Selection]) -> Result<Vec<Selection>, AllocError>
    ensures trees { IfOk result (λ made.
        selection_trees made.items ≡ selection_trees selections.now) }
    ensures locations { IfOk result (λ made.
        list_locations selection_locations made.items ≡ []) }
{
    let mut made = Vec::with_capacity(alloc, selections.len())?;
    for selection in selections {
        made.push(strip_selection(alloc, selection)?)?;
    }
    Ok(made)
}

impl Located for Selection {
    ghost Tree = { SelectionTree };

    ghost tree = { selection_tree };

    ghost locations = { selection_locations };

    fn without_locations(&self, alloc: Global) -> Result<Selection, AllocError> {
        strip_selection(alloc, self)
    }
}

impl Located for Field {
    ghost Tree = { FieldTree };

    ghost tree = { field_tree };

    ghost locations = { field_locations };

    fn without_locations(&self, alloc: Global) -> Result<Field, AllocError> {
        strip_field(alloc, self)
    }
}

impl Located for FragmentSpread {
    ghost Tree = { FragmentSpreadTree };

    ghost tree = { fragment_spread_tree };

    ghost locations = { fragment_spread_locations };

    fn without_locations(&self, alloc: Global) -> Result<FragmentSpread, AllocError> {
        Ok(FragmentSpread {
            fragment_name: self.fragment_name.without_locations(alloc)?,
            directives: self.directives.without_locations(alloc)?,
        })
    }
}

impl Located for InlineFragment {
    ghost Tree = { InlineFragmentTree };

    ghost tree = { inline_fragment_tree };

    ghost locations = { inline_fragment_locations };

    fn without_locations(&self, alloc: Global) -> Result<InlineFragment, AllocError> {
        strip_inline_fragment(alloc, self)
    }
}

impl Located for VariableDefinition {
    ghost Tree = { variable_definition_kind.Tree };

    ghost tree = { variable_definition_tree };

    ghost locations = { variable_definition_locations };

    fn without_locations(&self, alloc: Global) -> Result<VariableDefinition, AllocError> {
        Ok(VariableDefinition {
            description: self.description.without_locations(alloc)?,
            name: self.name.without_locations(alloc)?,
            ty: self.ty.without_locations(alloc)?,
            default_value: self.default_value.without_locations(alloc)?,
            directives: self.directives.without_locations(alloc)?,
        })
    }
}

impl Located for OperationDefinition {
    ghost Tree = { operation_definition_kind.Tree };

    ghost tree = { operation_definition_tree };

    ghost locations = { operation_definition_locations };

    fn without_locations(&self, alloc: Global) -> Result<OperationDefinition, AllocError> {
        Ok(OperationDefinition {
            description: self.description.without_locations(alloc)?,
            operation_type: self.operation_type,
            name: self.name.without_locations(alloc)?,
            variables: self.variables.without_locations(alloc)?,
            directives: self.directives.without_locations(alloc)?,
            selection_set: self.selection_set.without_locations(alloc)?,
        })
    }
}

impl Located for FragmentDefinition {
    ghost Tree = { fragment_definition_kind.Tree };

    ghost tree = { fragment_definition_tree };

    ghost locations = { fragment_definition_locations };

    fn without_locations(&self, alloc: Global) -> Result<FragmentDefinition, AllocError> {
        Ok(FragmentDefinition {
            description: self.description.without_locations(alloc)?,
            name: self.name.without_locations(alloc)?,
            type_condition: self.type_condition.without_locations(alloc)?,
            directives: self.directives.without_locations(alloc)?,
            selection_set: self.selection_set.without_locations(alloc)?,
        })
    }
}
