//! Walks over selections, variable definitions, operations and fragments.
ghost use Rattle.std.specs.Prelude.{◌≡◌};
ghost use Rattle.graphql_base.specs.Node.{node_value};
ghost use Rattle.graphql_values.specs.trees.DirectiveTrees.{argument_trees, directive_trees};
ghost use Rattle.graphql_executable.specs.kinds.FragmentDefinitions.{fragment_definition_kind};
ghost use Rattle.graphql_executable.specs.kinds.OperationDefinitions.{operation_definition_kind};
ghost use Rattle.graphql_executable.specs.kinds.Selections.{SelectionTree};
ghost use Rattle.graphql_executable.specs.kinds.VariableDefinitions.{variable_definition_kind};
ghost use Rattle.graphql_executable.specs.trees.ExecutableTrees.{fragment_definition_tree, operation_definition_tree, selection_tree, selection_trees, variable_definition_tree};
ghost use Rattle.graphql_ast.specs.Definitions as name;
ghost use Rattle.graphql_visit.specs.Visits.{each, one, ◌⨟◌};
ghost use Rattle.graphql_visit.specs.Walks.{Walks};
ghost use Rattle.graphql_visit.specs.kinds.Documents.{definition_named};
ghost use Rattle.graphql_visit.specs.kinds.Executable.{selection_visited, selections_visits, variable_definition_visited, within_selection};
ghost use Rattle.graphql_visit.specs.NodeRefs.{node_tree};
ghost use Rattle.graphql_visit.specs.NodeTrees.{Selection};
ghost use Rattle.graphql_visit.specs.kinds.Values.{argument_visited, directive_visited};

use crate::node_ref::NodeRef;
use crate::visitor::{Ended, Visitor, enter, leave};
use crate::walked::{Walked, walk, walk_all, walk_optional};
use graphql_ast::Node;
use graphql_ast::ast::{
    DirectiveList, Field, FragmentDefinition, OperationDefinition, Selection, VariableDefinition,
};

/// The reference to a selection.
#[tactic(auto, using(crate::proofs::WithinSelections::node_steps))]
fn selection_ref(selection: &Selection) -> NodeRef<'_>
    ensures { node_tree result ≡ Selection (selection_tree selection.now) }
{
    match selection {
        Selection::Field(node) => NodeRef::Field(node),
        Selection::FragmentSpread(node) => NodeRef::FragmentSpread(node),
        Selection::InlineFragment(node) => NodeRef::InlineFragment(node),
    }
}

/// Walks over a selection.
#[cycle(selections)]
#[tactic(auto, using(crate::proofs::Steps::one_steps))]
fn walk_selection<V: Visitor>(selection: &Selection, visitor: &mut V) -> Result<(), Ended<V::Error>>
    ensures { Walks V.enters V.leaves (one selection_visited (selection_tree selection.now))
        visitor.old result visitor.new }
{
    let node = selection_ref(selection);
    if !enter(visitor, node)? {
        return Ok(());
    }
    walk_within_selection(selection, visitor)?;
    leave(visitor, node)
}

#[cycle(selections)]
#[tactic(auto, using(crate::proofs::WithinSelections::selection_steps))]
fn walk_within_selection<V: Visitor>(
    selection: &Selection,
    visitor: &mut V,
) -> Result<(), Ended<V::Error>>
    ensures { Walks V.enters V.leaves (within_selection (selection_tree selection.now))
        visitor.old result visitor.new }
{
    match selection {
        Selection::Field(field) => walk_within_field(field, visitor),
        Selection::FragmentSpread(spread) => walk_all(&spread.directives.0, visitor),
        Selection::InlineFragment(fragment) => {
            walk_directives_and_set(&fragment.directives, &fragment.selection_set, visitor)
        }
    }
}

#[cycle(selections)]
#[tactic(auto, using(crate::proofs::Steps::walk_steps))]
fn walk_within_field<V: Visitor>(field: &Field, visitor: &mut V) -> Result<(), Ended<V::Error>>
    ensures { Walks V.enters V.leaves
        (each argument_visited (argument_trees field.now.arguments.items)
        ⨟ each directive_visited (directive_trees field.now.directives)
        ⨟ selections_visits (selection_trees field.now.selection_set.items))
        visitor.old result visitor.new }
{
    walk_all(&field.arguments, visitor)?;
    walk_directives_and_set(&field.directives, &field.selection_set, visitor)
}

#[cycle(selections)]
#[tactic(auto, using(crate::proofs::Steps::walk_steps))]
fn walk_directives_and_set<V: Visitor>(
    directives: &DirectiveList,
    selections: &[Selection],
    visitor: &mut V,
) -> Result<(), Ended<V::Error>>
    ensures { Walks V.enters V.leaves (each directive_visited (directive_trees directives.now)
        ⨟ selections_visits (selection_trees selections.now))
        visitor.old result visitor.new }
{
    walk_all(&directives.0, visitor)?;
    walk_selections(selections, visitor)
}

#[cycle(selections)]
#[tactic(auto, using(crate::proofs::Steps::loop_steps, crate::proofs::WithinSelections::set_walked))]
fn walk_selections<V: Visitor>(
    selections: &[Selection],
    visitor: &mut V,
) -> Result<(), Ended<V::Error>>
    ensures { Walks V.enters V.leaves (selections_visits (selection_trees selections.now))
        visitor.old result visitor.new }
{
    for selection in selections {
        walk_selection(selection, visitor)?;
    }
    Ok(())
}

impl Walked for Selection {
    ghost Tree = { SelectionTree };

    ghost tree = { selection_tree };

    ghost visited = { selection_visited };

    fn node_ref(&self) -> NodeRef<'_> {
        selection_ref(self)
    }

    #[tactic(auto, using(crate::proofs::Steps::walk_steps))]
    fn walk_within<V: Visitor>(&self, visitor: &mut V) -> Result<(), Ended<V::Error>> {
        walk_within_selection(self, visitor)
    }
}

impl Walked for Node<VariableDefinition> {
    ghost Tree = { variable_definition_kind.Tree };

    ghost tree = { λ node. variable_definition_tree (node_value node) };

    ghost visited = { variable_definition_visited };

    fn node_ref(&self) -> NodeRef<'_> {
        NodeRef::VariableDefinition(self)
    }

    #[tactic(auto, using(crate::proofs::Steps::walk_steps))]
    fn walk_within<V: Visitor>(&self, visitor: &mut V) -> Result<(), Ended<V::Error>> {
        walk(&self.ty, visitor)?;
        walk_optional(self.default_value.as_ref(), visitor)?;
        walk_all(&self.directives.0, visitor)
    }
}

impl Walked for Node<OperationDefinition> {
    ghost Tree = { operation_definition_kind.Tree };

    ghost tree = { λ node. operation_definition_tree (node_value node) };

    ghost visited = { definition_named name.OperationDefinition };

    fn node_ref(&self) -> NodeRef<'_> {
        NodeRef::OperationDefinition(self)
    }

    #[tactic(auto, using(crate::proofs::Steps::walk_steps))]
    fn walk_within<V: Visitor>(&self, visitor: &mut V) -> Result<(), Ended<V::Error>> {
        walk_all(&self.variables, visitor)?;
        walk_directives_and_set(&self.directives, &self.selection_set, visitor)
    }
}

impl Walked for Node<FragmentDefinition> {
    ghost Tree = { fragment_definition_kind.Tree };

    ghost tree = { λ node. fragment_definition_tree (node_value node) };

    ghost visited = { definition_named name.FragmentDefinition };

    fn node_ref(&self) -> NodeRef<'_> {
        NodeRef::FragmentDefinition(self)
    }

    #[tactic(auto, using(crate::proofs::Steps::walk_steps))]
    fn walk_within<V: Visitor>(&self, visitor: &mut V) -> Result<(), Ended<V::Error>> {
        walk_directives_and_set(&self.directives, &self.selection_set, visitor)
    }
}
