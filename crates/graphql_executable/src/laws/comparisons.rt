//! What holds of trees as they are cloned.
ghost use Rattle.std.specs.Prelude.{◌≡◌};
ghost use Rattle.graphql_text.specs.trees.Comparisons.{◌&◌, ClonesKeep};
ghost use Rattle.graphql_executable.specs.trees.ExecutableTrees.{IsFieldCloneOf, IsInlineFragmentCloneOf, field_tree, fragment_definition_tree, fragment_spread_tree, inline_fragment_tree, operation_definition_tree, variable_definition_tree};
ghost use Rattle.graphql_executable.specs.declared.field.Field.{Field};
ghost use Rattle.graphql_executable.specs.declared.inline_fragment.InlineFragment.{InlineFragment};

use crate::field::Field;
use crate::fragment_definition::FragmentDefinition;
use crate::fragment_spread::FragmentSpread;
use crate::inline_fragment::InlineFragment;
use crate::operation_definition::OperationDefinition;
use crate::selection::Selection;
use crate::variable_definition::VariableDefinition;

/// A clone has the same tree, and the very names, nodes and other parts, at the same locations.
pub fn clones_are_the_same()
    ensures variable_definitions { ClonesKeep ⟦<VariableDefinition as Clone>⟧.is_clone
        (λ it. it.description & it.name & it.ty & it.default_value & it.directives.0.items
        & variable_definition_tree it) }
    ensures selections { ClonesKeep ⟦<Selection as Clone>⟧.is_clone (λ it. it) }
    ensures fields { (a b : Field) → ⟦<Field as Clone>⟧.is_clone a b →
        IsFieldCloneOf a b × (field_tree b ≡ field_tree a) }
    ensures fragment_spreads { ClonesKeep ⟦<FragmentSpread as Clone>⟧.is_clone
        (λ it. it.fragment_name & it.directives.0.items & fragment_spread_tree it) }
    ensures inline_fragments { (a b : InlineFragment) → ⟦<InlineFragment as Clone>⟧.is_clone a b →
        IsInlineFragmentCloneOf a b × (inline_fragment_tree b ≡ inline_fragment_tree a) }
    ensures operation_definitions { ClonesKeep ⟦<OperationDefinition as Clone>⟧.is_clone
        (λ it. it.description & it.operation_type & it.name & it.variables.items
        & it.directives.0.items & it.selection_set.items & operation_definition_tree it) }
    ensures fragment_definitions { ClonesKeep ⟦<FragmentDefinition as Clone>⟧.is_clone
        (λ it. it.description & it.name & it.type_condition & it.directives.0.items
        & it.selection_set.items & fragment_definition_tree it) }
{}
