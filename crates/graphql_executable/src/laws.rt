//! What holds of operations, fragments, selections and variable definitions as they are printed and read.
//!
//! Each function does nothing: its contract is the law, with one clause a kind.
ghost use Rattle.std.specs.Prelude.{[], ◌∷◌};
ghost use Rattle.graphql_text.specs.grammar.Forms.{marks};
ghost use Rattle.graphql_text.specs.grammar.OneReading.{IsReadOneWay};
ghost use Rattle.graphql_text.specs.kinds.PrintedKinds.{IsPrintedKind, no_types};
ghost use Rattle.graphql_text.specs.lexical.Tokens.{at, bang, colon, equals, lbrace, lparen};
ghost use Rattle.graphql_values.specs.kinds.TypeReferences.{list_depth};
ghost use Rattle.graphql_executable.specs.trees.ExecutableTrees.{field_tree, fragment_definition_tree, fragment_spread_tree, inline_fragment_tree, operation_definition_tree, selection_tree, variable_definition_tree};
ghost use Rattle.graphql_executable.specs.kinds.Fields.{field_kind};
ghost use Rattle.graphql_executable.specs.kinds.FragmentDefinitions.{fragment_definition_kind};
ghost use Rattle.graphql_executable.specs.kinds.FragmentSpreads.{fragment_spread_kind};
ghost use Rattle.graphql_executable.specs.kinds.InlineFragments.{inline_fragment_kind};
ghost use Rattle.graphql_executable.specs.kinds.OperationDefinitions.{operation_definition_kind};
ghost use Rattle.graphql_executable.specs.kinds.Selections.{selection_kind, selection_set_form};
ghost use Rattle.graphql_executable.specs.kinds.VariableDefinitions.{variable_definition_kind, variable_definitions_form, variables_list_depth};

mod comparisons;
mod kinds;
mod readings;

use crate::field::Field;
use crate::fragment_definition::FragmentDefinition;
use crate::fragment_spread::FragmentSpread;
use crate::inline_fragment::InlineFragment;
pub use crate::laws::comparisons::clones_are_the_same;
pub use crate::laws::kinds::printed_tokens_derive_the_tree;
pub use crate::laws::readings::{refused_readings, worked_layouts, worked_readings};
use crate::operation_definition::OperationDefinition;
use crate::selection::Selection;
use crate::variable_definition::VariableDefinition;
use graphql_text::engine::Printed;

/// Each of these types has the kind that its clause names, and all that `IsPrintedKind` says of it: what is printed and
/// what is displayed of it is read back, it is read in one way before what may follow it, and it is compared and hashed
/// by its tree.
pub fn printed_kinds()
    ensures variable_definitions { ⟦<VariableDefinition as Printed>⟧.has_kind
        variable_definition_kind variable_definition_tree
        (λ variable. list_depth variable.body.type) (marks (bang ∷ equals ∷ at ∷ lparen ∷ [])) [] }
    ensures selections { ⟦<Selection as Printed>⟧.has_kind selection_kind selection_tree no_types
        (marks (colon ∷ lbrace ∷ at ∷ lparen ∷ [])) [] }
    ensures fields { ⟦<Field as Printed>⟧.has_kind field_kind field_tree no_types
        (marks (colon ∷ lbrace ∷ at ∷ lparen ∷ [])) [] }
    ensures fragment_spreads { ⟦<FragmentSpread as Printed>⟧.has_kind fragment_spread_kind
        fragment_spread_tree no_types (marks (at ∷ lparen ∷ [])) [] }
    ensures inline_fragments { ⟦<InlineFragment as Printed>⟧.has_kind inline_fragment_kind
        inline_fragment_tree no_types [] [] }
    ensures operation_definitions { ⟦<OperationDefinition as Printed>⟧.has_kind
        operation_definition_kind operation_definition_tree
        (λ operation. variables_list_depth operation.body.variables) [] [] }
    ensures fragment_definitions { ⟦<FragmentDefinition as Printed>⟧.has_kind
        fragment_definition_kind fragment_definition_tree no_types [] [] }
{}

/// Each part that is no printed kind is read in one way: variable definitions, which may be left out, before anything
/// but `(`; a selection set whatever follows it.
pub fn parts_are_read_in_one_way()
    ensures variable_lists { IsReadOneWay variable_definitions_form (marks (lparen ∷ [])) }
    ensures selection_sets { IsReadOneWay selection_set_form [] }
{}
