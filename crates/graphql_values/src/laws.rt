//! What holds of values, types, arguments, directives, input value definitions and directive definitions as they are
//! printed and read.
//!
//! Each function does nothing: its contract is the law, with one clause a kind.
ghost use Rattle.std.specs.Prelude.{[], ◌∷◌};
ghost use Rattle.graphql_text.specs.parts.Descriptions.{description_form};
ghost use Rattle.graphql_text.specs.grammar.Forms.{a_string_value, marks};
ghost use Rattle.graphql_text.specs.grammar.OneReading.{IsReadOneWay};
ghost use Rattle.graphql_text.specs.kinds.PrintedKinds.{IsPrintedKind, no_types};
ghost use Rattle.graphql_text.specs.kinds.Reading.{Laws};
ghost use Rattle.graphql_text.specs.lexical.Tokens.{at, bang, bar, equals, lparen};
ghost use Rattle.graphql_values.specs.kinds.Arguments.{argument_form, argument_kind, arguments_form};
ghost use Rattle.graphql_values.specs.kinds.ArgumentsDefinitions.{arguments_definition_form, arguments_list_depth};
ghost use Rattle.graphql_values.specs.kinds.DefaultValues.{default_value_form};
ghost use Rattle.graphql_values.specs.trees.DefinitionTrees.{directive_definition_tree, input_value_definition_tree};
ghost use Rattle.graphql_values.specs.kinds.DirectiveDefinitions.{directive_definition_kind};
ghost use Rattle.graphql_values.specs.trees.DirectiveTrees.{directive_tree, directive_trees};
ghost use Rattle.graphql_values.specs.kinds.Directives.{directive_form, directive_kind, directives_form, directives_kind};
ghost use Rattle.graphql_values.specs.kinds.InputValueDefinitions.{input_value_definition_kind};
ghost use Rattle.graphql_values.specs.kinds.OperationTypes.{operation_type_form};
ghost use Rattle.graphql_values.specs.kinds.TypeReferences.{list_depth, type_kind};
ghost use Rattle.graphql_values.specs.trees.TypeTrees.{type_tree};
ghost use Rattle.graphql_values.specs.trees.ValueTrees.{value_tree};
ghost use Rattle.graphql_values.specs.kinds.Values.{Constness, value_form, value_kind};

mod comparisons;
mod directives;
mod kinds;
mod readings;
mod types;

use crate::directive::Directive;
use crate::directive_definition::DirectiveDefinition;
use crate::directive_list::DirectiveList;
use crate::input_value_definition::InputValueDefinition;
pub use crate::laws::comparisons::{
    clones_are_the_same, compared_by_tree, equal_trees_hash_alike, errors_compare_by_variant,
};
pub use crate::laws::directives::{directive_look_ups_agree, get_all_ends};
pub use crate::laws::kinds::printed_tokens_derive_the_tree;
pub use crate::laws::readings::{
    refused_numbers, refused_readings, refused_strings, worked_readings, worked_strings,
};
pub use crate::laws::types::{
    assignability_is_an_order, nullability_is_set, types_are_wrapped_names,
};
use crate::types::Type;
use crate::value::Value;
use graphql_text::engine::Printed;
use std::fmt::Display;
use std::hash::Hash;

/// Each of these types has the kind that its clause names, and all that `IsPrintedKind` says of it: what is printed and
/// what is displayed of it is read back, it is read in one way before what may follow it, and it is compared and hashed
/// by its tree. A type has no `Syntax`, and is displayed on one line. A list of directives may be empty, and a type obeys
/// the side conditions always.
pub fn printed_kinds()
    ensures values { ⟦<Value as Printed>⟧.has_kind value_kind value_tree no_types [] [] }
    ensures types { IsPrintedKind type_kind type_tree list_depth ⟦<Type as Display>⟧.output
        ⟦<Type as PartialEq>⟧.eq ⟦<Type as Hash>⟧.hash_input type_kind type_tree list_depth
        (marks (bang ∷ [])) [] }
    ensures directives { ⟦<Directive as Printed>⟧.has_kind directive_kind directive_tree no_types
        (marks (lparen ∷ [])) [] }
    ensures directive_lists { ⟦<DirectiveList as Printed>⟧.has_kind directives_kind directive_trees
        no_types (marks (at ∷ lparen ∷ [])) [] }
    ensures input_value_definitions { ⟦<InputValueDefinition as Printed>⟧.has_kind
        input_value_definition_kind input_value_definition_tree
        (λ input. list_depth input.body.type) (marks (bang ∷ equals ∷ at ∷ lparen ∷ [])) [] }
    ensures directive_definitions { ⟦<DirectiveDefinition as Printed>⟧.has_kind
        directive_definition_kind directive_definition_tree
        (λ definition. arguments_list_depth definition.body.arguments) (marks (bar ∷ [])) [] }
{}

/// Arguments, which are printed only as parts, have the laws of a kind.
pub fn arguments_are_read_back()
    ensures { Laws argument_kind }
{}

/// Each part that is no printed kind is read in one way, and each that may stand in a const context is there too: a
/// value and an argument whatever follows it; arguments, which may be left out, before anything but `(`; a directive
/// before anything but `(`, a list of directives before anything but `@` and `(`; a description before anything but a
/// string, a default value before anything but `=`; an arguments definition, which may be left out, before anything but
/// `(`; an operation type whatever follows it.
pub fn parts_are_read_in_one_way()
    ensures values { (c : Constness) → IsReadOneWay (value_form c) [] }
    ensures arguments { (c : Constness) → IsReadOneWay (argument_form c) [] }
    ensures argument_lists { (c : Constness) →
        IsReadOneWay (arguments_form c) (marks (lparen ∷ [])) }
    ensures directives { (c : Constness) → IsReadOneWay (directive_form c) (marks (lparen ∷ [])) }
    ensures directive_lists { (c : Constness) →
        IsReadOneWay (directives_form c) (marks (at ∷ lparen ∷ [])) }
    ensures descriptions { IsReadOneWay description_form (a_string_value ∷ []) }
    ensures default_values { IsReadOneWay default_value_form (marks (equals ∷ [])) }
    ensures arguments_definitions { IsReadOneWay arguments_definition_form (marks (lparen ∷ [])) }
    ensures operation_types { IsReadOneWay operation_type_form [] }
{}
