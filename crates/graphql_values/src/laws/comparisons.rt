//! What holds of trees and errors as they are compared, hashed and cloned.
ghost use Rattle.std.specs.Prelude.{◌≡◌, ◌↔◌, IsTrue};
ghost use Rattle.graphql_text.specs.trees.Comparisons.{◌&◌, ClonesKeep, IsComparedBy, IsHashedAlike};
ghost use Rattle.graphql_values.specs.trees.DefinitionTrees.{directive_definition_tree, input_value_definition_tree};
ghost use Rattle.graphql_values.specs.trees.DirectiveTrees.{argument_tree, directive_tree, directive_trees};
ghost use Rattle.graphql_values.specs.trees.Literals.{float_text, int_text};
ghost use Rattle.graphql_values.specs.trees.LocationTrees.{location_tree, operation_type_tree};
ghost use Rattle.graphql_values.specs.trees.TypeTrees.{type_tree, type_wrapping};
ghost use Rattle.graphql_values.specs.trees.ValueTrees.{IsCloneOf, value_tree};
ghost use Rattle.graphql_values.specs.declared.directive.ArgumentByNameError.{ArgumentByNameError};
ghost use Rattle.graphql_values.specs.declared.directive.SpecifiedArgumentError.{SpecifiedArgumentError};
ghost use Rattle.graphql_values.specs.declared.value.Value.{Value};

use crate::argument::Argument;
use crate::directive::{ArgumentByNameError, Directive, SpecifiedArgumentError};
use crate::directive_definition::DirectiveDefinition;
use crate::directive_list::DirectiveList;
use crate::directive_location::DirectiveLocation;
use crate::input_value_definition::InputValueDefinition;
use crate::literal::{FloatValue, IntValue};
use crate::operation_type::OperationType;
use crate::types::Type;
use crate::value::Value;
use std::hash::Hash;

/// Two parts that are no printed kind are equal exactly if their trees are the same: wherever they stand in a source text.
pub fn compared_by_tree()
    ensures ints { IsComparedBy ⟦<IntValue as PartialEq>⟧.eq int_text }
    ensures floats { IsComparedBy ⟦<FloatValue as PartialEq>⟧.eq float_text }
    ensures arguments { IsComparedBy ⟦<Argument as PartialEq>⟧.eq argument_tree }
    ensures operation_types { IsComparedBy ⟦<OperationType as PartialEq>⟧.eq operation_type_tree }
    ensures locations { IsComparedBy ⟦<DirectiveLocation as PartialEq>⟧.eq location_tree }
{}

/// Two errors are equal exactly if they are the same variant.
pub fn errors_compare_by_variant()
    ensures argument_by_name { (a b : ArgumentByNameError) →
        IsTrue (⟦<ArgumentByNameError as PartialEq>⟧.eq a b) ↔ (a ≡ b) }
    ensures specified_argument { (a b : SpecifiedArgumentError) →
        IsTrue (⟦<SpecifiedArgumentError as PartialEq>⟧.eq a b) ↔ (a ≡ b) }
{}

/// What is equal of them hashes alike.
pub fn equal_trees_hash_alike()
    ensures ints { IsHashedAlike ⟦<IntValue as PartialEq>⟧.eq ⟦<IntValue as Hash>⟧.hash_input }
    ensures floats { IsHashedAlike ⟦<FloatValue as PartialEq>⟧.eq
        ⟦<FloatValue as Hash>⟧.hash_input }
    ensures arguments { IsHashedAlike ⟦<Argument as PartialEq>⟧.eq ⟦<Argument as Hash>⟧.hash_input }
    ensures operation_types { IsHashedAlike ⟦<OperationType as PartialEq>⟧.eq
        ⟦<OperationType as Hash>⟧.hash_input }
    ensures locations { IsHashedAlike ⟦<DirectiveLocation as PartialEq>⟧.eq
        ⟦<DirectiveLocation as Hash>⟧.hash_input }
{}

/// A clone has the same tree, and the very names, nodes and other parts, at the same locations.
pub fn clones_are_the_same()
    ensures ints { ClonesKeep ⟦<IntValue as Clone>⟧.is_clone (λ it. it) }
    ensures floats { ClonesKeep ⟦<FloatValue as Clone>⟧.is_clone (λ it. it) }
    ensures values { (a b : Value) → ⟦<Value as Clone>⟧.is_clone a b →
        IsCloneOf a b × (value_tree b ≡ value_tree a) }
    ensures types { ClonesKeep ⟦<Type as Clone>⟧.is_clone (λ it. type_wrapping it & type_tree it) }
    ensures arguments { ClonesKeep ⟦<Argument as Clone>⟧.is_clone (λ it. it) }
    ensures directives { ClonesKeep ⟦<Directive as Clone>⟧.is_clone
        (λ it. it.name & it.arguments.items & directive_tree it) }
    ensures directive_lists { ClonesKeep ⟦<DirectiveList as Clone>⟧.is_clone (λ it. it.0.items
        & directive_trees it) }
    ensures input_value_definitions { ClonesKeep ⟦<InputValueDefinition as Clone>⟧.is_clone
        (λ it. it.description & it.name & it.ty & it.default_value & it.directives.0.items
        & input_value_definition_tree it) }
    ensures directive_definitions { ClonesKeep ⟦<DirectiveDefinition as Clone>⟧.is_clone
        (λ it. it.description & it.name & it.arguments.items & it.repeatable & it.locations.items
        & directive_definition_tree it) }
    ensures operation_types { ClonesKeep ⟦<OperationType as Clone>⟧.is_clone (λ it. it) }
    ensures locations { ClonesKeep ⟦<DirectiveLocation as Clone>⟧.is_clone (λ it. it) }
{}
