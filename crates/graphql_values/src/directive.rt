//! Directives, and their arguments by name.
ghost use Rattle.std.specs.Prelude.{◌≡◌, ◌↔◌, IfErr, IfOk, IfSome, IsErrOf, IsTrue, [], None, Some, length, ◌<◌, option_copied, position};
ghost use Rattle.std.specs.Borrow.{sem};
ghost use Rattle.std.specs.List.{HoldsAt};
ghost use Rattle.std.specs.Option.{option_map};
ghost use Rattle.graphql_base.specs.Name.{name_text};
ghost use Rattle.graphql_values.specs.code.ArgumentValues.{argument_answer, argument_by_name};
ghost use Rattle.graphql_values.specs.code.Queries.{argument_value, definition_under, first_argument_named, is_argument_named};
ghost use Rattle.graphql_values.specs.code.Loans.{LendsArgumentValue, LendsSpecifiedValue, LendsValueAt};

pub(crate) mod print;

use crate::argument::Argument;
use crate::directive_definition::DirectiveDefinition;
use crate::value::Value;
use graphql_base::name::Name;
use graphql_base::node::Node;
use indexmap::IndexMap;
use std::alloc::{AllocError, Global};
use thiserror::Error;

/// A directive (`Directive`, section 2.12).
///
/// The arguments stand in order; of arguments with one name each is kept. Equality and hash ignore source locations.
///
/// ```
/// let mut directive = Directive::new(alloc, name!(deprecated));
/// let reason = Node::new(alloc, value!(in alloc; "use `name`")?)?;
/// directive.arguments.push(Argument::new_node(alloc, name!(reason), reason)?)?;
/// println!(rt; "{directive}")?; // @deprecated(reason: "use `name`")
/// ```
#[derive(Clone, PartialEq, Eq, Hash, Debug, Drop)]
pub struct Directive {
    /// The name, without `@`.
    pub name: Name,
    /// What stands in brackets; without arguments no brackets are printed.
    pub arguments: Vec<Node<Argument>>,
}

/// What an argument of a directive stands for.
///
/// ```
/// if let Ok(ArgumentValue::Value(reason)) = directive.argument_by_name("reason", &definitions) {
///     println!(rt; "{reason}")?; // "use `name`" for @deprecated(reason: "use `name`")
/// }
/// ```
#[derive(Clone, Copy, Debug)]
pub enum ArgumentValue<'a> {
    /// The value that is specified, or the default value.
    Value(&'a Node<Value>),
    /// The argument is not specified, may be left out, and has no default value.
    ImplicitNull,
}

/// Why an argument of a directive has no value.
///
/// ```
/// let definitions = IndexMap::new(alloc);
/// let tag = Directive::new(alloc, name!(tag));
/// tag.argument_by_name("name", &definitions) // Err(ArgumentByNameError::UndefinedDirective)
/// ```
#[derive(Clone, Copy, Debug, PartialEq, Eq)]
pub enum ArgumentByNameError {
    /// The argument is not specified, and there is no definition of the directive.
    UndefinedDirective,
    /// The argument is not specified, and the directive's definition has none of that name.
    NoSuchArgument,
    /// The argument is not specified, has a non-null type and no default value.
    RequiredArgumentNotSpecified,
}

/// Why the value of an argument can't be written to.
///
/// ```
/// let mut directive = Directive::new(alloc, name!(deprecated));
/// directive.specified_argument_by_name_mut("reason") // Err(SpecifiedArgumentError::NotSpecified)
/// ```
#[derive(Clone, Copy, Debug, PartialEq, Eq, Error)]
pub enum SpecifiedArgumentError {
    /// The directive has no argument of that name.
    #[error("no argument of that name")]
    NotSpecified,
    /// Memory was refused.
    #[error("out of memory")]
    Memory,
}

impl SpecifiedArgumentError {
    /// Whether memory was refused.
    ///
    /// ```
    /// SpecifiedArgumentError::NotSpecified.is_memory() // false
    /// ```
    pub fn is_memory(&self) -> bool
        ensures { IsTrue result ↔ (self.now ≡ SpecifiedArgumentError.Memory) }
    {
        matches!(self, Self::Memory)
    }
}

impl From<AllocError> for SpecifiedArgumentError {
    ghost use Rattle.graphql_values.specs.declared.directive.SpecifiedArgumentError.{SpecifiedArgumentError};

    ghost from_gives = { λ _ error. error ≡ SpecifiedArgumentError.Memory };

    fn from(_: AllocError) -> SpecifiedArgumentError {
        SpecifiedArgumentError::Memory
    }
}

/// The value of an argument, of which this node has a copy of its own then.
fn value_mut(argument: &mut Node<Argument>) -> Result<&mut Node<Value>, SpecifiedArgumentError>
    ensures* writes_back { sem 𝓛 (LendsArgumentValue argument.entry result) }
    ensures value { IfOk result (λ value. value.now ≡ argument_value argument.old) }
    ensures memory { IfErr result (λ error. error ≡ SpecifiedArgumentError.Memory) }
{
    Ok(&mut argument.make_mut()?.value)
}

fn find_definition<'a>(
    definitions: &'a IndexMap<Name, Node<DirectiveDefinition>>,
    name: &Name,
) -> Option<&'a Node<DirectiveDefinition>>
    ensures { option_copied result ≡ definition_under (name_text name.now) definitions.now.entries }
{
    definitions.get(name)
}

impl Directive {
    /// A directive without arguments. It takes no memory.
    ///
    /// ```
    /// Directive::new(alloc, name!(deprecated)) // @deprecated
    /// ```
    pub fn new(alloc: Global, name: Name) -> Directive
        ensures name { result.name ≡ name }
        ensures arguments { result.arguments.items ≡ [] }
    {
        let arguments = Vec::new(alloc);
        Directive { name, arguments }
    }

    fn specified_argument_index(&self, name: &str) -> Option<usize>
        ensures index { result ≡ position (is_argument_named name.now) self.now.arguments.items }
        ensures within { IfSome result (λ index. index < length self.now.arguments.items) }
    {
        self.arguments
            .iter()
            .position(|node| node.name.as_str() == name)
    }

    /// The value of the first argument of that name.
    pub fn specified_argument_by_name(&self, name: &str) -> Option<&Node<Value>>
        ensures { option_copied result
            ≡ option_map argument_value (first_argument_named name.now self.now.arguments.items) }
    {
        let index = self.specified_argument_index(name)?;
        Some(&self.arguments[index].value)
    }

    /// The value of the argument of that name: the value of the first one that the directive specifies, whatever the
    /// definitions say; or else the default value that the directive's definition gives it, or else `ImplicitNull`.
    ///
    /// The definition is what the map has under the directive's name. For an argument that isn't specified it returns
    /// `UndefinedDirective` where the map has none; else `NoSuchArgument` where the definition has no argument of that
    /// name; else `RequiredArgumentNotSpecified` where that has a non-null type and no default value.
    pub fn argument_by_name<'a>(
        &'a self,
        name: &str,
        definitions: &'a IndexMap<Name, Node<DirectiveDefinition>>,
    ) -> Result<ArgumentValue<'a>, ArgumentByNameError>
        ensures { argument_answer result
            ≡ argument_by_name self.now name.now definitions.now.entries }
    {
        if let Some(value) = self.specified_argument_by_name(name) {
            return Ok(ArgumentValue::Value(value));
        }
        let Some(definition) = find_definition(definitions, &self.name) else {
            return Err(ArgumentByNameError::UndefinedDirective);
        };
        let Some(argument) = definition.argument_by_name(name) else {
            return Err(ArgumentByNameError::NoSuchArgument);
        };
        match &argument.default_value {
            Some(value) => Ok(ArgumentValue::Value(value)),
            None if argument.ty.is_non_null() => Err(
                ArgumentByNameError::RequiredArgumentNotSpecified,
            ),
            None => Ok(ArgumentValue::ImplicitNull),
        }
    }

    /// The value of the argument at that index.
    fn value_at(&mut self, index: usize) -> Result<&mut Node<Value>, SpecifiedArgumentError>
        requires { index < length self.old.arguments.items }
        ensures* writes_back { sem 𝓛 (LendsValueAt self.entry index result) }
        ensures value { IfOk result (λ value.
            HoldsAt
            (λ argument. value.now ≡ argument_value argument) self.old.arguments.items index) }
        ensures memory { IfErr result (λ error. error ≡ SpecifiedArgumentError.Memory) }
    {
        value_mut(&mut self.arguments[index])
    }

    /// The value of the first argument of that name, to write to. Where another directive shares the argument, this
    /// one first takes a copy of its own.
    ///
    /// What is written is seen in this directive alone. The argument's name and location stay, and no other argument
    /// is touched. `NotSpecified` exactly where there is no argument of that name; no memory is asked for then.
    /// `Memory` where the copy is refused. On either error the directive is as it was.
    pub fn specified_argument_by_name_mut(
        &mut self,
        name: &str,
    ) -> Result<&mut Node<Value>, SpecifiedArgumentError>
        ensures* writes_back { sem 𝓛 (LendsSpecifiedValue self.entry name.now result) }
        ensures value { IfOk result (λ value.
            option_map argument_value (first_argument_named name.now self.old.arguments.items)
            ≡ Some value.now) }
        ensures not_specified { IsErrOf result SpecifiedArgumentError.NotSpecified
            ↔ (first_argument_named name.now self.old.arguments.items ≡ None) }
    {
        match self.specified_argument_index(name) {
            Some(index) => self.value_at(index),
            None => Err(SpecifiedArgumentError::NotSpecified),
        }
    }
}
