//! Definitions of directives.
ghost use Rattle.std.specs.Prelude.{◌≡◌, ◌<◌, [], IfSome, None, false, length, option_copied, position};
ghost use Rattle.std.specs.Borrow.{sem};
ghost use Rattle.std.specs.Option.{option_copied_mut};
ghost use Rattle.graphql_values.specs.code.Loans.{LendsArgument};
ghost use Rattle.graphql_values.specs.code.Queries.{first_input_value_definition_named, is_input_value_definition_named};

pub(crate) mod print;

use crate::directive_location::DirectiveLocation;
use crate::input_value_definition::InputValueDefinition;
use graphql_base::name::Name;
use graphql_base::node::{Node, NodeStr};
use std::alloc::Global;

/// A definition of a directive (`DirectiveDefinition`, section 3.13).
///
/// Equality and hash ignore source locations.
///
/// ```
/// let mut definition = DirectiveDefinition::new(alloc, name!(tag));
/// definition.repeatable = true;
/// definition.locations.push(DirectiveLocation::Object)?;
/// println!(rt; "{definition}")?; // directive @tag repeatable on OBJECT
/// ```
#[derive(Clone, PartialEq, Eq, Hash, Debug, Drop)]
pub struct DirectiveDefinition {
    /// The string before `directive`.
    pub description: Option<NodeStr>,
    /// The name, without `@`.
    pub name: Name,
    /// The arguments that the directive takes, in order.
    pub arguments: Vec<Node<InputValueDefinition>>,
    /// Whether the directive may stand several times at one location.
    pub repeatable: bool,
    /// Where the directive may stand. A definition without a location isn't well formed.
    pub locations: Vec<DirectiveLocation>,
}

impl DirectiveDefinition {
    /// A directive without a description, arguments and locations, which may not be repeated. It takes no memory, and
    /// isn't well formed before it has a location.
    ///
    /// ```
    /// let mut definition = DirectiveDefinition::new(alloc, name!(tag));
    /// definition.locations.push(DirectiveLocation::Field)?; // directive @tag on FIELD
    /// ```
    pub fn new(alloc: Global, name: Name) -> DirectiveDefinition
        ensures description { result.description ≡ None }
        ensures name { result.name ≡ name }
        ensures arguments { result.arguments.items ≡ [] }
        ensures repeatable { result.repeatable ≡ false }
        ensures locations { result.locations.items ≡ [] }
    {
        DirectiveDefinition {
            description: None,
            name,
            arguments: Vec::new(alloc),
            repeatable: false,
            locations: Vec::new(alloc),
        }
    }

    /// The first argument of that name.
    pub fn argument_by_name(&self, name: &str) -> Option<&Node<InputValueDefinition>>
        ensures { option_copied result
            ≡ first_input_value_definition_named name.now self.now.arguments.items }
    {
        let index = self.argument_index(name)?;
        Some(&self.arguments[index])
    }

    fn argument_index(&self, name: &str) -> Option<usize>
        ensures index { result
            ≡ position (is_input_value_definition_named name.now) self.now.arguments.items }
        ensures within { IfSome result (λ index. index < length self.now.arguments.items) }
    {
        self.arguments
            .iter()
            .position(|node| node.name.as_str() == name)
    }

    /// The first argument of that name, to write to. What is written is seen in this definition alone, and no other
    /// argument changes.
    pub fn argument_by_name_mut(&mut self, name: &str) -> Option<&mut Node<InputValueDefinition>>
        ensures* writes_back { sem 𝓛 (LendsArgument self.entry name.now result) }
        ensures value { option_copied_mut result
            ≡ first_input_value_definition_named name.now self.old.arguments.items }
    {
        match self.argument_index(name) {
            Some(index) => Some(&mut self.arguments[index]),
            None => None,
        }
    }
}
