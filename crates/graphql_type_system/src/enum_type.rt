//! Enum types: definitions and extensions.
ghost use Rattle.std.specs.Prelude.{◌≡◌, [], None, option_copied};
ghost use Rattle.graphql_type_system.specs.code.TypeSystemQueries.{first_enum_value_definition_named};

pub(crate) mod print;

use crate::enum_value_definition::EnumValueDefinition;
use graphql_base::name::Name;
use graphql_base::node::{Node, NodeStr};
use graphql_values::directive_list::DirectiveList;
use std::alloc::Global;

/// A definition of an enum type (`EnumTypeDefinition`, section 3.9).
///
/// Equality and hash ignore source locations.
///
/// ```
/// let small = EnumValueDefinition::new(alloc, name!(SMALL));
/// let large = EnumValueDefinition::new(alloc, name!(LARGE));
/// let mut size = EnumTypeDefinition::new(alloc, name!(Size));
/// size.values = vec![in alloc; Node::new(alloc, small)?, Node::new(alloc, large)?]?;
/// println!(rt; "{}", size.serialize().no_indent())?; // enum Size { SMALL LARGE }
/// ```
#[derive(Clone, PartialEq, Eq, Hash, Debug, Drop)]
pub struct EnumTypeDefinition {
    /// The string before `enum`.
    pub description: Option<NodeStr>,
    /// The name of the type.
    pub name: Name,
    /// The directives behind the name. A variable in their arguments isn't well formed.
    pub directives: DirectiveList,
    /// The values, in order.
    pub values: Vec<Node<EnumValueDefinition>>,
}

impl EnumTypeDefinition {
    /// An enum type without a description, directives and values. It allocates no memory.
    ///
    /// ```
    /// EnumTypeDefinition { values, ..EnumTypeDefinition::new(alloc, name!(Size)) } // enum Size { .. }
    /// ```
    pub fn new(alloc: Global, name: Name) -> EnumTypeDefinition
        ensures description { result.description ≡ None }
        ensures name { result.name ≡ name }
        ensures directives { result.directives.0.items ≡ [] }
        ensures values { result.values.items ≡ [] }
    {
        EnumTypeDefinition {
            description: None,
            name,
            directives: DirectiveList::new(alloc),
            values: Vec::new(alloc),
        }
    }

    /// The first value of that name, or `None` if the type has none.
    ///
    /// ```
    /// size.value_by_name("LARGE")?.directives
    /// ```
    pub fn value_by_name(&self, name: &str) -> Option<&Node<EnumValueDefinition>>
        ensures { option_copied result
            ≡ first_enum_value_definition_named name.now self.now.values.items }
    {
        self.values.iter().find(|node| node.value.as_str() == name)
    }
}

/// An extension of an enum type (`EnumTypeExtension`, section 3.9).
///
/// One that adds nothing isn't well formed: it has a directive or a value.
///
/// Equality and hash ignore source locations.
///
/// ```
/// let medium = EnumValueDefinition::new(alloc, name!(MEDIUM));
/// let mut size = EnumTypeExtension::new(alloc, name!(Size));
/// size.values.push(Node::new(alloc, medium)?)?;
/// println!(rt; "{}", size.serialize().no_indent())?; // extend enum Size { MEDIUM }
/// ```
#[derive(Clone, PartialEq, Eq, Hash, Debug, Drop)]
pub struct EnumTypeExtension {
    /// The name of the type that is extended.
    pub name: Name,
    /// The directives behind the name. A variable in their arguments isn't well formed.
    pub directives: DirectiveList,
    /// The values, in order.
    pub values: Vec<Node<EnumValueDefinition>>,
}

impl EnumTypeExtension {
    /// An extension that adds nothing yet. It allocates no memory, and isn't well formed before it has a directive or a
    /// value.
    ///
    /// ```
    /// EnumTypeExtension { values, ..EnumTypeExtension::new(alloc, name!(Size)) } // extend enum Size { .. }
    /// ```
    pub fn new(alloc: Global, name: Name) -> EnumTypeExtension
        ensures name { result.name ≡ name }
        ensures directives { result.directives.0.items ≡ [] }
        ensures values { result.values.items ≡ [] }
    {
        EnumTypeExtension {
            name,
            directives: DirectiveList::new(alloc),
            values: Vec::new(alloc),
        }
    }

    /// The first value of that name, or `None` if the extension has none.
    ///
    /// ```
    /// size.value_by_name("LARGE")?.directives
    /// ```
    pub fn value_by_name(&self, name: &str) -> Option<&Node<EnumValueDefinition>>
        ensures { option_copied result
            ≡ first_enum_value_definition_named name.now self.now.values.items }
    {
        self.values.iter().find(|node| node.value.as_str() == name)
    }
}
