//! Interface types: definitions and extensions.
ghost use Rattle.std.specs.Prelude.{◌≡◌, [], None, option_copied};
ghost use Rattle.graphql_type_system.specs.code.TypeSystemQueries.{first_field_definition_named};

pub(crate) mod print;

use crate::field_definition::FieldDefinition;
use graphql_base::name::Name;
use graphql_base::node::{Node, NodeStr};
use graphql_values::directive_list::DirectiveList;
use std::alloc::Global;

/// A definition of an interface type (`InterfaceTypeDefinition`, section 3.7).
///
/// Equality and hash ignore source locations.
///
/// ```
/// let id = FieldDefinition::new(alloc, name!(id), ty!(ID!));
/// let mut node = InterfaceTypeDefinition::new(alloc, name!(Node));
/// node.fields.push(Node::new(alloc, id)?)?;
/// println!(rt; "{}", node.serialize().no_indent())?; // interface Node { id: ID! }
/// ```
#[derive(Clone, PartialEq, Eq, Hash, Debug, Drop)]
pub struct InterfaceTypeDefinition {
    /// The string before `interface`.
    pub description: Option<NodeStr>,
    /// The name of the type.
    pub name: Name,
    /// The interfaces that the type implements, in order.
    pub implements_interfaces: Vec<Name>,
    /// The directives behind the interfaces. A variable in their arguments isn't well formed.
    pub directives: DirectiveList,
    /// The fields, in order.
    pub fields: Vec<Node<FieldDefinition>>,
}

impl InterfaceTypeDefinition {
    /// An interface type without a description, interfaces, directives and fields. It allocates no memory.
    ///
    /// ```
    /// InterfaceTypeDefinition { fields, ..InterfaceTypeDefinition::new(alloc, name!(Node)) } // interface Node { .. }
    /// ```
    pub fn new(alloc: Global, name: Name) -> InterfaceTypeDefinition
        ensures description { result.description ≡ None }
        ensures name { result.name ≡ name }
        ensures implements_interfaces { result.implements_interfaces.items ≡ [] }
        ensures directives { result.directives.0.items ≡ [] }
        ensures fields { result.fields.items ≡ [] }
    {
        InterfaceTypeDefinition {
            description: None,
            name,
            implements_interfaces: Vec::new(alloc),
            directives: DirectiveList::new(alloc),
            fields: Vec::new(alloc),
        }
    }

    /// The first field of that name, or `None` if the type has none.
    ///
    /// ```
    /// node.field_by_name("id")?.ty
    /// ```
    pub fn field_by_name(&self, name: &str) -> Option<&Node<FieldDefinition>>
        ensures { option_copied result
            ≡ first_field_definition_named name.now self.now.fields.items }
    {
        self.fields.iter().find(|node| node.name.as_str() == name)
    }
}

/// An extension of an interface type (`InterfaceTypeExtension`, section 3.7).
///
/// One that adds nothing isn't well formed: it has an interface, a directive or a field.
///
/// Equality and hash ignore source locations.
///
/// ```
/// let mut node = InterfaceTypeExtension::new(alloc, name!(Node));
/// node.implements_interfaces.push(name!(Entity))?;
/// println!(rt; "{}", node.serialize().no_indent())?; // extend interface Node implements Entity
/// ```
#[derive(Clone, PartialEq, Eq, Hash, Debug, Drop)]
pub struct InterfaceTypeExtension {
    /// The name of the type that is extended.
    pub name: Name,
    /// The interfaces that the type implements, in order.
    pub implements_interfaces: Vec<Name>,
    /// The directives behind the interfaces. A variable in their arguments isn't well formed.
    pub directives: DirectiveList,
    /// The fields, in order.
    pub fields: Vec<Node<FieldDefinition>>,
}

impl InterfaceTypeExtension {
    /// An extension that adds nothing yet. It allocates no memory, and isn't well formed before it has an interface, a
    /// directive or a field.
    ///
    /// ```
    /// InterfaceTypeExtension { fields, ..InterfaceTypeExtension::new(alloc, name!(Node)) } // extend interface Node ..
    /// ```
    pub fn new(alloc: Global, name: Name) -> InterfaceTypeExtension
        ensures name { result.name ≡ name }
        ensures implements_interfaces { result.implements_interfaces.items ≡ [] }
        ensures directives { result.directives.0.items ≡ [] }
        ensures fields { result.fields.items ≡ [] }
    {
        InterfaceTypeExtension {
            name,
            implements_interfaces: Vec::new(alloc),
            directives: DirectiveList::new(alloc),
            fields: Vec::new(alloc),
        }
    }

    /// The first field of that name, or `None` if the extension has none.
    ///
    /// ```
    /// node.field_by_name("id")?.ty
    /// ```
    pub fn field_by_name(&self, name: &str) -> Option<&Node<FieldDefinition>>
        ensures { option_copied result
            ≡ first_field_definition_named name.now self.now.fields.items }
    {
        self.fields.iter().find(|node| node.name.as_str() == name)
    }
}
