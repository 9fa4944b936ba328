//! Object types: definitions and extensions.
ghost use Rattle.std.specs.Prelude.{◌≡◌, [], None, option_copied};
ghost use Rattle.graphql_type_system.specs.code.TypeSystemQueries.{first_field_definition_named};

pub(crate) mod print;

use crate::field_definition::FieldDefinition;
use graphql_base::name::Name;
use graphql_base::node::{Node, NodeStr};
use graphql_values::directive_list::DirectiveList;
use std::alloc::Global;

/// A definition of an object type (`ObjectTypeDefinition`, section 3.6).
///
/// Equality and hash ignore source locations.
///
/// ```
/// let id = FieldDefinition::new(alloc, name!(id), ty!(ID!));
/// let mut user = ObjectTypeDefinition::new(alloc, name!(User));
/// user.implements_interfaces.push(name!(Node))?;
/// user.fields.push(Node::new(alloc, id)?)?;
/// println!(rt; "{}", user.serialize().no_indent())?; // type User implements Node { id: ID! }
/// ```
#[derive(Clone, PartialEq, Eq, Hash, Debug, Drop)]
pub struct ObjectTypeDefinition {
    /// The string before `type`.
    pub description: Option<NodeStr>,
    /// The name of the type.
    pub name: Name,
    /// The interfaces that the type implements, in order.
    pub implements_interfaces: Vec<Name>,
    /// The directives behind the interfaces. A variable in their arguments isn't well formed.
    pub directives: DirectiveList,
    /// The fields, in order.
    pub fields: Vec<Node<FieldDefinition>>,
}

impl ObjectTypeDefinition {
    /// An object type without a description, interfaces, directives and fields. It allocates no memory.
    ///
    /// ```
    /// ObjectTypeDefinition { fields, ..ObjectTypeDefinition::new(alloc, name!(User)) } // type User { .. }
    /// ```
    pub fn new(alloc: Global, name: Name) -> ObjectTypeDefinition
        ensures description { result.description ≡ None }
        ensures name { result.name ≡ name }
        ensures implements_interfaces { result.implements_interfaces.items ≡ [] }
        ensures directives { result.directives.0.items ≡ [] }
        ensures fields { result.fields.items ≡ [] }
    {
        ObjectTypeDefinition {
            description: None,
            name,
            implements_interfaces: Vec::new(alloc),
            directives: DirectiveList::new(alloc),
            fields: Vec::new(alloc),
        }
    }

    /// The first field of that name, or `None` if the type has none.
    ///
    /// ```
    /// user.field_by_name("id")?.ty
    /// ```
    pub fn field_by_name(&self, name: &str) -> Option<&Node<FieldDefinition>>
        ensures { option_copied result
            ≡ first_field_definition_named name.now self.now.fields.items }
    {
        self.fields.iter().find(|node| node.name.as_str() == name)
    }
}

/// An extension of an object type (`ObjectTypeExtension`, section 3.6).
///
/// One that adds nothing isn't well formed: it has an interface, a directive or a field.
///
/// Equality and hash ignore source locations.
///
/// ```
/// let email = FieldDefinition::new(alloc, name!(email), ty!(String));
/// let mut user = ObjectTypeExtension::new(alloc, name!(User));
/// user.fields.push(Node::new(alloc, email)?)?;
/// println!(rt; "{}", user.serialize().no_indent())?; // extend type User { email: String }
/// ```
#[derive(Clone, PartialEq, Eq, Hash, Debug, Drop)]
pub struct ObjectTypeExtension {
    /// The name of the type that is extended.
    pub name: Name,
    /// The interfaces that the type implements, in order.
    pub implements_interfaces: Vec<Name>,
    /// The directives behind the interfaces. A variable in their arguments isn't well formed.
    pub directives: DirectiveList,
    /// The fields, in order.
    pub fields: Vec<Node<FieldDefinition>>,
}

impl ObjectTypeExtension {
    /// An extension that adds nothing yet. It allocates no memory, and isn't well formed before it has an interface, a
    /// directive or a field.
    ///
    /// ```
    /// ObjectTypeExtension { fields, ..ObjectTypeExtension::new(alloc, name!(User)) } // extend type User { .. }
    /// ```
    pub fn new(alloc: Global, name: Name) -> ObjectTypeExtension
        ensures name { result.name ≡ name }
        ensures implements_interfaces { result.implements_interfaces.items ≡ [] }
        ensures directives { result.directives.0.items ≡ [] }
        ensures fields { result.fields.items ≡ [] }
    {
        ObjectTypeExtension {
            name,
            implements_interfaces: Vec::new(alloc),
            directives: DirectiveList::new(alloc),
            fields: Vec::new(alloc),
        }
    }

    /// The first field of that name, or `None` if the extension has none.
    ///
    /// ```
    /// user.field_by_name("id")?.ty
    /// ```
    pub fn field_by_name(&self, name: &str) -> Option<&Node<FieldDefinition>>
        ensures { option_copied result
            ≡ first_field_definition_named name.now self.now.fields.items }
    {
        self.fields.iter().find(|node| node.name.as_str() == name)
    }
}
