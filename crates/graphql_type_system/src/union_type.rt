//! Union types: definitions and extensions.
ghost use Rattle.std.specs.Prelude.{◌≡◌, [], None};

pub(crate) mod print;

use graphql_base::name::{Name, NamedType};
use graphql_base::node::NodeStr;
use graphql_values::directive_list::DirectiveList;
use std::alloc::Global;

/// A definition of an union type (`UnionTypeDefinition`, section 3.8).
///
/// Equality and hash ignore source locations.
///
/// ```
/// let mut found = UnionTypeDefinition::new(alloc, name!(Found));
/// found.members = vec![in alloc; name!(User), name!(Post)]?;
/// println!(rt; "{}", found.serialize().no_indent())?; // union Found = User | Post
/// ```
#[derive(Clone, PartialEq, Eq, Hash, Debug, Drop)]
pub struct UnionTypeDefinition {
    /// The string before `union`.
    pub description: Option<NodeStr>,
    /// The name of the type.
    pub name: Name,
    /// The directives behind the name. A variable in their arguments isn't well formed.
    pub directives: DirectiveList,
    /// The names of the object types that a value may be of, in order.
    pub members: Vec<NamedType>,
}

impl UnionTypeDefinition {
    /// A union type without a description, directives and members. It allocates no memory.
    ///
    /// ```
    /// UnionTypeDefinition { members, ..UnionTypeDefinition::new(alloc, name!(Found)) } // union Found = ..
    /// ```
    pub fn new(alloc: Global, name: Name) -> UnionTypeDefinition
        ensures description { result.description ≡ None }
        ensures name { result.name ≡ name }
        ensures directives { result.directives.0.items ≡ [] }
        ensures members { result.members.items ≡ [] }
    {
        UnionTypeDefinition {
            description: None,
            name,
            directives: DirectiveList::new(alloc),
            members: Vec::new(alloc),
        }
    }
}

/// An extension of an union type (`UnionTypeExtension`, section 3.8).
///
/// One that adds nothing isn't well formed: it has a directive or a member.
///
/// Equality and hash ignore source locations.
///
/// ```
/// let mut found = UnionTypeExtension::new(alloc, name!(Found));
/// found.members.push(name!(Comment))?;
/// println!(rt; "{}", found.serialize().no_indent())?; // extend union Found = Comment
/// ```
#[derive(Clone, PartialEq, Eq, Hash, Debug, Drop)]
pub struct UnionTypeExtension {
    /// The name of the type that is extended.
    pub name: Name,
    /// The directives behind the name. A variable in their arguments isn't well formed.
    pub directives: DirectiveList,
    /// The names of the object types that a value may be of, in order.
    pub members: Vec<NamedType>,
}

impl UnionTypeExtension {
    /// An extension that adds nothing yet. It allocates no memory, and isn't well formed before it has a directive or a
    /// member.
    ///
    /// ```
    /// UnionTypeExtension { members, ..UnionTypeExtension::new(alloc, name!(Found)) } // extend union Found = ..
    /// ```
    pub fn new(alloc: Global, name: Name) -> UnionTypeExtension
        ensures name { result.name ≡ name }
        ensures directives { result.directives.0.items ≡ [] }
        ensures members { result.members.items ≡ [] }
    {
        UnionTypeExtension {
            name,
            directives: DirectiveList::new(alloc),
            members: Vec::new(alloc),
        }
    }
}
