//! Scalar types: definitions and extensions.
ghost use Rattle.std.specs.Prelude.{◌≡◌, [], None};

pub(crate) mod print;

use graphql_base::name::Name;
use graphql_base::node::NodeStr;
use graphql_values::directive_list::DirectiveList;
use std::alloc::Global;

/// A definition of a scalar type (`ScalarTypeDefinition`, section 3.5).
///
/// Equality and hash ignore source locations.
///
/// ```
/// let mut date = ScalarTypeDefinition::new(alloc, name!(Date));
/// date.description = Some(NodeStr::new_str(alloc, "A day")?);
/// println!(rt; "{}", date.serialize().no_indent())?; // "A day" scalar Date
/// ```
#[derive(Clone, PartialEq, Eq, Hash, Debug, Drop)]
pub struct ScalarTypeDefinition {
    /// The string before `scalar`.
    pub description: Option<NodeStr>,
    /// The name of the type.
    pub name: Name,
    /// The directives behind the name. A variable in their arguments isn't well formed.
    pub directives: DirectiveList,
}

impl ScalarTypeDefinition {
    /// A scalar type without a description and directives. It allocates no memory.
    ///
    /// ```
    /// ScalarTypeDefinition::new(alloc, name!(Date)) // scalar Date
    /// ```
    pub fn new(alloc: Global, name: Name) -> ScalarTypeDefinition
        ensures description { result.description ≡ None }
        ensures name { result.name ≡ name }
        ensures directives { result.directives.0.items ≡ [] }
    {
        ScalarTypeDefinition {
            description: None,
            name,
            directives: DirectiveList::new(alloc),
        }
    }
}

/// An extension of a scalar type (`ScalarTypeExtension`, section 3.5).
///
/// One that adds nothing isn't well formed: it has a directive.
///
/// Equality and hash ignore source locations.
///
/// ```
/// let mut date = ScalarTypeExtension::new(alloc, name!(Date));
/// let utc = Directive::new(alloc, name!(utc));
/// date.directives.0.push(Node::new(alloc, utc)?)?;
/// println!(rt; "{}", date.serialize().no_indent())?; // extend scalar Date @utc
/// ```
#[derive(Clone, PartialEq, Eq, Hash, Debug, Drop)]
pub struct ScalarTypeExtension {
    /// The name of the type that is extended.
    pub name: Name,
    /// The directives behind the name. A variable in their arguments isn't well formed.
    pub directives: DirectiveList,
}

impl ScalarTypeExtension {
    /// An extension that adds nothing yet. It allocates no memory, and isn't well formed before it has a directive.
    ///
    /// ```
    /// ScalarTypeExtension { directives, ..ScalarTypeExtension::new(alloc, name!(Date)) } // extend scalar Date @..
    /// ```
    pub fn new(alloc: Global, name: Name) -> ScalarTypeExtension
        ensures name { result.name ≡ name }
        ensures directives { result.directives.0.items ≡ [] }
    {
        ScalarTypeExtension {
            name,
            directives: DirectiveList::new(alloc),
        }
    }
}
