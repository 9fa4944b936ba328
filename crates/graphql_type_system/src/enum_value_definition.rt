//! Definitions of enum values, which enum types have.
ghost use Rattle.std.specs.Prelude.{◌≡◌, [], None};

pub(crate) mod print;

use graphql_base::name::Name;
use graphql_base::node::NodeStr;
use graphql_values::directive_list::DirectiveList;
use std::alloc::Global;

/// A value of an enum type (`EnumValueDefinition`, section 3.9).
///
/// Equality and hash ignore source locations.
///
/// ```
/// let mut large = EnumValueDefinition::new(alloc, name!(LARGE));
/// let deprecated = Directive::new(alloc, name!(deprecated));
/// large.directives.0.push(Node::new(alloc, deprecated)?)?;
/// println!(rt; "{}", large.serialize().no_indent())?; // LARGE @deprecated
/// ```
#[derive(Clone, PartialEq, Eq, Hash, Debug, Drop)]
pub struct EnumValueDefinition {
    /// The string before the value.
    pub description: Option<NodeStr>,
    /// The value. `true`, `false` and `null` aren't well formed.
    pub value: Name,
    /// The directives at its end. A variable in their arguments isn't well formed.
    pub directives: DirectiveList,
}

impl EnumValueDefinition {
    /// A value without a description and directives. It allocates no memory. One named `true`, `false` or `null` isn't
    /// well formed.
    ///
    /// ```
    /// EnumValueDefinition::new(alloc, name!(LARGE)) // LARGE
    /// ```
    pub fn new(alloc: Global, value: Name) -> EnumValueDefinition
        ensures description { result.description ≡ None }
        ensures value { result.value ≡ value }
        ensures directives { result.directives.0.items ≡ [] }
    {
        EnumValueDefinition {
            description: None,
            value,
            directives: DirectiveList::new(alloc),
        }
    }
}
