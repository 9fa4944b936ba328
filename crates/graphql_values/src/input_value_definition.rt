//! Definitions of input values, which directives, fields and input objects have.
ghost use Rattle.std.specs.Prelude.{◌≡◌, [], None};
ghost use Rattle.graphql_values.specs.code.Queries.{is_required};

pub(crate) mod print;

use crate::directive_list::DirectiveList;
use crate::types::Type;
use crate::value::Value;
use graphql_base::name::Name;
use graphql_base::node::{Node, NodeStr};
use std::alloc::Global;

/// An argument of a field or a directive, or a field of an input object (`InputValueDefinition`, section 3.6.1).
///
/// Equality and hash ignore source locations.
///
/// ```
/// let mut first = InputValueDefinition::new(alloc, name!(first), Node::new(alloc, ty!(Int!))?);
/// first.default_value = Some(Node::new(alloc, value!(in alloc; 10)?)?); // first: Int! = 10
/// first.is_required() // false
/// ```
#[derive(Clone, PartialEq, Eq, Hash, Debug, Drop)]
pub struct InputValueDefinition {
    /// The string before the name.
    pub description: Option<NodeStr>,
    /// The name that stands before `:`.
    pub name: Name,
    /// The type of the values that it takes.
    pub ty: Node<Type>,
    /// The value that it has where none is given. A variable in it isn't well formed.
    pub default_value: Option<Node<Value>>,
    /// The directives at its end. A variable in their arguments isn't well formed.
    pub directives: DirectiveList,
}

impl InputValueDefinition {
    /// An input value without a description, a default value and directives. It takes no memory.
    ///
    /// ```
    /// InputValueDefinition::new(alloc, name!(first), Node::new(alloc, ty!(Int!))?) // first: Int!
    /// ```
    pub fn new(alloc: Global, name: Name, ty: Node<Type>) -> InputValueDefinition
        ensures description { result.description ≡ None }
        ensures name { result.name ≡ name }
        ensures ty { result.ty ≡ ty }
        ensures default_value { result.default_value ≡ None }
        ensures directives { result.directives.0.items ≡ [] }
    {
        InputValueDefinition {
            description: None,
            name,
            ty,
            default_value: None,
            directives: DirectiveList::new(alloc),
        }
    }

    /// Whether a value must be given: the type is non-null and there is no default value.
    pub fn is_required(&self) -> bool
        ensures { result ≡ is_required self.now }
    {
        self.ty.is_non_null() && self.default_value.is_none()
    }
}
