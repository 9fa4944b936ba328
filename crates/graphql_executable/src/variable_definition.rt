//! Definitions of variables, which operations have.
ghost use Rattle.std.specs.Prelude.{◌≡◌, [], None};

pub(crate) mod print;

use graphql_base::name::Name;
use graphql_base::node::{Node, NodeStr};
use graphql_values::directive_list::DirectiveList;
use graphql_values::types::Type;
use graphql_values::value::Value;
use std::alloc::Global;

/// A variable of an operation (`VariableDefinition`, section 2.10).
///
/// Equality and hash ignore source locations.
///
/// ```
/// let mut first = VariableDefinition::new(alloc, name!(first), Node::new(alloc, ty!(Int!))?);
/// first.default_value = Some(Node::new(alloc, value!(in alloc; 10)?)?);
/// println!(rt; "{first}")?; // $first: Int! = 10
/// ```
#[derive(Clone, PartialEq, Eq, Hash, Debug, Drop)]
pub struct VariableDefinition {
    /// The string before the variable.
    pub description: Option<NodeStr>,
    /// The name that stands after `$`.
    pub name: Name,
    /// The type of the values that it takes.
    pub ty: Node<Type>,
    /// The value that it has where none is given. A variable in it isn't well formed.
    pub default_value: Option<Node<Value>>,
    /// The directives at its end. A variable in their arguments isn't well formed.
    pub directives: DirectiveList,
}

impl VariableDefinition {
    /// A variable without a description, a default value and directives. It takes no memory.
    ///
    /// ```
    /// VariableDefinition::new(alloc, name!(v), Node::new(alloc, ty!(Int!))?) // $v: Int!
    /// ```
    pub fn new(alloc: Global, name: Name, ty: Node<Type>) -> VariableDefinition
        ensures description { result.description ≡ None }
        ensures name { result.name ≡ name }
        ensures ty { result.ty ≡ ty }
        ensures default_value { result.default_value ≡ None }
        ensures directives { result.directives.0.items ≡ [] }
    {
        VariableDefinition {
            description: None,
            name,
            ty,
            default_value: None,
            directives: DirectiveList::new(alloc),
        }
    }
}
