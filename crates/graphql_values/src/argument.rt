//! Arguments of fields and directives.
ghost use Rattle.std.specs.Prelude.{◌≡◌, IfOk, None};
ghost use Rattle.graphql_base.specs.Node.{node_at};

pub(crate) mod print;

use crate::value::Value;
use graphql_base::name::Name;
use graphql_base::node::Node;
use std::alloc::{AllocError, Global};

/// An argument of a field or a directive (`Argument`, section 2.6).
///
/// Equality and hash ignore source locations.
///
/// ```
/// let mut items = Field::new(alloc, name!(items));
/// let ten = Node::new(alloc, value!(in alloc; 10)?)?;
/// items.arguments.push(Argument::new_node(alloc, name!(first), ten)?)?; // items(first: 10)
/// ```
#[derive(Clone, PartialEq, Eq, Hash, Debug, Drop)]
pub struct Argument {
    /// The name that stands before `:`.
    pub name: Name,
    /// The value that stands after it.
    pub value: Node<Value>,
}

impl Argument {
    /// The argument of a name and a value. It takes no memory.
    ///
    /// ```
    /// Argument::new(name!(first), Node::new(alloc, Value::from_i32(alloc, 10)?)?) // first: 10
    /// ```
    pub fn new(name: Name, value: Node<Value>) -> Argument
        ensures name { result.name ≡ name }
        ensures value { result.value ≡ value }
    {
        Argument { name, value }
    }

    /// A node of the argument, with no location. `AllocError` where memory is refused; the name and the value are
    /// dropped then.
    ///
    /// ```
    /// Argument::new_node(alloc, name!(first), Node::new(alloc, value!(in alloc; 10)?)?)? // first: 10
    /// ```
    pub fn new_node(
        alloc: Global,
        name: Name,
        value: Node<Value>,
    ) -> Result<Node<Argument>, AllocError>
        ensures { IfOk result
            (λ node. node ≡ node_at None (record { name = name; value = value })) }
    {
        Node::new(alloc, Argument { name, value })
    }
}
