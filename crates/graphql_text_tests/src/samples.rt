//! Small values that the examples print.
use graphql_base::node::Node;
use graphql_values::value;
use graphql_values::value::Value;
use std::alloc::{AllocError, Global};

pub(crate) fn number(alloc: Global, number: i32) -> Result<Node<Value>, AllocError> {
    Node::new(alloc, Value::from_i32(alloc, number)?)
}

/// `[1]`
pub(crate) fn one(alloc: Global) -> Result<Value, AllocError> {
    value!(in alloc; [1])
}

/// `[1, EXAMPLE, true, null]`
pub(crate) fn items(alloc: Global) -> Result<Value, AllocError> {
    value!(in alloc; [1, EXAMPLE, true, null])
}

/// `[[], 1.5]`
pub(crate) fn nested(alloc: Global) -> Result<Value, AllocError> {
    value!(in alloc; [[], 1.5])
}
