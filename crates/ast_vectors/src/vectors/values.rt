//! Trees of values, and the directives that hold them.
use graphql_ast::ast::{Argument, Directive, DirectiveList, Value};
use graphql_ast::node::Node;
use graphql_ast::{name, value};
use std::alloc::{AllocError, Global};

/// The list of one string.
pub(super) fn list_of_string(alloc: Global, text: &str) -> Result<Value, AllocError> {
    Value::list(alloc, vec![in alloc; Value::from_text(alloc, text)?]?)
}

/// An object with a field of each kind of value but booleans and objects.
pub(super) fn object_of_fields(alloc: Global) -> Result<Value, AllocError> {
    value!(in alloc; {
        null_field: null,
        enum_field: EXAMPLE,
        var_field: $var,
        string_field: "example",
        float_field: 1.5,
        int_field: 47,
        list_field: [1, 2, 3],
    })
}

/// `@include(if: true)`
pub(super) fn include(alloc: Global) -> Result<DirectiveList, AllocError> {
    let condition = Node::new(alloc, Value::Boolean(true))?;
    let directive = Directive {
        arguments: vec![in alloc; Argument::new_node(alloc, name!("if"), condition)?]?,
        ..Directive::new(alloc, name!(include))
    };
    DirectiveList::of(alloc, directive)
}
