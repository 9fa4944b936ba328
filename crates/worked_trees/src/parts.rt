//! Parts of which the trees are made.
use graphql_ast::ast::{Argument, Directive, DirectiveList, Type, Value};
use graphql_ast::node::NodeStr;
use graphql_ast::span::{FileId, SourceSpan};
use graphql_ast::{Name, Node, name, value};
use std::alloc::{AllocError, Global};

/// The file that all stands in.
pub const FILE: u64 = 1;

/// The name at offset 0.
pub fn located(name: Name) -> Name {
    match u32::try_from(name.len()) {
        Ok(end) => match SourceSpan::new(FileId::new(FILE), 0, end) {
            Some(span) => name.with_location(span),
            None => name,
        },
        Err(_) => name,
    }
}

fn first_byte() -> Option<SourceSpan> {
    SourceSpan::new(FileId::new(FILE), 0, 1)
}

/// A node at offset 0.
pub fn node<T: Drop>(alloc: Global, value: T) -> Result<Node<T>, AllocError> {
    Node::new_at(alloc, value, first_byte())
}

/// The text `D`.
pub fn description(alloc: Global) -> Result<Option<NodeStr>, AllocError> {
    match first_byte() {
        Some(span) => Ok(Some(NodeStr::new_str_parsed(alloc, "D", span)?)),
        None => Ok(None),
    }
}

/// `(x: 1)`
pub fn arguments(alloc: Global) -> Result<Vec<Node<Argument>>, AllocError> {
    let argument = Argument::new(located(name!(x)), node(alloc, Value::from_i32(alloc, 1)?)?);
    Ok(vec![in alloc; node(alloc, argument)?]?)
}

/// `@d(x: 1)`
pub fn directives(alloc: Global) -> Result<DirectiveList, AllocError> {
    let directive = Directive {
        name: located(name!(d)),
        arguments: arguments(alloc)?,
    };
    Ok(DirectiveList(vec![in alloc; node(alloc, directive)?]?))
}

/// `[T!]`
pub fn type_of_list(alloc: Global) -> Result<Type, AllocError> {
    Type::NonNullNamed(located(name!(T))).list(alloc)
}

/// `[1]`
pub fn list(alloc: Global) -> Result<Node<Value>, AllocError> {
    node(alloc, value!(in alloc; [1])?)
}
