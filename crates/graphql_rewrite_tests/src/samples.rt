//! The documents of the tests.
use graphql_ast::ast::{
    Argument, Directive, Document, Field, FieldDefinition, ObjectTypeDefinition,
    OperationDefinition, OperationType, Selection, VariableDefinition,
};
use graphql_ast::{Name, Node, name, ty, value};
use std::alloc::{AllocError, Global};

/// `@d(x: $v)`
fn directive(alloc: Global) -> Result<Node<Directive>, AllocError> {
    let value = Node::new(alloc, value!(in alloc; $v)?)?;
    let mut directive = Directive::new(alloc, name!(d));
    directive
        .arguments
        .push(Argument::new_node(alloc, name!(x), value)?)?;
    Node::new(alloc, directive)
}

/// `$v: Int = 1 @d(x: $v)`
fn variable(alloc: Global) -> Result<Node<VariableDefinition>, AllocError> {
    let ty = Node::new(alloc, ty!(Int))?;
    let mut variable = VariableDefinition::new(alloc, name!(v), ty);
    variable.default_value = Some(Node::new(alloc, value!(in alloc; 1)?)?);
    variable.directives.0.push(directive(alloc)?)?;
    Node::new(alloc, variable)
}

/// `a(y: [$v, {z: $w}]) { b @d(x: $v) }`
fn field(alloc: Global) -> Result<Node<Field>, AllocError> {
    let value = Node::new(alloc, value!(in alloc; [$v, {z: $w}])?)?;
    let mut inner = Field::new(alloc, name!(b));
    inner.directives.0.push(directive(alloc)?)?;
    let field = Field {
        arguments: vec![in alloc; Argument::new_node(alloc, name!(y), value)?]?,
        selection_set: vec![in alloc; Selection::field(alloc, inner)?]?,
        ..Field::new(alloc, name!(a))
    };
    Node::new(alloc, field)
}

/// `type T @d(x: $v) { f: Int @d(x: $v) }`, which isn't well formed.
fn object(alloc: Global) -> Result<ObjectTypeDefinition, AllocError> {
    let mut field = FieldDefinition::new(alloc, name!(f), ty!(Int));
    field.directives.0.push(directive(alloc)?)?;
    let mut object = ObjectTypeDefinition::new(alloc, name!(T));
    object.directives.0.push(directive(alloc)?)?;
    object.fields.push(Node::new(alloc, field)?)?;
    Ok(object)
}

/// What `document` is, on one line. Its two fields `a` are one node.
pub(crate) const TEXT: &str = "query($v: Int = 1 @d(x: $v)) { a(y: [$v, {z: $w}]) { b @d(x: $v) } \
    a(y: [$v, {z: $w}]) { b @d(x: $v) } } type T @d(x: $v) { f: Int @d(x: $v) }";

pub(crate) fn document(alloc: Global) -> Result<Document, AllocError> {
    let field = field(alloc)?;
    let query = OperationDefinition {
        variables: vec![in alloc; variable(alloc)?]?,
        selection_set: vec![in alloc; Selection::Field(field.clone()?), Selection::Field(field)]?,
        ..OperationDefinition::new(alloc, OperationType::Query)
    };
    let mut document = Document::new(alloc);
    document.push(alloc, query)?;
    document.push(alloc, object(alloc)?)?;
    Ok(document)
}

/// A name that no node of `document` has.
pub(crate) fn another() -> Name {
    name!(another)
}
