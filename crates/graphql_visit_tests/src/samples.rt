//! The documents of the tests.
use graphql_ast::ast::{
    Argument, Directive, Document, Field, FragmentSpread, InlineFragment, OperationDefinition,
    OperationType, ScalarTypeDefinition, Selection, VariableDefinition,
};
use graphql_ast::{Node, name, ty, value};
use std::alloc::{AllocError, Global};

/// `@d(x: $w)`
fn directive(alloc: Global) -> Result<Node<Directive>, AllocError> {
    let value = Node::new(alloc, value!(in alloc; $w)?)?;
    let mut directive = Directive::new(alloc, name!(d));
    directive
        .arguments
        .push(Argument::new_node(alloc, name!(x), value)?)?;
    Node::new(alloc, directive)
}

/// `$v: [Int] = 1 @d(x: $w)`
fn variable(alloc: Global) -> Result<Node<VariableDefinition>, AllocError> {
    let ty = Node::new(alloc, ty!(in alloc; [Int])?)?;
    let mut variable = VariableDefinition::new(alloc, name!(v), ty);
    variable.default_value = Some(Node::new(alloc, value!(in alloc; 1)?)?);
    variable.directives.0.push(directive(alloc)?)?;
    Node::new(alloc, variable)
}

/// `a(x: {y: [$v, $v], z: $w}) { ...F ... { b } }`
fn field(alloc: Global) -> Result<Selection, AllocError> {
    let value = Node::new(alloc, value!(in alloc; {y: [$v, $v], z: $w})?)?;
    let inline = InlineFragment {
        selection_set: vec![in alloc; Selection::field(alloc, Field::new(alloc, name!(b)))?]?,
        ..InlineFragment::new(alloc)
    };
    let field = Field {
        arguments: vec![in alloc; Argument::new_node(alloc, name!(x), value)?]?,
        selection_set: vec![in alloc;
            Selection::fragment_spread(alloc, FragmentSpread::new(alloc, name!(F)))?,
            Selection::inline_fragment(alloc, inline)?,
        ]?,
        ..Field::new(alloc, name!(a))
    };
    Selection::field(alloc, field)
}

/// `query ($v: [Int] = 1 @d(x: $w)) { a(x: {y: [$v, $v], z: $w}) { ...F ... { b } } }`, and `scalar S`.
pub(crate) fn document(alloc: Global) -> Result<Document, AllocError> {
    let query = OperationDefinition {
        variables: vec![in alloc; variable(alloc)?]?,
        selection_set: vec![in alloc; field(alloc)?]?,
        ..OperationDefinition::new(alloc, OperationType::Query)
    };
    let mut document = Document::new(alloc);
    document.push(alloc, query)?;
    document.push(alloc, ScalarTypeDefinition::new(alloc, name!(S)))?;
    Ok(document)
}

/// How many nodes `document` has: the document; the query; the variable, its type, the type of its items, its default
/// value, its directive, the argument and its value; the field, its argument, the object, a field of it, a list and its
/// two items, the other field and its value; the spread, the inline fragment and the field in it; the scalar type.
pub(crate) const NODES: usize = 22;
