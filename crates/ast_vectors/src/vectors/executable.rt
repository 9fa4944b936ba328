//! Trees of operations.
use super::values::include;
use graphql_ast::ast::{
    Argument, Directive, DirectiveList, Field, FragmentSpread, InlineFragment, OperationDefinition,
    OperationType, Selection, Value, VariableDefinition,
};
use graphql_ast::name::Name;
use graphql_ast::node::{Node, NodeStr};
use graphql_ast::{name, ty, value};
use std::alloc::{AllocError, Global};

/// `{ a }`
pub(super) fn anonymous_query(alloc: Global) -> Result<OperationDefinition, AllocError> {
    Ok(OperationDefinition {
        selection_set: vec![in alloc; Selection::field(alloc, Field::new(alloc, name!(a)))?]?,
        ..OperationDefinition::new(alloc, OperationType::Query)
    })
}

/// `"D" query { a }`
pub(super) fn described_query(alloc: Global) -> Result<OperationDefinition, AllocError> {
    let mut operation = anonymous_query(alloc)?;
    operation.description = Some(NodeStr::new_str(alloc, "D")?);
    Ok(operation)
}

/// `query @dir { field }`
pub(super) fn query_with_directive(alloc: Global) -> Result<OperationDefinition, AllocError> {
    Ok(OperationDefinition {
        directives: DirectiveList::of(alloc, Directive::new(alloc, name!(dir)))?,
        selection_set: vec![in alloc; Selection::field(alloc, Field::new(alloc, name!(field)))?]?,
        ..OperationDefinition::new(alloc, OperationType::Query)
    })
}

/// A variable of type `Int` with default value 1.
fn variable_with_default(alloc: Global, name: Name) -> Result<VariableDefinition, AllocError> {
    let ty = Node::new(alloc, ty!(Int))?;
    let mut variable = VariableDefinition::new(alloc, name, ty);
    variable.default_value = Some(Node::new(alloc, value!(in alloc; 1)?)?);
    Ok(variable)
}

/// `query N("A" $a: Int, $b: Int = 1) { a }`
pub(super) fn query_with_described_variable(
    alloc: Global,
) -> Result<OperationDefinition, AllocError> {
    let ty = Node::new(alloc, ty!(Int))?;
    let mut described = VariableDefinition::new(alloc, name!(a), ty);
    described.description = Some(NodeStr::new_str(alloc, "A")?);
    let other = variable_with_default(alloc, name!(b))?;
    let mut operation = anonymous_query(alloc)?;
    operation.name = Some(name!(N));
    operation.variables = vec![in alloc; Node::new(alloc, described)?, Node::new(alloc, other)?]?;
    Ok(operation)
}

/// `...F` and `... on T { id }`
fn fragments(alloc: Global) -> Result<Vec<Selection>, AllocError> {
    let mut inline = InlineFragment::new(alloc);
    inline.type_condition = Some(name!(T));
    inline.selection_set = vec![in alloc; Selection::field(alloc, Field::new(alloc, name!(id)))?]?;
    let selections = vec![in alloc;
        Selection::fragment_spread(alloc, FragmentSpread::new(alloc, name!(F)))?,
        Selection::inline_fragment(alloc, inline)?,
    ]?;
    Ok(selections)
}

/// `r: s(a: $v) @include(if: true) { ...F ... on T { id } }`
fn field_with_alias(alloc: Global) -> Result<Field, AllocError> {
    let variable = Node::new(alloc, Value::Variable(name!(v)))?;
    Ok(Field {
        alias: Some(name!(r)),
        name: name!(s),
        arguments: vec![in alloc; Argument::new_node(alloc, name!(a), variable)?]?,
        directives: include(alloc)?,
        selection_set: fragments(alloc)?,
    })
}

/// `query N($v: Int = 1 @d) { .. }` of a field with an alias, an argument, a directive and fragments.
pub(super) fn query_of_all_selections(alloc: Global) -> Result<OperationDefinition, AllocError> {
    let mut variable = variable_with_default(alloc, name!(v))?;
    variable.directives = DirectiveList::of(alloc, Directive::new(alloc, name!(d)))?;
    Ok(OperationDefinition {
        name: Some(name!(N)),
        variables: vec![in alloc; Node::new(alloc, variable)?]?,
        selection_set: vec![in alloc; Selection::field(alloc, field_with_alias(alloc)?)?]?,
        ..OperationDefinition::new(alloc, OperationType::Query)
    })
}
