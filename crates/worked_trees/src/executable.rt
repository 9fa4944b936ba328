//! Operations, fragments and what stands in them.
use crate::parts::{arguments, description, directives, list, located, node, type_of_list};
use graphql_ast::ast::{
    Field, FragmentDefinition, FragmentSpread, InlineFragment, OperationDefinition, OperationType,
    Selection, VariableDefinition,
};
use graphql_ast::name;
use std::alloc::{AllocError, Global};

/// `"D" $v: [T!] = [1] @d(x: 1)`
pub fn variable_definition(alloc: Global) -> Result<VariableDefinition, AllocError> {
    Ok(VariableDefinition {
        description: description(alloc)?,
        name: located(name!(v)),
        ty: node(alloc, type_of_list(alloc)?)?,
        default_value: Some(list(alloc)?),
        directives: directives(alloc)?,
    })
}

/// `...F @d(x: 1)`
pub fn fragment_spread(alloc: Global) -> Result<FragmentSpread, AllocError> {
    Ok(FragmentSpread {
        fragment_name: located(name!(F)),
        directives: directives(alloc)?,
    })
}

/// `...F @d(x: 1)`
pub fn spread_selection(alloc: Global) -> Result<Selection, AllocError> {
    let spread = fragment_spread(alloc)?;
    Ok(Selection::FragmentSpread(node(alloc, spread)?))
}

/// `... on T @d(x: 1) { ...F @d(x: 1) }`
pub fn inline_fragment(alloc: Global) -> Result<InlineFragment, AllocError> {
    Ok(InlineFragment {
        type_condition: Some(located(name!(T))),
        directives: directives(alloc)?,
        selection_set: vec![in alloc; spread_selection(alloc)?]?,
    })
}

/// `... on T @d(x: 1) { ...F @d(x: 1) }`
pub fn inline_selection(alloc: Global) -> Result<Selection, AllocError> {
    let fragment = inline_fragment(alloc)?;
    Ok(Selection::InlineFragment(node(alloc, fragment)?))
}

/// `b: a(x: 1) @d(x: 1) { ... on T @d(x: 1) { ...F @d(x: 1) } }`
pub fn field(alloc: Global) -> Result<Field, AllocError> {
    Ok(Field {
        alias: Some(located(name!(b))),
        name: located(name!(a)),
        arguments: arguments(alloc)?,
        directives: directives(alloc)?,
        selection_set: vec![in alloc; inline_selection(alloc)?]?,
    })
}

/// `b: a(x: 1) @d(x: 1) { ... on T @d(x: 1) { ...F @d(x: 1) } }`
pub fn field_selection(alloc: Global) -> Result<Selection, AllocError> {
    let field = field(alloc)?;
    Ok(Selection::Field(node(alloc, field)?))
}

/// `"D" query N("D" $v: [T!] = [1] @d(x: 1)) @d(x: 1) { b: a(x: 1) @d(x: 1) { ... on T @d(x: 1) { ...F @d(x: 1) } } }`
pub fn operation_definition(alloc: Global) -> Result<OperationDefinition, AllocError> {
    Ok(OperationDefinition {
        description: description(alloc)?,
        operation_type: OperationType::Query,
        name: Some(located(name!(N))),
        variables: vec![in alloc; node(alloc, variable_definition(alloc)?)?]?,
        directives: directives(alloc)?,
        selection_set: vec![in alloc; field_selection(alloc)?]?,
    })
}

/// `"D" fragment F on T @d(x: 1) { ...F @d(x: 1) }`
pub fn fragment_definition(alloc: Global) -> Result<FragmentDefinition, AllocError> {
    Ok(FragmentDefinition {
        description: description(alloc)?,
        name: located(name!(F)),
        type_condition: located(name!(T)),
        directives: directives(alloc)?,
        selection_set: vec![in alloc; spread_selection(alloc)?]?,
    })
}
