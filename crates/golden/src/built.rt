//! Trees that cases tell by a number, since they are deeper than JSON is read.
use graphql_ast::ast::{Field, OperationDefinition, OperationType, Selection, Value};
use graphql_ast::name;
use graphql_ast::node::Node;
use std::alloc::{AllocError, Global};

/// As many lists, each the one item of the one around it; the innermost is empty. None is `null`.
pub fn nested_lists(alloc: Global, count: u64) -> Result<Value, AllocError> {
    let mut value = Value::Null;
    for depth in 0..count {
        let mut items = Vec::new(alloc);
        if depth > 0 {
            items.push(Node::new(alloc, value)?)?;
        }
        value = Value::List(items);
    }
    Ok(value)
}

/// The field `a` with these selections, alone.
fn field_around(
    alloc: Global,
    selection_set: Vec<Selection>,
) -> Result<Vec<Selection>, AllocError> {
    let field = Field {
        selection_set,
        ..Field::new(alloc, name!(a))
    };
    Ok(vec![in alloc; Selection::field(alloc, field)?]?)
}

/// An anonymous query with as many selection sets, each in the field `a` of the one around it.
pub fn nested_fields(alloc: Global, count: u64) -> Result<OperationDefinition, AllocError> {
    let mut selection_set = Vec::new(alloc);
    for _ in 0..count {
        selection_set = field_around(alloc, selection_set)?;
    }
    Ok(OperationDefinition {
        selection_set,
        ..OperationDefinition::new(alloc, OperationType::Query)
    })
}
