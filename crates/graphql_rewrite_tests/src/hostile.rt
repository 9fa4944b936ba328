//! Deep trees.
use graphql_ast::ast::{Field, Selection, Value};
use graphql_ast::{Node, name};
use graphql_rewrite::{rename_fields, replace_variables};
use std::alloc::{AllocError, Global};

const LEVELS: usize = 1000;

/// So many fields `a` in one another.
fn fields(alloc: Global, levels: usize) -> Result<Selection, AllocError> {
    let mut selection = Selection::field(alloc, Field::new(alloc, name!(a)))?;
    for _ in 1..levels {
        let mut field = Field::new(alloc, name!(a));
        field.selection_set.push(selection)?;
        selection = Selection::field(alloc, field)?;
    }
    Ok(selection)
}

/// So many lists in one another, around a value.
fn lists(alloc: Global, levels: usize, innermost: Value) -> Result<Value, AllocError> {
    let mut value = innermost;
    for _ in 0..levels {
        let node = Node::new(alloc, value)?;
        value = Value::List(vec![in alloc; node]?);
    }
    Ok(value)
}

/// How many fields `b` stand in one another.
fn depth(selection: &Selection) -> usize {
    let mut depth: usize = 0;
    let mut selection = Some(selection);
    while let Some(Selection::Field(field)) = selection {
        if field.name.as_str() != "b" {
            return depth;
        }
        depth = depth.saturating_add(1);
        selection = field.selection_set.first();
    }
    depth
}

#[test]
fn deep_trees_are_rewritten(rt: HostRuntime) {
    let alloc = rt.alloc();
    let fields = fields(alloc, LEVELS).expect(&rt, "memory");
    let made = rename_fields(alloc, &fields, "a", &name!(b)).expect(&rt, "memory");
    assert_eq!(rt; depth(&made.expect(&rt, "other fields")), LEVELS);
    let old = lists(alloc, LEVELS, Value::Variable(name!(v))).expect(&rt, "memory");
    let new = lists(alloc, LEVELS, Value::Null).expect(&rt, "memory");
    let made = replace_variables(alloc, &old, &[(name!(v), Value::Null)]);
    assert!(rt; made.expect(&rt, "memory").expect(&rt, "another value") == new);
}
