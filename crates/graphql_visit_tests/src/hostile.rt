//! Deep trees.
use crate::counts::count_nodes;
use graphql_ast::ast::{Field, Selection, Value};
use graphql_ast::{Node, name};
use std::alloc::{AllocError, Global};

const LEVELS: usize = 1000;

/// So many fields in one another.
fn fields(alloc: Global, levels: usize) -> Result<Selection, AllocError> {
    let mut selection = Selection::field(alloc, Field::new(alloc, name!(a)))?;
    for _ in 1..levels {
        let mut field = Field::new(alloc, name!(a));
        field.selection_set.push(selection)?;
        selection = Selection::field(alloc, field)?;
    }
    Ok(selection)
}

/// So many lists in one another.
fn lists(alloc: Global, levels: usize) -> Result<Node<Value>, AllocError> {
    let mut value = Node::new(alloc, Value::List(Vec::new(alloc)))?;
    for _ in 1..levels {
        value = Node::new(alloc, Value::List(vec![in alloc; value]?))?;
    }
    Ok(value)
}

#[test]
fn deep_trees_are_walked(rt: HostRuntime) {
    let alloc = rt.alloc();
    let fields = fields(alloc, LEVELS).expect(&rt, "memory");
    assert_eq!(rt; count_nodes(&fields), (LEVELS, 0));
    let lists = lists(alloc, LEVELS).expect(&rt, "memory");
    assert_eq!(rt; count_nodes(&lists), (LEVELS, LEVELS));
}
