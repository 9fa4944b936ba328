//! Trees in one another, and what is made of them.

use graphql_ast::ast::{Field, Selection, Value};
use graphql_ast::{Node, name};
use graphql_rewrite::{rename_fields, replace_variables};
use std::alloc::{AllocError, Global};
use std::mem::forget;

/// What is rewritten.
#[derive(Clone, Copy)]
pub enum Rewritten {
    Fields,
    Lists,
}

/// So many fields `a` in one another.
pub fn fields(alloc: Global, levels: u32) -> Result<Selection, AllocError> {
    let mut selection = Selection::field(alloc, Field::new(alloc, name!(a)))?;
    for _ in 1..levels {
        let mut field = Field::new(alloc, name!(a));
        field.selection_set.push(selection)?;
        selection = Selection::field(alloc, field)?;
    }
    Ok(selection)
}

/// So many lists in one another, around a variable.
pub fn lists(alloc: Global, levels: u32) -> Result<Value, AllocError> {
    let mut value = Value::Variable(name!(a));
    for _ in 0..levels {
        let node = Node::new(alloc, value)?;
        value = Value::List(vec![in alloc; node]?);
    }
    Ok(value)
}

impl Rewritten {
    /// Rewrites the innermost of so many levels, and so each around it. Neither tree is ever dropped.
    pub fn rewrite(self, alloc: Global, levels: u32) -> Result<(), AllocError> {
        match self {
            Rewritten::Fields => {
                let old = fields(alloc, levels)?;
                let made = rename_fields(alloc, &old, "a", &name!(b));
                forget(old);
                forget(made?);
            }
            Rewritten::Lists => {
                let old = lists(alloc, levels)?;
                let made = replace_variables(alloc, &old, &[(name!(a), Value::Null)]);
                forget(old);
                forget(made?);
            }
        }
        Ok(())
    }
}
