//! Nodes that stand at several places, and nodes in one another.
use crate::checks::check_equal;
use graphql_ast::ast::{Field, OperationDefinition, Selection, Value};
use graphql_ast::span::{FileId, SourceSpan};
use graphql_ast::{Node, name};
use graphql_locations::Located;
use std::alloc::{AllocError, Global};
use std::process::Abort;
use worked_trees::executable::{field_selection, operation_definition};

const LEVELS: usize = 1000;

fn check_plain(rt: &impl Abort, selection: Option<&mut Selection>) {
    match selection.expect(rt, "a selection") {
        Selection::Field(node) => {
            let locations = (node.location(), node.name.location());
            check_equal(rt, locations, (None, None));
            check_equal(rt, node.get_mut().is_some(), true);
        }
        _ => assert!(rt; false, "another selection"),
    }
}

/// An operation in which one field stands twice.
fn shared(alloc: Global) -> Result<OperationDefinition, AllocError> {
    let field = field_selection(alloc)?;
    let mut operation = operation_definition(alloc)?;
    operation.selection_set = vec![in alloc; field.clone()?, field]?;
    Ok(operation)
}

/// So many fields in one another.
fn fields(alloc: Global, levels: usize, span: SourceSpan) -> Result<Selection, AllocError> {
    let field = Field::new(alloc, name!(a));
    let mut selection = Selection::Field(Node::new_parsed(alloc, field, span)?);
    for _ in 1..levels {
        let mut field = Field::new(alloc, name!(a));
        field.selection_set.push(selection)?;
        selection = Selection::Field(Node::new_parsed(alloc, field, span)?);
    }
    Ok(selection)
}

/// So many lists in one another.
fn lists(alloc: Global, levels: usize, span: SourceSpan) -> Result<Value, AllocError> {
    let mut value = Value::Null;
    for _ in 0..levels {
        let node = Node::new_parsed(alloc, value, span)?;
        value = Value::List(vec![in alloc; node]?);
    }
    Ok(value)
}

fn check_shared(rt: &impl Abort, alloc: Global) {
    let operation = shared(alloc).expect(rt, "memory");
    let mut made = operation.without_locations(alloc).expect(rt, "memory");
    check_equal(rt, made == operation, true);
    check_plain(rt, made.selection_set.first_mut());
    check_plain(rt, made.selection_set.last_mut());
}

fn check_fields(rt: &impl Abort, alloc: Global, span: SourceSpan) {
    let fields = fields(alloc, LEVELS, span).expect(rt, "memory");
    let made = fields.without_locations(alloc).expect(rt, "memory");
    check_equal(rt, made == fields, true);
    check_equal(rt, made.location(), None);
}

fn check_lists(rt: &impl Abort, alloc: Global, span: SourceSpan) {
    let lists = lists(alloc, LEVELS, span).expect(rt, "memory");
    let made = lists.without_locations(alloc).expect(rt, "memory");
    check_equal(rt, made == lists, true);
}

/// The node that stands at two places is made twice, and shared with none. Deep trees lose their locations too.
#[test]
fn shared_and_deep_trees_lose_their_locations(rt: HostRuntime) {
    check_shared(&rt, rt.alloc());
    let span = SourceSpan::new(FileId::new(5), 0, 3).expect(&rt, "a span");
    check_fields(&rt, rt.alloc(), span);
    check_lists(&rt, rt.alloc(), span);
}
