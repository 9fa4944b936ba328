//! A worked tree of each kind is rebuilt without its directives.
use graphql_ast::Node;
use graphql_ast::ast::{Document, VariableDefinition};
use graphql_rewrite::{
    Rebuild, RemoveDirective, rebuild_document, rebuild_node, rebuild_nodes, with_definitions,
};
use std::alloc::{AllocError, Global};
use std::process::Abort;
use worked_trees::definitions::{VARIANTS, definition, document};
use worked_trees::executable::{
    field, fragment_spread, inline_fragment, inline_selection, spread_selection,
    variable_definition,
};
use worked_trees::refused::Refused;
use worked_trees::types::{enum_value_definition, field_definition};
use worked_trees::values::input_value_definition;

const REMOVE: RemoveDirective<'static> = RemoveDirective { name: "d" };

/// Another tree than the one before, of which nothing more is made.
fn check_made<T: Rebuild + PartialEq + Drop>(rt: &impl Abort, alloc: Global, made: &T, before: &T) {
    assert!(rt; *made != *before);
    let again = made.rebuild(alloc, &REMOVE).expect(rt, "no memory");
    assert!(rt; again.is_none());
}

/// Another tree is made, or memory for it was refused. The tree stays, as another one that was made as it.
fn check<T: Rebuild + PartialEq + Drop>(
    rt: &impl Abort,
    alloc: Global,
    refused: &mut Refused,
    made: Result<T, AllocError>,
    same: Result<T, AllocError>,
) {
    let Some(tree) = refused.made(made) else {
        return;
    };
    let Some(before) = refused.made(same) else {
        return;
    };
    if let Some(answer) = refused.made(tree.rebuild(alloc, &REMOVE)) {
        let made = answer.expect(rt, "another tree");
        check_made(rt, alloc, &made, &before);
    }
    assert!(rt; tree == before);
}

fn check_executable_parts(rt: &impl Abort, alloc: Global, refused: &mut Refused) {
    let made = variable_definition(alloc);
    check(rt, alloc, refused, made, variable_definition(alloc));
    let made = fragment_spread(alloc);
    check(rt, alloc, refused, made, fragment_spread(alloc));
    let made = spread_selection(alloc);
    check(rt, alloc, refused, made, spread_selection(alloc));
    let made = inline_fragment(alloc);
    check(rt, alloc, refused, made, inline_fragment(alloc));
    let made = inline_selection(alloc);
    check(rt, alloc, refused, made, inline_selection(alloc));
    check(rt, alloc, refused, field(alloc), field(alloc));
}

fn check_type_system_parts(rt: &impl Abort, alloc: Global, refused: &mut Refused) {
    let made = input_value_definition(alloc);
    check(rt, alloc, refused, made, input_value_definition(alloc));
    let made = field_definition(alloc);
    check(rt, alloc, refused, made, field_definition(alloc));
    let made = enum_value_definition(alloc);
    check(rt, alloc, refused, made, enum_value_definition(alloc));
}

pub(crate) fn check_definitions(rt: &impl Abort, alloc: Global, refused: &mut Refused) {
    for variant in 0..VARIANTS {
        let made = definition(alloc, variant);
        check(rt, alloc, refused, made, definition(alloc, variant));
    }
}

/// Another document than the one before, with as many sources.
fn check_other(rt: &impl Abort, made: &Document, before: &Document) {
    assert!(rt; *made != *before);
    assert_eq!(rt; made.sources.len(), before.sources.len());
}

pub(crate) fn check_documents(rt: &impl Abort, alloc: Global, refused: &mut Refused) {
    let Some(whole) = refused.made(document(alloc)) else {
        return;
    };
    let Some(before) = refused.made(document(alloc)) else {
        return;
    };
    if let Some(answer) = refused.made(rebuild_document(alloc, &REMOVE, &whole)) {
        check_other(rt, &answer.expect(rt, "another document"), &before);
    }
    if let Some(empty) = refused.made(with_definitions(&whole, Vec::new(alloc))) {
        assert!(rt; empty.definitions.is_empty());
        check_other(rt, &empty, &before);
    }
    assert!(rt; whole == before);
}

/// The variable of an operation.
fn variables(alloc: Global) -> Result<Vec<Node<VariableDefinition>>, AllocError> {
    Ok(vec![in alloc; Node::new(alloc, variable_definition(alloc)?)?]?)
}

pub(crate) fn check_nodes(rt: &impl Abort, alloc: Global, refused: &mut Refused) {
    let Some(nodes) = refused.made(variables(alloc)) else {
        return;
    };
    if let Some(answer) = refused.made(rebuild_nodes(alloc, &REMOVE, nodes.as_slice())) {
        let made = answer.expect(rt, "other nodes");
        assert!(rt; made.iter().all(|node| node.directives.is_empty()));
    }
    let node = nodes.first().expect(rt, "a node");
    if let Some(answer) = refused.made(rebuild_node(alloc, &REMOVE, node)) {
        let made = answer.expect(rt, "another node");
        assert!(rt; made.directives.is_empty() && !node.directives.is_empty());
    }
}

/// Memory is ample, so each call has to be whole.
#[test]
fn trees_of_each_kind_are_rebuilt(rt: HostRuntime) {
    let mut refused = Refused::none();
    check_executable_parts(&rt, rt.alloc(), &mut refused);
    check_type_system_parts(&rt, rt.alloc(), &mut refused);
    check_definitions(&rt, rt.alloc(), &mut refused);
    check_documents(&rt, rt.alloc(), &mut refused);
    check_nodes(&rt, rt.alloc(), &mut refused);
    assert_eq!(rt; refused.calls, 0);
}
