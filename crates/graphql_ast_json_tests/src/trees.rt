//! Trees are read and written.
use crate::checks::check_equal;
use crate::samples::{DEFINITION, LOCATED, PRINTED};
use graphql_ast_json::{AstJson, AstNode, from_ast_json_str};
use graphql_base::node::Node;
use graphql_base::span::{FileId, SourceSpan};
use graphql_values::directive_definition::DirectiveDefinition;
use graphql_values::value::Value;
use serde_json::Value as Json;
use std::alloc::Global;
use std::process::Abort;

/// A definition's text.
fn check_printed(rt: &impl Abort, alloc: Global, definition: &DirectiveDefinition) {
    let print = definition.serialize().no_indent();
    let text = print.to_text(alloc).expect(rt, "memory");
    check_equal(rt, text.as_str(), PRINTED);
}

/// What a definition is written as is read as the definition.
fn check_again(rt: &impl Abort, alloc: Global, definition: &DirectiveDefinition) {
    let json = definition.to_ast_json(alloc).expect(rt, "memory");
    let Ok(again) = DirectiveDefinition::from_ast_json(alloc, &json, FileId::new(1)) else {
        panic!(rt; "the definition again");
    };
    check_equal(rt, again == *definition, true);
}

fn check_definition(rt: &impl Abort, alloc: Global) {
    let source = FileId::new(1);
    let Ok(definition) = from_ast_json_str::<DirectiveDefinition>(alloc, DEFINITION, source) else {
        panic!(rt; "a definition");
    };
    check_printed(rt, alloc, &definition);
    check_again(rt, alloc, &definition);
}

/// The JSON of a node, written with its location, and with one that is told.
fn check_written(rt: &impl Abort, alloc: Global, node: &Node<Value>, span: Option<SourceSpan>) {
    let Ok(wanted) = Json::from_str(alloc, LOCATED) else {
        panic!(rt; "JSON");
    };
    let json = node.to_ast_json(alloc).expect(rt, "memory");
    check_equal(rt, json == wanted, true);
    let located = node.to_ast_json_at(alloc, span).expect(rt, "memory");
    check_equal(rt, located == wanted, true);
}

fn check_node(rt: &impl Abort, alloc: Global) {
    let source = FileId::new(2);
    let Ok(node) = from_ast_json_str::<Node<Value>>(alloc, LOCATED, source) else {
        panic!(rt; "a node");
    };
    let span = SourceSpan::new(source, 3, 7);
    check_equal(rt, node.location(), span);
    check_written(rt, alloc, &node, span);
}

/// A definition; and a node, which stands where its JSON tells.
#[test]
fn trees_are_read_and_written(rt: HostRuntime) {
    check_definition(&rt, rt.alloc());
    check_node(&rt, rt.alloc());
}
