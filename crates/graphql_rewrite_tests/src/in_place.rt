//! Rewriting in place, and what of a node stays.
use crate::made::check_text;
use crate::samples::{TEXT, document};
use graphql_ast::ast::Field;
use graphql_ast::span::{FileId, SourceSpan};
use graphql_ast::{Node, name};
use graphql_rewrite::{AddField, RemoveDirective, RenameFields, rebuild_node, rewrite};

const ALL: &str = "query($v: Int = 1) { c(y: [$v, {z: $w}]) { b id } \
    c(y: [$v, {z: $w}]) { b id } id } type T { f: Int }";

/// A clone of a document that is rewritten stays, and a node that is rebuilt keeps its location.
#[test]
fn a_clone_and_a_location_stay(rt: HostRuntime) {
    let alloc = rt.alloc();
    let first = document(alloc).expect(&rt, "memory");
    let mut second = first.clone().expect(&rt, "memory");
    let rename = RenameFields {
        from: "a",
        to: &name!(c),
    };
    assert!(rt; rewrite(alloc, &rename, &mut second).is_ok());
    assert!(rt; rewrite(alloc, &AddField { name: &name!(id) }, &mut second).is_ok());
    assert!(rt; rewrite(alloc, &RemoveDirective { name: "d" }, &mut second).is_ok());
    check_text(&rt, alloc, &second, ALL);
    check_text(&rt, alloc, &first, TEXT);

    let span = SourceSpan::new(FileId::new(7), 3, 5).expect(&rt, "a span");
    let field = Node::new_parsed(alloc, Field::new(alloc, name!(a)), span);
    let field = field.expect(&rt, "memory");
    let made = rebuild_node(alloc, &rename, &field).expect(&rt, "memory");
    let made = made.expect(&rt, "another node");
    assert_eq!(rt; (made.name.as_str(), made.location()), ("c", Some(span)));
}
