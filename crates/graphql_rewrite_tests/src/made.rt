//! What is made of a document, on one line.
use crate::samples::{TEXT, another, document};
use graphql_ast::ast::{Document, Value};
use graphql_ast::serialize::Serialize;
use graphql_ast::{name, value};
use graphql_rewrite::{
    Rebuilt, add_field_everywhere, remove_directive, rename_fields, replace_variables,
};
use std::alloc::Global;
use std::process::Abort;

pub(crate) fn check_text(rt: &impl Abort, alloc: Global, document: &Document, wanted: &str) {
    let text = Serialize::new(document).no_indent().to_text(alloc);
    assert_eq!(rt; text.expect(rt, "memory").as_str(), wanted);
}

/// 2 for `$v`, and `{k: $v}` for `$w`.
pub(crate) fn replaced(alloc: Global, document: &Document) -> Rebuilt<Document> {
    let values = [
        (name!(v), value!(in alloc; 2)?),
        (name!(w), value!(in alloc; {k: $v})?),
    ];
    replace_variables(alloc, document, &values)
}

const RENAMED: &str = "query($v: Int = 1 @d(x: $v)) { c(y: [$v, {z: $w}]) { b @d(x: $v) } \
    c(y: [$v, {z: $w}]) { b @d(x: $v) } } type T @d(x: $v) { f: Int @d(x: $v) }";

const ADDED: &str = "query($v: Int = 1 @d(x: $v)) { a(y: [$v, {z: $w}]) { b @d(x: $v) id } \
    a(y: [$v, {z: $w}]) { b @d(x: $v) id } id } type T @d(x: $v) { f: Int @d(x: $v) }";

const REMOVED: &str = "query($v: Int = 1) { a(y: [$v, {z: $w}]) { b } \
    a(y: [$v, {z: $w}]) { b } } type T { f: Int }";

const REPLACED: &str = "query($v: Int = 1 @d(x: 2)) { a(y: [2, {z: {k: $v}}]) { b @d(x: 2) } \
    a(y: [2, {z: {k: $v}}]) { b @d(x: 2) } } type T @d(x: 2) { f: Int @d(x: 2) }";

/// What is made of a document, and its text; or nothing, where nothing changes.
type Row = (Rebuilt<Document>, Option<&'static str>);

fn made_of(alloc: Global, document: &Document) -> [Row; 7] {
    let values = [(another(), Value::Null)];
    [
        (
            rename_fields(alloc, document, "a", &name!(c)),
            Some(RENAMED),
        ),
        (
            add_field_everywhere(alloc, document, &name!(id)),
            Some(ADDED),
        ),
        (remove_directive(alloc, document, "d"), Some(REMOVED)),
        (replaced(alloc, document), Some(REPLACED)),
        (rename_fields(alloc, document, "another", &name!(a)), None),
        (remove_directive(alloc, document, "another"), None),
        (replace_variables(alloc, document, &values), None),
    ]
}

fn made_of_nothing(alloc: Global, empty: &Document) -> [Row; 4] {
    let values = [(another(), Value::Null)];
    [
        (rename_fields(alloc, empty, "another", &name!(a)), None),
        (remove_directive(alloc, empty, "another"), None),
        (replace_variables(alloc, empty, &values), None),
        (add_field_everywhere(alloc, empty, &name!(id)), None),
    ]
}

fn check_made(rt: &impl Abort, alloc: Global, (made, wanted): Row) {
    match (made.expect(rt, "memory"), wanted) {
        (Some(document), Some(wanted)) => check_text(rt, alloc, &document, wanted),
        (made, wanted) => assert!(rt; made.is_none() && wanted.is_none(), "{wanted:?}"),
    }
}

/// Each place is rewritten, and the old document stays. Nothing is made where nothing changes, nor of an empty document.
#[test]
fn each_place_is_rewritten_and_the_old_document_stays(rt: HostRuntime) {
    let alloc = rt.alloc();
    let document = document(alloc).expect(&rt, "memory");
    for row in made_of(alloc, &document) {
        check_made(&rt, alloc, row);
    }
    check_text(&rt, alloc, &document, TEXT);
    for row in made_of_nothing(alloc, &Document::new(alloc)) {
        check_made(&rt, alloc, row);
    }
}
