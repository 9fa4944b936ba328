//! How often calls ask for memory. A test `NAME_built` makes what a call is given, and `NAME_then_CALL_takes_COUNT` makes it and
//! calls. Each fails where any of its growths is refused, and `tools/refused_growths.py` compares how many those are.
use crate::made::check_text;
use crate::samples::{TEXT, document};
use graphql_ast::ast::Document;
use graphql_ast::name;
use graphql_rewrite::{remove_directive, rename_fields};
use std::alloc::Global;
use std::process::Abort;

/// The document, which is the one that is wanted.
fn built(rt: &impl Abort, alloc: Global) -> Document {
    let document = document(alloc).expect(rt, "memory");
    check_text(rt, alloc, &document, TEXT);
    document
}

#[test]
fn document_built(rt: HostRuntime) {
    let document = built(&rt, rt.alloc());
    assert_eq!(rt; document.definitions.len(), 2);
}

#[test]
fn document_then_nothing_made_takes_0(rt: HostRuntime) {
    let alloc = rt.alloc();
    let document = built(&rt, alloc);
    let renamed = rename_fields(alloc, &document, "another", &name!(b));
    assert!(rt; renamed.expect(&rt, "memory").is_none());
    let removed = remove_directive(alloc, &document, "another");
    assert!(rt; removed.expect(&rt, "memory").is_none());
}
