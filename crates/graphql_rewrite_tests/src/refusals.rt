//! What is made, or refused: the old document is as it was either way.
mod each_kind;

use crate::made::replaced;
use crate::samples::document;
use crate::whole::{many, types};
use graphql_ast::ast::Document;
use graphql_ast::name;
use graphql_rewrite::{
    Rebuilt, RenameFields, add_field_everywhere, concat, remove_directive, rename_fields, rewrite,
    sort_definitions,
};
use std::alloc::{AllocError, Global};
use std::process::Abort;

const REWRITERS: usize = 4;

/// What the rewriter of that number makes of a document.
fn made(alloc: Global, document: &Document, rewriter: usize) -> Rebuilt<Document> {
    match rewriter {
        0 => rename_fields(alloc, document, "a", &name!(c)),
        1 => add_field_everywhere(alloc, document, &name!(id)),
        2 => remove_directive(alloc, document, "d"),
        _ => replaced(alloc, document),
    }
}

/// What was made isn't the old document, and where memory is refused nothing is told of it. What is made twice is equal.
fn check(rt: &impl Abort, once: Rebuilt<Document>, twice: Rebuilt<Document>, copy: &Document) {
    if let Ok(once) = once {
        let once = once.expect(rt, "another document");
        assert!(rt; once != *copy);
        if let Ok(twice) = twice {
            assert!(rt; twice.expect(rt, "another document") == once);
        }
    }
}

/// And a document that is rewritten in place is another, or stays.
/// Allocations: 264.
#[test]
fn another_document_is_made_or_memory_is_refused(rt: HostRuntime) {
    let alloc = rt.alloc();
    let Ok(mut document) = document(alloc) else {
        return;
    };
    let Ok(copy) = document.clone() else {
        return;
    };
    for rewriter in 0..REWRITERS {
        let once = made(alloc, &document, rewriter);
        check(&rt, once, made(alloc, &document, rewriter), &copy);
        assert!(rt; document == copy);
    }
    let rename = RenameFields {
        from: "a",
        to: &name!(c),
    };
    let answer = rewrite(alloc, &rename, &mut document);
    assert_eq!(rt; document == copy, answer.is_err());
}

fn joined(alloc: Global) -> Result<Document, AllocError> {
    let documents = vec![in alloc; types(alloc)?]?;
    concat(alloc, documents)
}

/// A few definitions are sorted without memory.
fn check_joined(rt: &impl Abort, alloc: Global) {
    let Ok(mut once) = joined(alloc) else {
        return;
    };
    if let Ok(twice) = joined(alloc) {
        assert!(rt; once == twice);
    }
    assert_eq!(rt; once.definitions.len(), 4);
    assert!(rt; sort_definitions(&mut once).is_ok());
}

/// Many are sorted, or stay as they were.
fn check_sorted(rt: &impl Abort, alloc: Global) {
    let Ok(mut document) = many(alloc) else {
        return;
    };
    let Ok(before) = many(alloc) else {
        return;
    };
    let answer = sort_definitions(&mut document);
    assert_eq!(rt; document == before, answer.is_err());
}

/// Allocations: 67.
#[test]
fn documents_are_joined_and_sorted_or_memory_is_refused(rt: HostRuntime) {
    check_joined(&rt, rt.alloc());
    check_sorted(&rt, rt.alloc());
}
