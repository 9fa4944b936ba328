//! What is told of a document, or refused.
use crate::reached::{check_names, check_spreads};
use crate::samples::document;
use graphql_ast::ast::Document;
use graphql_operations::{fragment_spreads, fragments_reached, separate_operations};
use std::process::Abort;

fn check_documents(rt: &impl Abort, documents: &[Document]) {
    assert_eq!(rt; documents.len(), 2);
    let ring = documents.first().expect(rt, "a document");
    check_names(rt, &ring.definitions, &["C", "Ring", "B", "A"]);
    let once = documents.last().expect(rt, "a document");
    check_names(rt, &once.definitions, &["Once", "Lost"]);
}

/// Allocations: 54.
#[test]
fn operations_are_separated_or_memory_is_refused(rt: HostRuntime) {
    let alloc = rt.alloc();
    if let Ok(document) = document(alloc) {
        if let Ok(documents) = separate_operations(alloc, &document) {
            check_documents(&rt, &documents);
        }
        if let Ok(names) = fragment_spreads(alloc, &document) {
            check_spreads(&rt, &names);
        }
        if let Some(ring) = document.definitions.get(1) {
            if let Ok(found) = fragments_reached(alloc, &document, ring) {
                check_names(&rt, &found, &["C", "B", "A"]);
            }
        }
    }
}
