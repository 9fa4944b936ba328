//! What is made, copied, pushed and printed, or refused.
mod calls;
mod each_kind;

use crate::checks::check_equal;
use crate::samples::{EACH_VARIANT, document, each_variant};
use graphql_ast::ast::{Document, ScalarTypeDefinition};
use graphql_ast::name;
use graphql_checks::refused::{check_cloned_or_refused, check_text_or_refused};

/// Allocations: 62.
#[test]
fn a_document_is_copied_and_printed_or_refused(rt: HostRuntime) {
    if let Ok(all) = each_variant(rt.alloc()) {
        let document = document(rt.alloc(), all);
        check_cloned_or_refused(&document).expect(&rt, "a clone");
        check_text_or_refused(rt.alloc(), &document, EACH_VARIANT).expect(&rt, "a text");
    }
}

/// A definition that is refused leaves the document as it was, and the next is pushed.
/// Allocations: 24.
#[test]
fn definitions_are_pushed_or_refused(rt: HostRuntime) {
    let alloc = rt.alloc();
    let mut document = Document::new(alloc);
    for _ in 0..20 {
        let scalar = ScalarTypeDefinition::new(alloc, name!(A));
        let before = document.definitions.len();
        let wanted = match document.push(alloc, scalar) {
            Ok(()) => before.saturating_add(1),
            Err(_) => before,
        };
        check_equal(&rt, document.definitions.len(), wanted);
    }
    assert!(rt;
        document
            .definitions
            .iter()
            .all(|definition| definition.kind_name() == "scalar")
    );
}
