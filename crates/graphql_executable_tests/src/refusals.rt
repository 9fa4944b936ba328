//! What is made, copied and printed, or refused.
use crate::samples::{field, fragment, inline_fragment, operation};
use graphql_base::name;
use graphql_checks::refused::{check_cloned_or_refused, check_text_or_refused};
use graphql_executable::field::Field;
use graphql_executable::fragment_spread::FragmentSpread;
use graphql_executable::operation_definition::OperationDefinition;
use graphql_executable::selection::Selection;
use std::alloc::AllocError;

/// Allocations: 34.
#[test]
fn definitions_are_copied_and_printed_or_refused(rt: HostRuntime) {
    let operation: Result<OperationDefinition, _> = operation(rt.alloc());
    if let Ok(operation) = operation {
        check_cloned_or_refused(&operation).expect(&rt, "a clone");
        let wanted =
            "query N($v: Int = 1 @d) { r: s(a: $v) @include(if: true) { ...F ... on T { id } } }";
        check_text_or_refused(rt.alloc(), &operation, wanted).expect(&rt, wanted);
    }
    if let Ok(fragment) = fragment(rt.alloc()) {
        check_cloned_or_refused(&fragment).expect(&rt, "a clone");
        let wanted = "\"D\" fragment F on T { a }";
        check_text_or_refused(rt.alloc(), &fragment, wanted).expect(&rt, wanted);
    }
}

/// Allocations: 10.
#[test]
fn a_selection_is_made_or_refused(rt: HostRuntime) {
    let alloc = rt.alloc();
    let spread = Selection::fragment_spread(alloc, FragmentSpread::new(alloc, name!(F)));
    let inline = match inline_fragment(alloc) {
        Ok(inline) => Selection::inline_fragment(alloc, inline),
        Err(AllocError) => Err(AllocError),
    };
    for (made, wanted) in [
        (Selection::field(alloc, Field::new(alloc, name!(a))), "a"),
        (spread, "...F"),
        (inline, "... on T { id }"),
    ] {
        if let Ok(selection) = made {
            check_text_or_refused(alloc, &selection, wanted).expect(&rt, wanted);
        }
    }
}

/// Allocations: 31.
#[test]
fn directives_are_lent_or_the_selection_stays(rt: HostRuntime) {
    let alloc = rt.alloc();
    let (Ok(field), Ok(before)) = (field(alloc), field(alloc)) else {
        return;
    };
    let Ok(original) = Selection::field(alloc, field) else {
        return;
    };
    let Ok(mut shared) = original.clone() else {
        return;
    };
    if let Ok(directives) = shared.directives_mut() {
        assert!(rt; directives.has("include"));
    }
    assert!(rt; shared == original);
    assert!(rt; shared.as_field().is_some_and(|field| **field == before));
}
