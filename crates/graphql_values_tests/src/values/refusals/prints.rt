//! Trees that are copied, printed and displayed, or refused.
use crate::checks::{check_displayed_or_refused, check_print_or_refused};
use crate::samples::{FORMS, definition, directive, directives, input, items, nested, value_of};
use graphql_checks::refused::{check_cloned_or_refused, check_text_or_refused};
use graphql_text::engine::Syntax;
use graphql_values::ty;
use std::alloc::{AllocError, Global};
use std::fmt::Display;
use std::process::Abort;

/// A tree, its text on one line, and as it is displayed: each call on it is whole or refused.
fn check_calls<T: Clone + PartialEq + Display + Syntax + Drop>(
    rt: &impl Abort,
    alloc: Global,
    made: Result<T, AllocError>,
    flat: &str,
    displayed: &str,
) {
    if let Ok(tree) = made {
        check_cloned_or_refused(&tree).expect(rt, flat);
        check_print_or_refused(rt, &tree, flat);
        check_text_or_refused(alloc, &tree, flat).expect(rt, flat);
        check_displayed_or_refused(rt, &tree, displayed);
    }
}

fn check_values(rt: &impl Abort, alloc: Global) {
    let displayed = "[\n  [],\n  1.5,\n]";
    check_calls(rt, alloc, nested(alloc), "[[], 1.5]", displayed);
    if let Ok(value) = items(alloc) {
        check_print_or_refused(rt, &value, "[1, EXAMPLE, true, null]");
    }
}

fn check_directives(rt: &impl Abort, alloc: Global) {
    let one = "@a(x: 1, y: 2)";
    check_calls(rt, alloc, directive(alloc), one, one);
    let two = " @a @b";
    check_calls(rt, alloc, directives(alloc), two, two);
}

fn check_definitions(rt: &impl Abort, alloc: Global) {
    let flat = "a: [[I!]] = [[], 1.5]";
    let displayed = "a: [[I!]] = [\n  [],\n  1.5,\n]";
    check_calls(rt, alloc, input(alloc), flat, displayed);
    let text = "directive @d(a: [[I!]] = [[], 1.5])";
    check_calls(rt, alloc, definition(alloc), text, text);
}

/// Trees of each kind: of a directive and more the text is on one line in each layout.
/// Allocations: 76.
#[test]
fn trees_are_copied_printed_and_displayed_or_refused(rt: HostRuntime) {
    let alloc = rt.alloc();
    check_values(&rt, alloc);
    check_directives(&rt, alloc);
    check_definitions(&rt, alloc);
    for form in FORMS {
        if let Ok(value) = value_of(alloc, form) {
            check_cloned_or_refused(&value).expect(&rt, "a clone");
        }
    }
}

/// Allocations: 7.
#[test]
fn a_type_is_made_copied_and_displayed_or_refused(rt: HostRuntime) {
    if let Ok(ty) = ty!(in rt.alloc(); [[I]!]!) {
        assert!(rt; ty.is_list() && ty.is_non_null());
        assert!(rt; ty.item_type().is_list() && ty.item_type().is_non_null());
        assert!(rt; *ty.item_type().item_type() == ty!(I));
        check_cloned_or_refused(&ty).expect(&rt, "a clone");
    }
    if let Ok(ty) = ty!(in rt.alloc(); [[I!]]) {
        check_displayed_or_refused(&rt, &ty, "[[I!]]");
    }
}
