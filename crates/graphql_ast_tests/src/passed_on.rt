//! What this crate passes on, or writes anew over what stands below it: the macros of types and values, lists of directives, texts of errors.
use crate::checks::check_equal;
use graphql_ast::ast::{Directive, DirectiveList, SpecifiedArgumentError, Type};
use graphql_ast::node::Node;
use graphql_ast::{name, ty, value};
use graphql_checks::trees::check_line;
use std::alloc::{AllocError, Global};
use std::process::Abort;

/// Each form of the macro of types.
fn types(alloc: Global) -> [(Result<Type, AllocError>, &'static str); 9] {
    [
        (Ok(ty!(Int)), "Int"),
        (Ok(ty!(Int!)), "Int!"),
        (ty!(in alloc; [Int]), "[Int]"),
        (ty!(in alloc; [Int!]!), "[Int!]!"),
        (ty!(in alloc; [[Int]]), "[[Int]]"),
        (ty!(in alloc; [[Int]!]), "[[Int]!]"),
        (ty!(in alloc; [[Int!]]!), "[[Int!]]!"),
        (ty!(in alloc; [[Int!]!]!), "[[Int!]!]!"),
        (ty!(in alloc; [[[Int]!]]), "[[[Int]!]]"),
    ]
}

fn check_types(rt: &impl Abort, alloc: Global) {
    for (made, wanted) in types(alloc) {
        let ty = made.expect(rt, "memory");
        let text = format!(in alloc; "{ty}").expect(rt, "memory");
        check_equal(rt, text.as_str(), wanted);
    }
}

fn check_value(rt: &impl Abort, alloc: Global) {
    let value = value!(in alloc; {min: 0, max: $max, tags: ["new", NEW], other: null});
    let wanted = "{min: 0, max: $max, tags: [\"new\", NEW], other: null}";
    check_line(alloc, &value.expect(rt, "memory"), wanted, true).expect(rt, wanted);
}

/// A list of directives gives its allocator.
fn check_list(rt: &impl Abort, alloc: Global) {
    let mut list = DirectiveList::new(alloc);
    let node = Node::new(list.allocator(), Directive::new(alloc, name!(d)));
    let node = node.expect(rt, "memory");
    list.0.push(node).expect(rt, "memory");
    let text = list.serialize().to_text(list.allocator());
    let text = text.expect(rt, "memory");
    check_equal(rt, text.as_str(), " @d");
}

fn check_error(rt: &impl Abort, alloc: Global, error: SpecifiedArgumentError, wanted: &str) {
    let text = format!(in alloc; "{error}").expect(rt, "memory");
    check_equal(rt, text.as_str(), wanted);
}

#[test]
fn types_values_lists_and_errors(rt: HostRuntime) {
    let alloc = rt.alloc();
    check_types(&rt, alloc);
    check_value(&rt, alloc);
    check_list(&rt, alloc);
    for (error, wanted) in [
        (
            SpecifiedArgumentError::NotSpecified,
            "no argument of that name",
        ),
        (SpecifiedArgumentError::Memory, "out of memory"),
    ] {
        check_error(&rt, alloc, error, wanted);
    }
}
