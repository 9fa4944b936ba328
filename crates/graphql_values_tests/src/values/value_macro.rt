//! Values as GraphQL writes them.
use crate::checks::{check_equal, check_made};
use crate::samples::made_of_parts;
use graphql_text::engine::Serialize;
use graphql_values::value;
use graphql_values::value::Value;
use std::alloc::{AllocError, Global};
use std::process::Abort;

/// The text on one line is the wanted one: memory is ample.
fn check_value(rt: &impl Abort, alloc: Global, made: Result<Value, AllocError>, wanted: &str) {
    let value = made.expect(rt, "memory");
    check_made(
        rt,
        Serialize::new(&value).no_indent().to_text(alloc),
        wanted,
    );
}

fn check_words(rt: &impl Abort, alloc: Global) {
    for (made, wanted) in [
        (value!(in alloc; null), "null"),
        (value!(in alloc; true), "true"),
        (value!(in alloc; false), "false"),
        (value!(in alloc; NEW), "NEW"),
        (value!(in alloc; $max), "$max"),
        (value!(in alloc; "é"), "\"é\""),
    ] {
        check_value(rt, alloc, made, wanted);
    }
}

fn check_numbers(rt: &impl Abort, alloc: Global) {
    let smallest = "-9223372036854775808";
    for (made, wanted) in [
        (value!(in alloc; 12), "12"),
        (value!(in alloc; -9223372036854775808), smallest),
        (value!(in alloc; 1.50), "1.50"),
        (value!(in alloc; -2e5), "-2e5"),
    ] {
        check_value(rt, alloc, made, wanted);
    }
}

fn check_lists(rt: &impl Abort, alloc: Global) {
    for (made, wanted) in [
        (value!(in alloc; []), "[]"),
        (value!(in alloc; [1, A, [true],]), "[1, A, [true]]"),
        (value!(in alloc; [-1, $a, {b: $c}]), "[-1, $a, {b: $c}]"),
        (value!(in alloc; [true, $a, -1, 2]), "[true, $a, -1, 2]"),
    ] {
        check_value(rt, alloc, made, wanted);
    }
}

fn check_objects(rt: &impl Abort, alloc: Global) {
    for (made, wanted) in [
        (value!(in alloc; {a: $a, b: false}), "{a: $a, b: false}"),
        (value!(in alloc; {}), "{}"),
        (
            value!(in alloc; {min: 0, max: $max, tags: ["new", NEW], other: null}),
            "{min: 0, max: $max, tags: [\"new\", NEW], other: null}",
        ),
    ] {
        check_value(rt, alloc, made, wanted);
    }
}

/// A value of parts, and the same as GraphQL writes it.
fn check_parts(rt: &impl Abort, alloc: Global) {
    let text = "[[true, null], {a: 1, a: 3000000000}]";
    check_value(rt, alloc, made_of_parts(alloc), text);
    let written = value!(in alloc; [[true, null], {a: 1, a: 3000000000}]);
    let written = written.expect(rt, "memory");
    let made = made_of_parts(alloc).expect(rt, "memory");
    check_equal(rt, made == written, true);
}

#[test]
fn as_graphql_writes_them(rt: HostRuntime) {
    let alloc = rt.alloc();
    check_words(&rt, alloc);
    check_numbers(&rt, alloc);
    check_lists(&rt, alloc);
    check_objects(&rt, alloc);
    check_parts(&rt, alloc);
}
