//! Arguments, values and literals that are made or refused.
use crate::checks::{check_equal, check_text};
use crate::samples::made_of_parts;
use graphql_base::name;
use graphql_base::node::Node;
use graphql_checks::refused::{check_cloned_or_refused, check_text_or_refused};
use graphql_values::argument::Argument;
use graphql_values::literal::{FloatValue, IntValue, LiteralError};
use graphql_values::value;
use graphql_values::value::Value;
use std::alloc::Global;
use std::process::Abort;

fn check_argument(rt: &impl Abort, alloc: Global) {
    if let Ok(value) = Node::new(alloc, Value::Null) {
        if let Ok(argument) = Argument::new_node(alloc, name!(x), value) {
            check_text(rt, argument.name.as_str(), "x");
            check_equal(rt, argument.value.is_null(), true);
        }
    }
}

fn check_number_and_text(rt: &impl Abort, alloc: Global) {
    if let Ok(value) = Value::from_i32(alloc, -7) {
        check_equal(rt, value.to_i32(), Some(-7));
    }
    if let Ok(value) = Value::from_text(alloc, "text") {
        check_equal(rt, value.as_str(), Some("text"));
    }
}

fn check_values(rt: &impl Abort, alloc: Global) {
    let written = value!(in alloc; {min: -1, max: $max, tags: ["new", NEW], b: [1.50]});
    for (made, wanted) in [
        (
            made_of_parts(alloc),
            "[[true, null], {a: 1, a: 3000000000}]",
        ),
        (
            written,
            "{min: -1, max: $max, tags: [\"new\", NEW], b: [1.50]}",
        ),
    ] {
        if let Ok(value) = made {
            check_text_or_refused(alloc, &value, wanted).expect(rt, wanted);
        }
    }
}

/// Of numbers and texts, of parts, and as GraphQL writes them.
/// Allocations: 34.
#[test]
fn arguments_and_values_are_made_or_refused(rt: HostRuntime) {
    check_argument(&rt, rt.alloc());
    check_number_and_text(&rt, rt.alloc());
    check_values(&rt, rt.alloc());
}

/// Longer than the texts that stand in place.
const INT: &str = "-100000000000000000000000000002";

const FLOAT: &str = "1.50000000000000000000000000002";

fn check_new_literals(rt: &impl Abort, alloc: Global) {
    match IntValue::new(alloc, INT) {
        Ok(int) => check_text(rt, int.as_str(), INT),
        Err(error) => check_equal(rt, error.is_memory(), true),
    }
    match FloatValue::new(alloc, FLOAT) {
        Ok(float) => check_text(rt, float.as_str(), FLOAT),
        Err(error) => check_equal(rt, error.is_memory(), true),
    }
}

fn check_invalid(rt: &impl Abort, alloc: Global, text: &str) {
    match IntValue::new(alloc, text) {
        Ok(int) => assert!(rt; false, "{int}"),
        Err(LiteralError::Invalid(refused)) => check_text(rt, refused.as_str(), text),
        Err(LiteralError::Memory) => {}
    }
}

fn check_parsed_int(rt: &impl Abort, alloc: Global) {
    if let Ok(int) = IntValue::new_parsed(alloc, INT) {
        check_text(rt, int.as_str(), INT);
        check_cloned_or_refused(&int).expect(rt, INT);
    }
}

fn check_parsed_float(rt: &impl Abort, alloc: Global) {
    if let Ok(float) = FloatValue::new_parsed(alloc, FLOAT) {
        check_text(rt, float.as_str(), FLOAT);
        check_cloned_or_refused(&float).expect(rt, FLOAT);
    }
}

/// Allocations: 9.
#[test]
fn a_literal_is_made_or_refused(rt: HostRuntime) {
    let alloc = rt.alloc();
    check_new_literals(&rt, alloc);
    for text in ["-", "01", "1e"] {
        check_invalid(&rt, alloc, text);
    }
    check_parsed_int(&rt, alloc);
    check_parsed_float(&rt, alloc);
}
