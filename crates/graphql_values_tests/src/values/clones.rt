//! Clones where memory is ample.
use crate::checks::check_made;
use crate::samples::{FORMS, definition, directive, directives, input, nested, number, value_of};
use graphql_base::name;
use graphql_checks::trees::check_cloned;
use graphql_values::argument::Argument;
use graphql_values::literal::{FloatValue, IntValue};
use graphql_values::ty;
use graphql_values::types::Type;
use std::alloc::{AllocError, Global};
use std::process::Abort;

fn type_of(alloc: Global, text: &str) -> Result<Type, AllocError> {
    match text {
        "A!" => Ok(ty!(A!)),
        "[A!]" => ty!(in alloc; [A!]),
        "[[A]!]!" => ty!(in alloc; [[A]!]!),
        _ => Ok(ty!(A)),
    }
}

/// `x: 1`
fn argument(alloc: Global) -> Result<Argument, AllocError> {
    Ok(Argument {
        name: name!(x),
        value: number(alloc, 1)?,
    })
}

fn check_made_clone<T: Clone + PartialEq + Drop>(rt: &impl Abort, made: Result<T, AllocError>) {
    let tree = made.expect(rt, "memory");
    check_cloned(&tree).expect(rt, "a clone");
}

fn check_types(rt: &impl Abort, alloc: Global) {
    for text in ["A", "A!", "[A!]", "[[A]!]!"] {
        check_made_clone(rt, type_of(alloc, text));
    }
}

fn check_literals(rt: &impl Abort, alloc: Global) {
    let int = IntValue::new_parsed(alloc, "-120").expect(rt, "memory");
    check_cloned(&int).expect(rt, "a clone");
    let float = FloatValue::new_parsed(alloc, "1.50").expect(rt, "memory");
    check_cloned(&float).expect(rt, "a clone");
}

fn check_long_int(rt: &impl Abort, alloc: Global) {
    let long = "-100000000000000000000000000002";
    let int = IntValue::new_parsed(alloc, long).expect(rt, "memory");
    check_cloned(&int).expect(rt, long);
}

fn check_long_float(rt: &impl Abort, alloc: Global) {
    let long = "1.50000000000000000000000000002";
    let float = FloatValue::new_parsed(alloc, long).expect(rt, "memory");
    check_cloned(&float).expect(rt, long);
}

fn check_trees(rt: &impl Abort, alloc: Global) {
    check_made_clone(rt, argument(alloc));
    check_made_clone(rt, directive(alloc));
    check_made_clone(rt, directives(alloc));
    check_made_clone(rt, input(alloc));
    check_made_clone(rt, definition(alloc));
}

fn check_print(rt: &impl Abort, alloc: Global) {
    let value = nested(alloc).expect(rt, "memory");
    let print = value.serialize().indent_prefix("-").initial_indent_level(1);
    let copy = print.clone().expect(rt, "memory");
    for print in [copy, print] {
        check_made(rt, print.to_text(alloc), "-[\n--[],\n--1.5,\n-]");
    }
}

#[test]
fn of_trees_and_prints(rt: HostRuntime) {
    let alloc = rt.alloc();
    for form in FORMS {
        check_made_clone(&rt, value_of(alloc, form));
    }
    check_types(&rt, alloc);
    check_literals(&rt, alloc);
    check_long_int(&rt, alloc);
    check_long_float(&rt, alloc);
    check_trees(&rt, alloc);
    check_print(&rt, alloc);
}
