//! Prints of the five kinds, where memory is ample. How trees are laid out is told by the cases of another program.
use crate::checks::{Page, check_equal, check_made};
use crate::samples::{definition, directive, directives, input, nested, one};
use graphql_checks::trees::check_print;
use graphql_values::ty;
use graphql_values::value::Value;
use std::alloc::Global;
use std::fmt::{self, Write};
use std::process::Abort;

fn check_values(rt: &impl Abort, alloc: Global) {
    let value = nested(alloc).expect(rt, "memory");
    let indented = value
        .serialize()
        .indent_prefix("\t")
        .initial_indent_level(1);
    for (print, wanted) in [
        (value.serialize(), "[\n  [],\n  1.5,\n]"),
        (indented, "\t[\n\t\t[],\n\t\t1.5,\n\t]"),
    ] {
        check_print(alloc, print, wanted).expect(rt, wanted);
    }
}

fn check_directives(rt: &impl Abort, alloc: Global) {
    let one = directive(alloc).expect(rt, "memory");
    check_print(alloc, one.serialize(), "@a(x: 1, y: 2)").expect(rt, "a directive");
    let two = directives(alloc).expect(rt, "memory");
    check_print(alloc, two.serialize(), " @a @b").expect(rt, "directives");
}

fn check_input(rt: &impl Abort, alloc: Global) {
    let input = input(alloc).expect(rt, "memory");
    let wanted = "a: [[I!]] = [[], 1.5]";
    check_print(alloc, input.serialize().no_indent(), wanted).expect(rt, wanted);
}

fn check_definition(rt: &impl Abort, alloc: Global) {
    let definition = definition(alloc).expect(rt, "memory");
    let wanted = "directive @d(a: [[I!]] = [[], 1.5])";
    check_print(alloc, definition.serialize(), wanted).expect(rt, wanted);
}

#[test]
fn of_each_kind(rt: HostRuntime) {
    let alloc = rt.alloc();
    check_values(&rt, alloc);
    check_directives(&rt, alloc);
    check_input(&rt, alloc);
    check_definition(&rt, alloc);
}

fn check_list(rt: &impl Abort, alloc: Global, list: &Value) {
    check_made(rt, format!(in alloc; "{list:>9.1}"), "[\n  1,\n]");
    let print = list.serialize();
    check_made(rt, format!(in alloc; "{print:>9.1}"), "[\n  1,\n]");
}

fn check_number_and_type(rt: &impl Abort, alloc: Global) {
    let number = Value::from_i32(alloc, 47).expect(rt, "memory");
    check_made(rt, format!(in alloc; "{number:>9.1}"), "47");
    let ty = ty!(in alloc; [Foo!]!).expect(rt, "memory");
    check_made(rt, format!(in alloc; "{ty:>9.1}"), "[Foo!]!");
}

/// Width and precision do not reach trees, and a writer that refuses ends the print.
#[test]
fn into_formatters(rt: HostRuntime) {
    let alloc = rt.alloc();
    let list = one(alloc).expect(&rt, "memory");
    check_list(&rt, alloc, &list);
    check_number_and_type(&rt, alloc);
    let mut page = Page::new();
    let print = list.serialize().initial_indent_level(24);
    check_equal(&rt, write!(page, "{print}"), Err(fmt::Error));
}
