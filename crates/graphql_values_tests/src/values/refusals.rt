//! Calls that meet a refused growth, wherever it comes: the answer is the refusal, or that of an undisturbed call.
//! `rt try --test --fail-alloc N` refuses the Nth growth of each test.
mod made;
mod prints;

use crate::checks::{check_equal, check_printed, check_text};
use crate::samples::{directive, directives};
use graphql_base::name;
use graphql_base::node::Node;
use graphql_checks::trees::check_cloned;
use graphql_values::directive::{Directive, SpecifiedArgumentError};
use graphql_values::directive_list::DirectiveList;
use graphql_values::literal::{FloatValue, IntValue};
use graphql_values::value::Value;
use std::alloc::Global;
use std::process::Abort;

/// Neither of two directives that share their arguments differs from what they were.
fn check_unchanged(rt: &impl Abort, shared: &Directive, original: &Directive, before: &Directive) {
    check_equal(rt, *shared == *before, true);
    check_equal(rt, *original == *before, true);
}

/// The value of `y` is lent, or memory is refused.
fn check_lent(rt: &impl Abort, directive: &mut Directive) {
    match directive.specified_argument_by_name_mut("y") {
        Ok(value) => check_equal(rt, value.to_i32(), Some(2)),
        Err(error) => check_equal(rt, error.is_memory(), true),
    }
}

/// No memory is asked for what is not specified, nor of one owner.
/// Allocations: 12.
#[test]
fn a_value_is_lent_or_the_directive_stays(rt: HostRuntime) {
    let alloc = rt.alloc();
    let (Ok(original), Ok(mut before)) = (directive(alloc), directive(alloc)) else {
        return;
    };
    let Ok(mut shared) = original.clone() else {
        return;
    };
    let error = shared.specified_argument_by_name_mut("z").err();
    check_equal(&rt, error, Some(SpecifiedArgumentError::NotSpecified));
    check_unchanged(&rt, &shared, &original, &before);
    check_lent(&rt, &mut shared);
    check_unchanged(&rt, &shared, &original, &before);
    let is_lent = before.specified_argument_by_name_mut("y").is_ok();
    check_equal(&rt, is_lent, true);
}

/// The node is pushed and taken again, or handed back.
fn check_pushed(rt: &impl Abort, alloc: Global, list: &mut DirectiveList, node: Node<Directive>) {
    let back = match list.push(node) {
        Ok(()) => list.pop(),
        Err(node) => Some(node),
    };
    let back = back.expect(rt, "the node");
    check_equal(rt, *back == Directive::new(alloc, name!(c)), true);
}

fn check_collected(rt: &impl Abort, alloc: Global, list: DirectiveList, wanted: &DirectiveList) {
    if let Ok(collected) = DirectiveList::collect_from(alloc, list.into_iter()) {
        check_equal(rt, collected == *wanted, true);
    }
}

/// Allocations: 9.
#[test]
fn nodes_are_pushed_and_collected_or_handed_back(rt: HostRuntime) {
    let alloc = rt.alloc();
    let (Ok(mut list), Ok(before)) = (directives(alloc), directives(alloc)) else {
        return;
    };
    if let Ok(node) = Node::new(alloc, Directive::new(alloc, name!(c))) {
        check_pushed(&rt, alloc, &mut list, node);
        check_equal(&rt, list == before, true);
    }
    check_collected(&rt, alloc, list, &before);
}

fn check_numbers(rt: &impl Abort, alloc: Global) {
    for made in [
        IntValue::from_i32(alloc, -2147483648),
        IntValue::from_i64(alloc, -9223372036854775808),
    ] {
        check_cloned(&made.expect(rt, "no memory")).expect(rt, "a clone");
    }
}

fn check_int(rt: &impl Abort, alloc: Global) {
    let int = IntValue::new(alloc, "-12").expect(rt, "no memory");
    check_text(rt, int.as_str(), "-12");
}

fn check_floats(rt: &impl Abort, alloc: Global) {
    let text = "1.5000000000000000000000000002";
    let float = FloatValue::new_parsed(alloc, text).expect(rt, "no memory");
    check_text(rt, float.as_str(), text);
    check_cloned(&float).expect(rt, "a clone");
    let float = FloatValue::new(alloc, text).expect(rt, "no memory");
    check_equal(rt, float.as_str().len(), 30);
}

fn check_values(rt: &impl Abort, alloc: Global) {
    for (value, wanted) in [
        (Value::Null, "null"),
        (Value::Enum(name!(ON)), "ON"),
        (Value::List(Vec::new(alloc)), "[]"),
    ] {
        check_printed(rt, &value, wanted);
    }
}

/// For short literals, and for trees without lists and arguments.
#[test]
fn no_memory_is_asked_for(rt: HostRuntime) {
    let alloc = rt.alloc();
    check_numbers(&rt, alloc);
    check_int(&rt, alloc);
    check_floats(&rt, alloc);
    check_values(&rt, alloc);
    check_printed(&rt, &Directive::new(alloc, name!(a)), "@a");
}
