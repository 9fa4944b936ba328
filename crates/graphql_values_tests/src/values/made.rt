//! Arguments, directives and definitions that are made of their parts.
use crate::checks::{check_case, check_equal, check_printed, check_text};
use graphql_base::name;
use graphql_base::node::Node;
use graphql_values::argument::Argument;
use graphql_values::directive::Directive;
use graphql_values::directive_definition::DirectiveDefinition;
use graphql_values::input_value_definition::InputValueDefinition;
use graphql_values::types::Type;
use graphql_values::value::Value;
use std::alloc::Global;
use std::process::Abort;

fn check_argument(rt: &impl Abort, alloc: Global) {
    let value = Node::new(alloc, Value::from(true)).expect(rt, "memory");
    let argument = Argument::new_node(alloc, name!(x), value).expect(rt, "memory");
    check_text(rt, argument.name.as_str(), "x");
    check_equal(rt, argument.value.to_bool(), Some(true));
    check_equal(rt, argument.location(), None);
}

fn check_directive(rt: &impl Abort, alloc: Global) {
    let directive = Directive::new(alloc, name!(a));
    check_text(rt, directive.name.as_str(), "a");
    check_equal(rt, directive.arguments.is_empty(), true);
}

fn check_definition(rt: &impl Abort, alloc: Global) {
    let definition = DirectiveDefinition::new(alloc, name!(d));
    check_text(rt, definition.name.as_str(), "d");
    check_equal(rt, definition.description.is_none(), true);
    check_equal(rt, definition.arguments.is_empty(), true);
    check_equal(rt, definition.repeatable, false);
    check_equal(rt, definition.locations.is_empty(), true);
}

/// An input value, its text without a default value, and whether it is required with this one.
fn check_input(
    rt: &impl Abort,
    alloc: Global,
    ty: Type,
    default_value: Option<Node<Value>>,
    is_required: bool,
    text: &str,
) {
    let ty = Node::new(alloc, ty).expect(rt, "memory");
    let mut input = InputValueDefinition::new(alloc, name!(a), ty);
    check_printed(rt, &input, text);
    input.default_value = default_value;
    check_case(rt, &input, input.is_required(), is_required);
}

fn check_inputs(rt: &impl Abort, alloc: Global) {
    let null = Node::new(alloc, Value::Null).expect(rt, "memory");
    for (ty, default_value, is_required, text) in [
        (Type::NonNullNamed(name!(Int)), None, true, "a: Int!"),
        (Type::NonNullNamed(name!(Int)), Some(null), false, "a: Int!"),
        (Type::Named(name!(Int)), None, false, "a: Int"),
    ] {
        check_input(rt, alloc, ty, default_value, is_required, text);
    }
}

/// What isn't given is left out.
#[test]
fn new_parts_of_trees(rt: HostRuntime) {
    check_argument(&rt, rt.alloc());
    check_directive(&rt, rt.alloc());
    check_definition(&rt, rt.alloc());
    check_inputs(&rt, rt.alloc());
}
