//! Worked values of arguments.
ghost use Rattle.std.specs.Prelude.{◌≡◌, OnErr, OnOk};
ghost use Rattle.graphql_values.specs.code.Loans.{with_value_of};

use crate::checks::{check_case, check_equal};
use crate::samples::{number, with_argument};
use graphql_base::name;
use graphql_base::name::Name;
use graphql_base::node::Node;
use graphql_values::directive::{
    ArgumentByNameError, ArgumentValue, Directive, SpecifiedArgumentError,
};
use graphql_values::directive_definition::DirectiveDefinition;
use graphql_values::input_value_definition::InputValueDefinition;
use graphql_values::ty;
use graphql_values::types::Type;
use graphql_values::value::Value;
use indexmap::IndexMap;
use std::alloc::{AllocError, Global};
use std::process::Abort;

fn argument(
    alloc: Global,
    name: Name,
    ty: Type,
    default_value: Option<Node<Value>>,
) -> Result<Node<InputValueDefinition>, AllocError> {
    let ty = Node::new(alloc, ty)?;
    let argument = InputValueDefinition {
        default_value,
        ..InputValueDefinition::new(alloc, name, ty)
    };
    Node::new(alloc, argument)
}

/// `required: Int!, default: Int! = 1, free: Int`
fn arguments(alloc: Global) -> Result<Vec<Node<InputValueDefinition>>, AllocError> {
    let one = number(alloc, 1)?;
    let arguments = vec![in alloc;
        argument(alloc, name!(required), ty!(Int!), None)?,
        argument(alloc, name!(default), ty!(Int!), Some(one))?,
        argument(alloc, name!(free), ty!(Int), None)?,
    ]?;
    Ok(arguments)
}

/// `directive @a(required: Int!, default: Int! = 1, free: Int)`, which may stand nowhere
fn definition(alloc: Global) -> Result<DirectiveDefinition, AllocError> {
    let mut definition = DirectiveDefinition::new(alloc, name!(a));
    definition.arguments = arguments(alloc)?;
    Ok(definition)
}

fn definitions(
    alloc: Global,
    name: Name,
) -> Result<IndexMap<Name, Node<DirectiveDefinition>>, AllocError> {
    let mut map = IndexMap::new(alloc);
    map.insert(name, Node::new(alloc, definition(alloc)?)?)?;
    Ok(map)
}

/// what a test compares: a number, or the answer without a value
fn told(answer: Result<ArgumentValue<'_>, ArgumentByNameError>) -> (Option<i32>, &'static str) {
    match answer {
        Ok(ArgumentValue::Value(value)) => (value.to_i32(), "value"),
        Ok(ArgumentValue::ImplicitNull) => (None, "implicit null"),
        Err(ArgumentByNameError::UndefinedDirective) => (None, "undefined directive"),
        Err(ArgumentByNameError::NoSuchArgument) => (None, "no such argument"),
        Err(ArgumentByNameError::RequiredArgumentNotSpecified) => (None, "required"),
    }
}

/// The key of the one definition, the name of a directive without arguments, that of an argument, and its value.
fn cases() -> [(Name, Name, &'static str, (Option<i32>, &'static str)); 6] {
    [
        (name!(a), name!(a), "other", (None, "no such argument")),
        (name!(a), name!(a), "required", (None, "required")),
        (name!(a), name!(a), "default", (Some(1), "value")),
        (name!(a), name!(a), "free", (None, "implicit null")),
        (name!(b), name!(a), "default", (None, "undefined directive")),
        (name!(b), name!(b), "default", (Some(1), "value")),
    ]
}

/// What a directive without arguments answers, where this key defines it.
fn check_answer(
    rt: &impl Abort,
    alloc: Global,
    key: Name,
    name: Name,
    argument: &str,
    answer: (Option<i32>, &'static str),
) {
    let defined = definitions(alloc, key).expect(rt, "memory");
    let directive = Directive::new(alloc, name);
    let value = directive.argument_by_name(argument, &defined);
    check_case(rt, argument, told(value), answer);
}

/// `@a(n: null)`
fn with_null(alloc: Global) -> Result<Directive, AllocError> {
    let null = Node::new(alloc, Value::Null)?;
    with_argument(alloc, Directive::new(alloc, name!(a)), name!(n), null)
}

/// What is specified needs no definition.
fn check_null(rt: &impl Abort, alloc: Global) {
    let directive = with_null(alloc).expect(rt, "memory");
    let defined = definitions(alloc, name!(b)).expect(rt, "memory");
    let is_null = match directive.argument_by_name("n", &defined) {
        Ok(ArgumentValue::Value(value)) => value.is_null(),
        _ => false,
    };
    check_case(rt, "specified", is_null, true);
}

/// The key defines the directive, and not the name in the definition.
#[test]
fn values_by_definition(rt: HostRuntime) {
    for (key, name, argument, answer) in cases() {
        check_answer(&rt, rt.alloc(), key, name, argument, answer);
    }
    check_null(&rt, rt.alloc());
}

/// `@a(x: 1, y: N)`
fn directive(alloc: Global, y: i32) -> Result<Directive, AllocError> {
    let bare = Directive::new(alloc, name!(a));
    let with_x = with_argument(alloc, bare, name!(x), number(alloc, 1)?)?;
    with_argument(alloc, with_x, name!(y), number(alloc, y)?)
}

/// What a caller knows of a value that it wrote.
fn set_argument(
    directive: &mut Directive,
    name: &str,
    value: Node<Value>,
) -> Result<(), SpecifiedArgumentError>
    ensures ok { OnOk result (directive.new.arguments.items
        ≡ with_value_of name.now value directive.old.arguments.items) }
    ensures err { OnErr result (directive.new.arguments.items ≡ directive.old.arguments.items) }
    ensures name { directive.new.name ≡ directive.old.name }
{
    *directive.specified_argument_by_name_mut(name)? = value;
    Ok(())
}

fn is_shared(directive: &mut Directive, place: usize) -> bool {
    match directive.arguments.get_mut(place) {
        Some(argument) => argument.get_mut().is_none(),
        None => false,
    }
}

/// Whether each argument still is another directive's too.
fn sharing(directive: &mut Directive) -> [bool; 2] {
    [is_shared(directive, 0), is_shared(directive, 1)]
}

fn lend(directive: &mut Directive, name: &str) -> bool {
    directive.specified_argument_by_name_mut(name).is_ok()
}

/// A directive that shares its arguments with another lends the value of this name, or has none of it. Both stay as they
/// were.
fn check_lent(rt: &impl Abort, alloc: Global, name: &str, is_there: bool, shared: [bool; 2]) {
    let other = directive(alloc, 2).expect(rt, "memory");
    let mut lent = other.clone().expect(rt, "memory");
    let is_lent = lend(&mut lent, name);
    check_case(rt, &name, (is_lent, sharing(&mut lent)), (is_there, shared));
    check_case(rt, name, lent == other, true);
}

/// `@a(x: 1, y: 2, x: 1, y: 3)`
fn repeated(alloc: Global) -> Result<Directive, AllocError> {
    let mut directive = Directive::new(alloc, name!(a));
    for (name, value) in [(name!(x), 1), (name!(y), 2), (name!(x), 1), (name!(y), 3)] {
        directive = with_argument(alloc, directive, name, number(alloc, value)?)?;
    }
    Ok(directive)
}

fn numbers(alloc: Global, directive: &Directive) -> Result<Vec<Option<i32>>, AllocError> {
    directive
        .arguments
        .iter()
        .map(|node| node.value.to_i32())
        .collect(alloc)
}

fn specified(directive: &Directive, name: &str) -> Option<i32> {
    directive.specified_argument_by_name(name)?.to_i32()
}

fn check_specified(rt: &impl Abort, directive: &Directive, name: &str, wanted: Option<i32>) {
    let is_there = directive.specified_argument_by_name(name).is_some();
    check_case(rt, name, is_there, wanted.is_some());
    check_case(rt, name, specified(directive, name), wanted);
}

/// Of two values of a name the first is written.
fn check_first_written(rt: &impl Abort, alloc: Global, mut repeated: Directive) {
    let four = number(alloc, 4).expect(rt, "memory");
    set_argument(&mut repeated, "y", four).expect(rt, "memory");
    let found = numbers(alloc, &repeated).expect(rt, "memory");
    let wanted = [Some(1), Some(4), Some(1), Some(3)];
    check_equal(rt, found.as_slice(), wanted.as_slice());
}

fn check_repeated(rt: &impl Abort, alloc: Global) {
    let repeated = repeated(alloc).expect(rt, "memory");
    for (name, wanted) in [("y", Some(2)), ("z", None), ("Y", None), ("", None)] {
        check_specified(rt, &repeated, name, wanted);
    }
    check_first_written(rt, alloc, repeated);
}

/// It is `@a(x: 1, y: N)`.
fn check_directive(rt: &impl Abort, alloc: Global, found: &Directive, y: i32) {
    let wanted = directive(alloc, y).expect(rt, "memory");
    check_case(rt, &y, *found == wanted, true);
}

/// What is written is seen in one of two directives that share their arguments.
fn check_written(rt: &impl Abort, alloc: Global) {
    let other = directive(alloc, 2).expect(rt, "memory");
    let mut lent = other.clone().expect(rt, "memory");
    let three = number(alloc, 3).expect(rt, "memory");
    set_argument(&mut lent, "y", three).expect(rt, "memory");
    check_directive(rt, alloc, &lent, 3);
    check_directive(rt, alloc, &other, 2);
}

fn check_errors(rt: &impl Abort, alloc: Global) {
    let mut bare = Directive::new(alloc, name!(a));
    let error = bare.specified_argument_by_name_mut("x").err();
    let error = error.expect(rt, "no argument");
    check_equal(rt, error.is_memory(), false);
    check_equal(rt, SpecifiedArgumentError::Memory.is_memory(), true);
}

/// That of the first argument of the name, which then is no other directive's.
#[test]
fn specified_values_are_found_and_lent(rt: HostRuntime) {
    let alloc = rt.alloc();
    check_repeated(&rt, alloc);
    check_lent(&rt, alloc, "x", true, [false, true]);
    check_lent(&rt, alloc, "y", true, [true, false]);
    check_lent(&rt, alloc, "z", false, [true, true]);
    check_written(&rt, alloc);
    check_errors(&rt, alloc);
}
