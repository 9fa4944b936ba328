//! Where values, directives and definitions aren't well formed.
use graphql_base::name;
use graphql_base::name::Name;
use graphql_base::node::Node;
use graphql_base::span::{FileId, SourceSpan};
use graphql_checks::flaws::{Cases, Flaw, at, check_flaws};
use graphql_text::ill_formed::SideCondition::{HasLocation, IsNotReserved};
use graphql_values::argument::Argument;
use graphql_values::directive::Directive;
use graphql_values::directive_definition::DirectiveDefinition;
use graphql_values::directive_list::DirectiveList;
use graphql_values::input_value_definition::InputValueDefinition;
use graphql_values::ty;
use graphql_values::value::Value;
use std::alloc::{AllocError, Global};

/// The enum value `true`, which is no boolean.
fn reserved() -> Value {
    Value::Enum(name!("true"))
}

/// The name `true`, with a location.
fn placed_name() -> Name {
    match SourceSpan::new(FileId::new(7), 20, 24) {
        Some(span) => name!("true").with_location(span),
        None => name!("true"),
    }
}

/// `[ITEM]`, where the item stands at a location.
fn around(alloc: Global, item: Value, location: Option<SourceSpan>) -> Result<Value, AllocError> {
    Ok(Value::List(vec![in alloc; Node::new_at(alloc, item, location)?]?))
}

/// `{a: ITEM}`, where the item stands at a location.
fn object(alloc: Global, item: Value, location: Option<SourceSpan>) -> Result<Value, AllocError> {
    let item = Node::new_at(alloc, item, location)?;
    Ok(Value::Object(vec![in alloc; (name!(a), item)]?))
}

/// The flaw of an enum value `true`.
fn reserved_at(location: Option<SourceSpan>) -> Option<Flaw> {
    Some((IsNotReserved, Some("true"), location))
}

fn placed_values(alloc: Global) -> Cases<Value> {
    let (outer, inner) = (at(10, 30), at(15, 25));
    let list = around(alloc, reserved(), None)?;
    let placed_list = around(alloc, reserved(), inner)?;
    let placed_field = object(alloc, reserved(), inner)?;
    Ok(vec![in alloc;
        (Value::Enum(placed_name()), reserved_at(at(20, 24))),
        (around(alloc, list.clone()?, outer)?, reserved_at(outer)),
        (object(alloc, list, outer)?, reserved_at(outer)),
        (around(alloc, placed_list, outer)?, reserved_at(inner)),
        (around(alloc, placed_field, None)?, reserved_at(inner)),
        (
            around(alloc, Value::Enum(placed_name()), inner)?,
            reserved_at(at(20, 24))
        ),
    ]?)
}

/// ` @d(a: NAME)`, and where the value, the argument and the directive stand.
fn placed_list(
    alloc: Global,
    name: Name,
    value: Option<SourceSpan>,
    argument: Option<SourceSpan>,
    directive: Option<SourceSpan>,
) -> Result<DirectiveList, AllocError> {
    let value = Node::new_at(alloc, Value::Enum(name), value)?;
    let argument = Node::new_at(alloc, Argument::new(name!(a), value), argument)?;
    let parent = Directive {
        arguments: vec![in alloc; argument]?,
        ..Directive::new(alloc, name!(d))
    };
    Ok(DirectiveList(vec![in alloc; Node::new_at(alloc, parent, directive)?]?))
}

fn placed_lists(alloc: Global) -> Cases<DirectiveList> {
    let (outer, middle, inner) = (at(10, 30), at(13, 29), at(15, 25));
    let bare = name!("true");
    Ok(vec![in alloc;
        (
            placed_list(alloc, placed_name(), inner, middle, outer)?,
            reserved_at(at(20, 24))
        ),
        (
            placed_list(alloc, placed_name(), None, None, None)?,
            reserved_at(at(20, 24))
        ),
        (
            placed_list(alloc, bare.clone()?, inner, middle, outer)?,
            reserved_at(inner)
        ),
        (
            placed_list(alloc, bare.clone()?, None, middle, outer)?,
            reserved_at(middle)
        ),
        (
            placed_list(alloc, bare.clone()?, inner, None, outer)?,
            reserved_at(inner)
        ),
        (
            placed_list(alloc, bare.clone()?, None, None, outer)?,
            reserved_at(outer)
        ),
        (
            placed_list(alloc, bare, None, None, None)?,
            reserved_at(None)
        ),
    ]?)
}

/// `a: Int = true @d(a: true)`, where `true` is an enum value, and where the values stand: the first, if there is one,
/// and the second.
fn placed_input(
    alloc: Global,
    first: Option<Option<SourceSpan>>,
    second: Option<SourceSpan>,
) -> Result<InputValueDefinition, AllocError> {
    let mut input = InputValueDefinition::new(alloc, name!("true"), Node::new(alloc, ty!(Int))?);
    if let Some(location) = first {
        input.default_value = Some(Node::new_at(alloc, reserved(), location)?);
    }
    input.directives = placed_list(alloc, name!("true"), second, None, None)?;
    Ok(input)
}

fn placed_inputs(alloc: Global) -> Cases<InputValueDefinition> {
    let (first, second) = (at(10, 14), at(21, 25));
    Ok(vec![in alloc;
        (
            placed_input(alloc, Some(first), second)?,
            reserved_at(first)
        ),
        (placed_input(alloc, Some(None), second)?, reserved_at(None)),
        (placed_input(alloc, None, second)?, reserved_at(second)),
    ]?)
}

/// `directive @true(true: Int = true)`, where `true` is an enum value; where the argument stands, and the value.
fn placed_definition(
    alloc: Global,
    argument: Option<SourceSpan>,
    value: Option<SourceSpan>,
) -> Result<DirectiveDefinition, AllocError> {
    let input = placed_input(alloc, Some(value), None)?;
    Ok(DirectiveDefinition {
        arguments: vec![in alloc; Node::new_at(alloc, input, argument)?]?,
        ..DirectiveDefinition::new(alloc, placed_name())
    })
}

fn placed_definitions(alloc: Global) -> Cases<DirectiveDefinition> {
    let (outer, inner) = (at(10, 30), at(15, 25));
    let bare = DirectiveDefinition::new(alloc, placed_name());
    Ok(vec![in alloc;
        (bare, Some((HasLocation, Some("true"), at(20, 24)))),
        (placed_definition(alloc, outer, inner)?, reserved_at(inner)),
        (placed_definition(alloc, outer, None)?, reserved_at(outer)),
        (placed_definition(alloc, None, None)?, reserved_at(None)),
    ]?)
}

/// The name's, or else that of the innermost node around it that has one.
#[test]
fn locations(rt: HostRuntime) {
    let alloc = rt.alloc();
    check_flaws(placed_values(alloc)).expect(&rt, "placed values");
    check_flaws(placed_lists(alloc)).expect(&rt, "placed lists");
    check_flaws(placed_inputs(alloc)).expect(&rt, "placed inputs");
    check_flaws(placed_definitions(alloc)).expect(&rt, "placed definitions");
}
