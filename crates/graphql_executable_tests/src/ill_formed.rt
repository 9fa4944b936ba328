//! Why operations, fragments, selections and variable definitions aren't well formed, and where.
use crate::samples::{a, field, fragment, operation, query, query_of_a, variable};
use graphql_base::name;
use graphql_base::name::Name;
use graphql_base::node::Node;
use graphql_base::span::{FileId, SourceSpan};
use graphql_checks::flaws::{Cases, Flaw, at, check_flaws};
use graphql_executable::field::Field;
use graphql_executable::fragment_spread::FragmentSpread;
use graphql_executable::inline_fragment::InlineFragment;
use graphql_executable::operation_definition::OperationDefinition;
use graphql_executable::selection::Selection;
use graphql_executable::variable_definition::VariableDefinition;
use graphql_text::ill_formed::SideCondition::{HasSelection, IsConstant, IsNotOn, IsNotReserved};
use graphql_values::argument::Argument;
use graphql_values::directive::Directive;
use graphql_values::directive_list::DirectiveList;
use graphql_values::ty;
use graphql_values::value::Value;
use std::alloc::{AllocError, Global};

/// The enum value `true`, which is no boolean.
fn reserved() -> Value {
    Value::Enum(name!("true"))
}

fn variable_v() -> Value {
    Value::Variable(name!(v))
}

/// `(a: 1, a: [VALUE])`
fn arguments(alloc: Global, value: Value) -> Result<Vec<Node<Argument>>, AllocError> {
    let one = Node::new(alloc, Value::from_i32(alloc, 1)?)?;
    let list = Value::list(alloc, vec![in alloc; value]?)?;
    Ok(vec![in alloc;
        Argument::new_node(alloc, name!(a), one)?,
        Argument::new_node(alloc, name!(a), Node::new(alloc, list)?)?,
    ]?)
}

/// `@d(a: 1, a: [VALUE])`
fn directives(alloc: Global, value: Value) -> Result<DirectiveList, AllocError> {
    let mut directive = Directive::new(alloc, name!(d));
    directive.arguments = arguments(alloc, value)?;
    DirectiveList::of(alloc, directive)
}

// SELECTIONS

/// `...NAME @d(a: 1, a: [VALUE])`
fn spread(alloc: Global, name: Name, value: Value) -> Result<FragmentSpread, AllocError> {
    Ok(FragmentSpread {
        directives: directives(alloc, value)?,
        ..FragmentSpread::new(alloc, name)
    })
}

/// `... on T @d(a: 1, a: [VALUE]) SET`, with a type condition or without one.
fn inline(
    alloc: Global,
    type_condition: Option<Name>,
    value: Value,
    selection_set: Vec<Selection>,
) -> Result<InlineFragment, AllocError> {
    Ok(InlineFragment {
        type_condition,
        directives: directives(alloc, value)?,
        selection_set,
    })
}

// DEFINITIONS

/// `$true: Int = VALUE @d(a: 1, a: [$w])`, with the directive if it is asked for.
fn variable_of(
    alloc: Global,
    value: Value,
    is_directed: bool,
) -> Result<VariableDefinition, AllocError> {
    let ty = Node::new(alloc, ty!(Int))?;
    let mut variable = VariableDefinition::new(alloc, name!("true"), ty);
    variable.default_value = Some(Node::new(alloc, value)?);
    if is_directed {
        variable.directives = directives(alloc, Value::Variable(name!(w)))?;
    }
    Ok(variable)
}

// LOCATIONS

/// The name `on`, with a location.
fn placed_on() -> Name {
    match SourceSpan::new(FileId::new(7), 20, 22) {
        Some(span) => name!(on).with_location(span),
        None => name!(on),
    }
}

/// `...NAME`, at a location.
fn spread_at(
    alloc: Global,
    name: Name,
    location: Option<SourceSpan>,
) -> Result<Selection, AllocError> {
    let spread = Node::new_at(alloc, FragmentSpread::new(alloc, name), location)?;
    Ok(Selection::FragmentSpread(spread))
}

/// `... on NAME SET`, at a location; with a type condition or without one.
fn inline_at(
    alloc: Global,
    type_condition: Option<Name>,
    selection_set: Vec<Selection>,
    location: Option<SourceSpan>,
) -> Result<Selection, AllocError> {
    let fragment = InlineFragment {
        type_condition,
        selection_set,
        ..InlineFragment::new(alloc)
    };
    Ok(Selection::InlineFragment(Node::new_at(alloc, fragment, location)?))
}

/// `a(a: 1, a: [true])`, at a location, where `true` is an enum value.
fn field_at(alloc: Global, location: Option<SourceSpan>) -> Result<Selection, AllocError> {
    let mut field = Field::new(alloc, name!(a));
    field.arguments = arguments(alloc, reserved())?;
    Ok(Selection::Field(Node::new_at(alloc, field, location)?))
}

/// `... @d(a: 1, a: [true]) { a }`, at a location, where `true` is an enum value.
fn directed_inline_at(
    alloc: Global,
    location: Option<SourceSpan>,
) -> Result<Selection, AllocError> {
    let fragment = inline(alloc, None, reserved(), vec![in alloc; a(alloc)?]?)?;
    Ok(Selection::InlineFragment(Node::new_at(alloc, fragment, location)?))
}

/// `{ a { SELECTION } }`, where the field stands at a location.
fn within(
    alloc: Global,
    selection: Selection,
    location: Option<SourceSpan>,
) -> Result<OperationDefinition, AllocError> {
    let mut field = Field::new(alloc, name!(a));
    field.selection_set = vec![in alloc; selection]?;
    let outer = Selection::Field(Node::new_at(alloc, field, location)?);
    Ok(query(alloc, vec![in alloc; outer]?))
}

fn on_at(location: Option<SourceSpan>) -> Option<Flaw> {
    Some((IsNotOn, Some("on"), location))
}

fn placed_spreads(alloc: Global) -> Cases<OperationDefinition> {
    let (outer, inner, name) = (at(10, 30), at(15, 25), at(20, 22));
    Ok(vec![in alloc;
        (
            within(alloc, spread_at(alloc, placed_on(), inner)?, outer)?,
            on_at(name)
        ),
        (
            within(alloc, spread_at(alloc, name!(on), inner)?, outer)?,
            on_at(inner)
        ),
        (
            within(alloc, spread_at(alloc, name!(on), None)?, outer)?,
            on_at(outer)
        ),
        (
            within(alloc, spread_at(alloc, name!(on), None)?, None)?,
            on_at(None)
        ),
    ]?)
}

/// A spread in an inline fragment that stands at a location or doesn't.
fn deep_spreads(alloc: Global) -> Cases<OperationDefinition> {
    let (outer, inner) = (at(10, 30), at(15, 25));
    let deep = vec![in alloc; spread_at(alloc, name!(on), None)?]?;
    let placed = inline_at(alloc, Some(placed_on()), deep.clone()?, inner)?;
    let bare = inline_at(alloc, Some(placed_on()), deep, None)?;
    Ok(vec![in alloc;
        (within(alloc, placed, outer)?, on_at(inner)),
        (within(alloc, bare, outer)?, on_at(outer)),
    ]?)
}

/// The flaw of a selection set.
fn empty_at(name: Option<&'static str>, location: Option<SourceSpan>) -> Option<Flaw> {
    Some((HasSelection, name, location))
}

fn named_sets(alloc: Global) -> Cases<OperationDefinition> {
    let (outer, inner, name) = (at(10, 30), at(15, 25), at(20, 22));
    let placed = inline_at(alloc, Some(placed_on()), Vec::new(alloc), inner)?;
    let bare = inline_at(alloc, Some(name!(on)), Vec::new(alloc), inner)?;
    Ok(vec![in alloc;
        (within(alloc, placed, outer)?, empty_at(Some("on"), name)),
        (within(alloc, bare, outer)?, empty_at(Some("on"), inner)),
    ]?)
}

fn nameless_sets(alloc: Global) -> Cases<OperationDefinition> {
    let (outer, inner) = (at(10, 30), at(15, 25));
    let placed = inline_at(alloc, None, Vec::new(alloc), inner)?;
    let bare = inline_at(alloc, None, Vec::new(alloc), None)?;
    Ok(vec![in alloc;
        (within(alloc, placed, outer)?, empty_at(None, inner)),
        (within(alloc, bare, outer)?, empty_at(None, outer)),
    ]?)
}

/// `query ($true: Int = $v) @d(a: 1, a: [true]) { a }`, where the second `true` is an enum value: where the variable
/// stands, if there is one, and the directive.
fn placed_head(
    alloc: Global,
    variable: Option<Option<SourceSpan>>,
    directive: Option<SourceSpan>,
) -> Result<OperationDefinition, AllocError> {
    let mut operation = query_of_a(alloc)?;
    if let Some(location) = variable {
        let variable = variable_of(alloc, variable_v(), false)?;
        operation.variables = vec![in alloc; Node::new_at(alloc, variable, location)?]?;
    }
    let mut flawed = Directive::new(alloc, name!(d));
    flawed.arguments = arguments(alloc, reserved())?;
    operation.directives = DirectiveList(vec![in alloc; Node::new_at(alloc, flawed, directive)?]?);
    Ok(operation)
}

fn placed_heads(alloc: Global) -> Cases<OperationDefinition> {
    let (outer, inner) = (at(10, 30), at(15, 25));
    Ok(vec![in alloc;
        (
            placed_head(alloc, Some(outer), inner)?,
            Some((IsConstant, Some("v"), outer))
        ),
        (
            placed_head(alloc, Some(None), inner)?,
            Some((IsConstant, Some("v"), None))
        ),
        (
            placed_head(alloc, None, inner)?,
            Some((IsNotReserved, Some("true"), inner))
        ),
    ]?)
}

/// A reserved value in a field, and in the directives of an inline fragment, with a location and without one.
fn placed_parts(alloc: Global) -> Cases<OperationDefinition> {
    let (outer, inner) = (at(10, 30), at(15, 25));
    let told_inner = Some((IsNotReserved, Some("true"), inner));
    let told_outer = Some((IsNotReserved, Some("true"), outer));
    let fields = (field_at(alloc, inner)?, field_at(alloc, None)?);
    let inlines = (
        directed_inline_at(alloc, inner)?,
        directed_inline_at(alloc, None)?,
    );
    Ok(vec![in alloc;
        (within(alloc, fields.0, outer)?, told_inner),
        (within(alloc, fields.1, outer)?, told_outer),
        (within(alloc, inlines.0, outer)?, told_inner),
        (within(alloc, inlines.1, outer)?, told_outer),
    ]?)
}

/// The name's, or else that of the innermost node around it that has one.
#[test]
fn locations(rt: HostRuntime) {
    let alloc = rt.alloc();
    check_flaws(placed_spreads(alloc)).expect(&rt, "placed spreads");
    check_flaws(deep_spreads(alloc)).expect(&rt, "deep spreads");
    check_flaws(named_sets(alloc)).expect(&rt, "named sets");
    check_flaws(nameless_sets(alloc)).expect(&rt, "nameless sets");
    check_flaws(placed_heads(alloc)).expect(&rt, "placed heads");
    check_flaws(placed_parts(alloc)).expect(&rt, "placed parts");
}
