//! What selections, fields and operations answer and lend.
ghost use Rattle.std.specs.Prelude.{OnErr, OnOk};
ghost use Rattle.graphql_executable.specs.code.SelectionLoans.{IsSelectionWith};
ghost use Rattle.graphql_executable.specs.code.SelectionQueries.{selection_directives};

use crate::checks::{check_case, check_equal};
use crate::samples::{a, field, inline_fragment, variable};
use graphql_base::name;
use graphql_base::node::Node;
use graphql_base::span::{FileId, SourceSpan};
use graphql_checks::trees::{check_cloned, check_line};
use graphql_executable::field::Field;
use graphql_executable::fragment_spread::FragmentSpread;
use graphql_executable::operation_definition::OperationDefinition;
use graphql_executable::selection::Selection;
use graphql_executable::variable_definition::VariableDefinition;
use graphql_values::argument::Argument;
use graphql_values::directive::Directive;
use graphql_values::directive_list::DirectiveList;
use graphql_values::operation_type::OperationType;
use graphql_values::ty;
use graphql_values::value::Value;
use std::alloc::{AllocError, Global};
use std::collections::HashSet;
use std::process::Abort;

/// The name of the first directive, and how many selections there are.
fn check_contents(
    rt: &impl Abort,
    selection: Selection,
    directive: Option<&str>,
    count: Option<usize>,
) {
    let first = selection.directives().first();
    check_case(
        rt,
        &selection,
        first.map(|node| node.name.as_str()),
        directive,
    );
    let found = selection.selection_set().map(|set| set.len());
    check_case(rt, &selection, &found, &count);
}

/// What a caller knows of directives that it wrote.
fn set_directives(selection: &mut Selection, directives: DirectiveList) -> Result<(), AllocError>
    ensures ok { OnOk result (IsSelectionWith selection.old directives selection.new) }
    ensures err { OnErr result
        (IsSelectionWith selection.old (selection_directives selection.old) selection.new) }
{
    *selection.directives_mut()? = directives;
    Ok(())
}

/// What is written is seen in one of two selections that share a node.
fn check_written(
    rt: &impl Abort,
    alloc: Global,
    made: Result<Selection, AllocError>,
    wanted: &str,
) {
    let mut selection = made.expect(rt, "memory");
    let other = selection.clone().expect(rt, "memory");
    let directives = DirectiveList::of(alloc, Directive::new(alloc, name!(d))).expect(rt, "memory");
    set_directives(&mut selection, directives).expect(rt, "memory");
    check_line(alloc, &selection, wanted, true).expect(rt, wanted);
    assert!(rt; !other.directives().has("d"));
}

/// `...F`
fn spread(alloc: Global) -> Result<Selection, AllocError> {
    Selection::fragment_spread(alloc, FragmentSpread::new(alloc, name!(F)))
}

/// `... on T { id }`
fn inline(alloc: Global) -> Result<Selection, AllocError> {
    Selection::inline_fragment(alloc, inline_fragment(alloc)?)
}

/// `... on T { id }`, as a node of an inline fragment.
fn inline_node(alloc: Global) -> Result<Selection, AllocError> {
    Ok(Selection::InlineFragment(Node::new(alloc, inline_fragment(alloc)?)?))
}

/// Which of the three it is.
fn form(selection: &Selection) -> [bool; 3] {
    [
        selection.as_field().is_some(),
        selection.as_fragment_spread().is_some(),
        selection.as_inline_fragment().is_some(),
    ]
}

/// A selection with nothing in it but what its text tells.
fn check_form(
    rt: &impl Abort,
    alloc: Global,
    made: Result<Selection, AllocError>,
    wanted: &str,
    wanted_form: [bool; 3],
    count: Option<usize>,
) {
    let selection = made.expect(rt, "memory");
    check_line(alloc, &selection, wanted, true).expect(rt, wanted);
    check_cloned(&selection).expect(rt, wanted);
    check_case(rt, wanted, form(&selection), wanted_form);
    check_case(rt, wanted, selection.location(), None);
    check_contents(rt, selection, None, count);
}

/// `...F`, at a location.
fn placed_spread(alloc: Global, location: Option<SourceSpan>) -> Result<Selection, AllocError> {
    let spread = Node::new_at(alloc, FragmentSpread::new(alloc, name!(F)), location)?;
    Ok(Selection::FragmentSpread(spread))
}

fn check_placed(rt: &impl Abort, alloc: Global) {
    let location = SourceSpan::new(FileId::new(5), 10, 13);
    let placed = placed_spread(alloc, location).expect(rt, "memory");
    check_equal(rt, placed.location(), location);
    check_equal(rt, location.is_some(), true);
    check_equal(rt, form(&placed), [false, true, false]);
}

/// Which of the three a selection is, what stands in it, where it stands, and directives that are written.
#[test]
fn of_selections(rt: HostRuntime) {
    let alloc = rt.alloc();
    let (is_field, is_spread, is_inline) = (
        [true, false, false],
        [false, true, false],
        [false, false, true],
    );
    let inline_text = "... on T { id }";
    check_form(&rt, alloc, a(alloc), "a", is_field, Some(0));
    check_form(&rt, alloc, spread(alloc), "...F", is_spread, None);
    check_form(&rt, alloc, inline(alloc), inline_text, is_inline, Some(1));
    check_form(
        &rt,
        alloc,
        inline_node(alloc),
        inline_text,
        is_inline,
        Some(1),
    );
    let full = Selection::field(alloc, field(alloc).expect(&rt, "memory"));
    check_contents(&rt, full.expect(&rt, "memory"), Some("include"), Some(2));
    check_placed(&rt, alloc);
    check_written(&rt, alloc, a(alloc), "a @d");
    check_written(&rt, alloc, spread(alloc), "...F @d");
    check_written(&rt, alloc, inline(alloc), "... on T @d { id }");
}

/// `$v: Int = 1 @d, $w: W, $v: W`
fn variables(alloc: Global) -> Result<Vec<Node<VariableDefinition>>, AllocError> {
    let mut variables = vec![in alloc; Node::new(alloc, variable(alloc)?)?]?;
    for name in [name!(w), name!(v)] {
        let ty = Node::new(alloc, ty!(W))?;
        variables.push(Node::new(alloc, VariableDefinition::new(alloc, name, ty))?)?;
    }
    Ok(variables)
}

/// `f(x: 1, y: 2, x: 3)`
fn field_with_arguments(alloc: Global) -> Result<Field, AllocError> {
    let mut field = Field::new(alloc, name!(f));
    for (name, number) in [(name!(x), 1), (name!(y), 2), (name!(x), 3)] {
        let value = Node::new(alloc, Value::from_i32(alloc, number)?)?;
        field
            .arguments
            .push(Argument::new_node(alloc, name, value)?)?;
    }
    Ok(field)
}

fn check_variable(rt: &impl Abort, query: &OperationDefinition, name: &str, ty: Option<&str>) {
    let found = query.variable_by_name(name);
    let found = found.map(|node| node.ty.inner_named_type().as_str());
    check_case(rt, name, found, ty);
}

fn check_argument(rt: &impl Abort, field: &Field, name: &str, number: Option<i32>) {
    let found = field.specified_argument_by_name(name);
    check_case(rt, name, found.and_then(|value| value.to_i32()), number);
}

fn check_response_names(rt: &impl Abort, alloc: Global) {
    let mut named = field(alloc).expect(rt, "memory");
    check_equal(rt, named.response_name().as_str(), "r");
    named.alias = None;
    check_equal(rt, named.response_name().as_str(), "s");
}

fn check_keys(rt: &impl Abort, alloc: Global) {
    let span = SourceSpan::new(FileId::new(5), 10, 11).expect(rt, "a span");
    check_equal(rt, span.len(), 1);
    let mut seen = HashSet::new(alloc);
    let placed = Field::new(alloc, name!(a).with_location(span));
    seen.insert(placed).expect(rt, "memory");
    check_equal(rt, seen.contains(&Field::new(alloc, name!(a))), true);
    check_equal(rt, seen.contains(&Field::new(alloc, name!(b))), false);
}

/// Variables and arguments by name, the name of what is answered to a field, and what hash sets hold of fields that differ in
/// locations.
#[test]
fn of_operations_and_fields(rt: HostRuntime) {
    let alloc = rt.alloc();
    let mut query = OperationDefinition::new(alloc, OperationType::Query);
    check_variable(&rt, &query, "v", None);
    query.variables = variables(alloc).expect(&rt, "memory");
    for (name, ty) in [
        ("v", Some("Int")),
        ("w", Some("W")),
        ("V", None),
        ("", None),
    ] {
        check_variable(&rt, &query, name, ty);
    }
    let field = field_with_arguments(alloc).expect(&rt, "memory");
    for (name, number) in [("x", Some(1)), ("y", Some(2)), ("X", None), ("", None)] {
        check_argument(&rt, &field, name, number);
    }
    check_argument(&rt, &Field::new(alloc, name!(f)), "x", None);
    check_response_names(&rt, alloc);
    check_keys(&rt, alloc);
}
