//! Whole prints of the seven kinds, as each is made anew too, where memory is ample. What breaks a side condition is printed all
//! the same. How trees are laid out is told by the cases of another program.
use crate::checks::{Trees, check_trees};
use crate::samples::{a, field, fragment, inline_fragment, operation, query, query_of_a, variable};
use graphql_base::name;
use graphql_base::node::{Node, NodeStr};
use graphql_checks::trees::check_print;
use graphql_executable::field::Field;
use graphql_executable::fragment_definition::FragmentDefinition;
use graphql_executable::fragment_spread::FragmentSpread;
use graphql_executable::inline_fragment::InlineFragment;
use graphql_executable::operation_definition::OperationDefinition;
use graphql_executable::selection::Selection;
use graphql_executable::variable_definition::VariableDefinition;
use graphql_values::operation_type::OperationType;
use graphql_values::ty;
use graphql_values::value::Value;
use std::alloc::Global;

const OPERATION: &str =
    "query N($v: Int = 1 @d) { r: s(a: $v) @include(if: true) { ...F ... on T { id } } }";

const FIELD: &str = "r: s(a: $v) @include(if: true) { ...F ... on T { id } }";

fn fields(alloc: Global) -> Trees<Field> {
    Ok(vec![in alloc;
        (field(alloc)?, FIELD, true),
        (Field::new(alloc, name!(a)), "a", true),
    ]?)
}

fn spreads(alloc: Global) -> Trees<FragmentSpread> {
    Ok(vec![in alloc;
        (FragmentSpread::new(alloc, name!(F)), "...F", true),
        (FragmentSpread::new(alloc, name!(on)), "...on", false),
    ]?)
}

fn inline_fragments(alloc: Global) -> Trees<InlineFragment> {
    Ok(vec![in alloc;
        (inline_fragment(alloc)?, "... on T { id }", true),
        (InlineFragment::new(alloc), "... {}", false),
    ]?)
}

fn selections(alloc: Global) -> Trees<Selection> {
    Ok(vec![in alloc; (Selection::field(alloc, field(alloc)?)?, FIELD, true)]?)
}

#[test]
fn of_selections(rt: HostRuntime) {
    let alloc = rt.alloc();
    check_trees(&rt, alloc, fields(alloc));
    check_trees(&rt, alloc, spreads(alloc));
    check_trees(&rt, alloc, inline_fragments(alloc));
    check_trees(&rt, alloc, selections(alloc));
    let inline = inline_fragment(alloc).expect(&rt, "memory");
    let print = inline.serialize().initial_indent_level(1);
    check_print(alloc, print, "  ... on T {\n    id\n  }").expect(&rt, "a selection");
}

/// The last selects `a` twice.
fn operations(alloc: Global) -> Trees<OperationDefinition> {
    let mutation = OperationDefinition::new(alloc, OperationType::Mutation);
    let twice = vec![in alloc; a(alloc)?, a(alloc)?]?;
    Ok(vec![in alloc;
        (operation(alloc)?, OPERATION, true),
        (query_of_a(alloc)?, "{ a }", true),
        (query(alloc, twice), "{ a a }", true),
        (query(alloc, Vec::new(alloc)), "{}", false),
        (mutation, "mutation {}", false),
    ]?)
}

fn fragments(alloc: Global) -> Trees<FragmentDefinition> {
    let mut on_on = fragment(alloc)?;
    on_on.description = None;
    on_on.type_condition = name!(on);
    let mut named_on = on_on.clone()?;
    named_on.name = name!(on);
    let new = FragmentDefinition::new(alloc, name!(F), name!(T));
    Ok(vec![in alloc;
        (fragment(alloc)?, "\"D\" fragment F on T { a }", true),
        (on_on, "fragment F on on { a }", true),
        (named_on, "fragment on on on { a }", false),
        (new, "fragment F on T {}", false),
    ]?)
}

/// A default value may not be a variable.
fn variables(alloc: Global) -> Trees<VariableDefinition> {
    let mut of_a_variable = variable(alloc)?;
    let value = Node::new(alloc, Value::Variable(name!(x)))?;
    of_a_variable.default_value = Some(value);
    let new = VariableDefinition::new(alloc, name!(v), Node::new(alloc, ty!(Int))?);
    Ok(vec![in alloc;
        (variable(alloc)?, "$v: Int = 1 @d", true),
        (of_a_variable, "$v: Int = $x @d", false),
        (new, "$v: Int", true),
    ]?)
}

/// In the default layout with descriptions too.
#[test]
fn of_definitions(rt: HostRuntime) {
    let alloc = rt.alloc();
    check_trees(&rt, alloc, operations(alloc));
    check_trees(&rt, alloc, fragments(alloc));
    check_trees(&rt, alloc, variables(alloc));
    let mut query = query_of_a(alloc).expect(&rt, "memory");
    let print = query.serialize().initial_indent_level(1);
    check_print(alloc, print, "  query {\n    a\n  }").expect(&rt, "a query");
    query.description = Some(NodeStr::new_str(alloc, "D").expect(&rt, "memory"));
    let wanted = "\"\"\"D\"\"\"\nquery {\n  a\n}";
    check_print(alloc, query.serialize(), wanted).expect(&rt, wanted);
    let mut variable = variable(alloc).expect(&rt, "memory");
    variable.description = Some(NodeStr::new_str(alloc, "V").expect(&rt, "memory"));
    let wanted = "\"\"\"V\"\"\"\n$v: Int = 1 @d";
    check_print(alloc, variable.serialize(), wanted).expect(&rt, wanted);
}
