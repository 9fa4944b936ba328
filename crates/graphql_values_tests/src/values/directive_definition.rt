//! Arguments of worked definitions.
ghost use Rattle.std.specs.Prelude.{◌≡◌};
ghost use Rattle.std.specs.Bool.{OnFalse, OnTrue};
ghost use Rattle.graphql_values.specs.code.Loans.{first_changed};
ghost use Rattle.graphql_values.specs.code.Queries.{is_input_value_definition_named};

use crate::checks::{check_case, check_equal};
use graphql_base::name;
use graphql_base::name::Name;
use graphql_base::node::{Node, NodeStr};
use graphql_values::directive_definition::DirectiveDefinition;
use graphql_values::directive_location::DirectiveLocation;
use graphql_values::input_value_definition::InputValueDefinition;
use graphql_values::types::Type;
use std::alloc::{AllocError, Global};
use std::process::Abort;

fn argument(alloc: Global, name: Name, ty: Name) -> Result<Node<InputValueDefinition>, AllocError> {
    let ty = Node::new(alloc, Type::Named(ty))?;
    let mut argument = InputValueDefinition::new(alloc, name, ty);
    argument.description = Some(NodeStr::new_str(alloc, "é")?);
    Node::new(alloc, argument)
}

fn arguments(alloc: Global) -> Result<Vec<Node<InputValueDefinition>>, AllocError> {
    let arguments = vec![in alloc;
        argument(alloc, name!(a), name!(A))?,
        argument(alloc, name!(b), name!(B))?,
        argument(alloc, name!(a), name!(C))?,
    ]?;
    Ok(arguments)
}

/// `directive @d(a: A, b: B, a: C) on FIELD`, with the same description each
pub(super) fn definition(alloc: Global) -> Result<DirectiveDefinition, AllocError> {
    let mut definition = DirectiveDefinition::new(alloc, name!(d));
    definition.arguments = arguments(alloc)?;
    definition.locations.push(DirectiveLocation::Field)?;
    Ok(definition)
}

fn type_of(node: Option<&Node<InputValueDefinition>>) -> Option<&str> {
    Some(node?.ty.inner_named_type().as_str())
}

/// What a caller knows of an argument that it wrote.
fn set_argument(
    definition: &mut DirectiveDefinition,
    name: &str,
    node: Node<InputValueDefinition>,
) -> bool
    ensures written { OnTrue result (definition.new.arguments.items
        ≡ first_changed (is_input_value_definition_named name.now)
        (λ _. node) definition.old.arguments.items) }
    ensures none { OnFalse result (definition.new ≡ definition.old) }
    ensures name { definition.new.name ≡ definition.old.name }
{
    match definition.argument_by_name_mut(name) {
        Some(argument) => {
            *argument = node;
            true
        }
        None => false,
    }
}

/// The type of the first argument of a name, before and after one is written.
fn check_argument(
    rt: &impl Abort,
    other: &DirectiveDefinition,
    changed: &DirectiveDefinition,
    name: &str,
    types: (Option<&str>, Option<&str>),
) {
    let before = type_of(other.argument_by_name(name));
    let after = type_of(changed.argument_by_name(name));
    check_case(rt, name, (before, after), types);
}

fn check_arguments(rt: &impl Abort, other: &DirectiveDefinition, changed: &DirectiveDefinition) {
    for (name, types) in [
        ("a", (Some("A"), Some("C"))),
        ("b", (Some("B"), Some("B"))),
        ("c", (None, Some("A"))),
        ("A", (None, None)),
    ] {
        check_argument(rt, other, changed, name, types);
    }
}

/// The first of a name is answered, and written.
#[test]
fn arguments_by_name(rt: HostRuntime) {
    let alloc = rt.alloc();
    let mut changed = definition(alloc).expect(&rt, "memory");
    let other = changed.clone().expect(&rt, "memory");
    let written = argument(alloc, name!(c), name!(A)).expect(&rt, "memory");
    check_equal(&rt, set_argument(&mut changed, "a", written), true);
    check_arguments(&rt, &other, &changed);
    check_equal(&rt, changed.argument_by_name_mut("z").is_none(), true);
    let empty = DirectiveDefinition::new(alloc, name!(d));
    check_equal(&rt, empty.argument_by_name("a").is_none(), true);
}
