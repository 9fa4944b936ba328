//! The words of operation types and of directive locations.
use crate::checks::{check_case, check_equal, check_made};
use graphql_values::directive_location::DirectiveLocation;
use graphql_values::operation_type::OperationType;
use std::alloc::Global;
use std::process::Abort;

/// An operation type, its word, the same in twelve columns, the name of its root type, its place for
/// directives, and whether it is each of the three.
const OPERATION_TYPES: [(
    OperationType,
    &str,
    &str,
    &str,
    DirectiveLocation,
    [bool; 3],
); 3] = [
    (
        OperationType::Query,
        "query",
        "       query",
        "Query",
        DirectiveLocation::Query,
        [true, false, false],
    ),
    (
        OperationType::Mutation,
        "mutation",
        "    mutation",
        "Mutation",
        DirectiveLocation::Mutation,
        [false, true, false],
    ),
    (
        OperationType::Subscription,
        "subscription",
        "subscription",
        "Subscription",
        DirectiveLocation::Subscription,
        [false, false, true],
    ),
];

/// A location, and its word.
const LOCATIONS: [(DirectiveLocation, &str); 19] = [
    (DirectiveLocation::Query, "QUERY"),
    (DirectiveLocation::Mutation, "MUTATION"),
    (DirectiveLocation::Subscription, "SUBSCRIPTION"),
    (DirectiveLocation::Field, "FIELD"),
    (DirectiveLocation::FragmentDefinition, "FRAGMENT_DEFINITION"),
    (DirectiveLocation::FragmentSpread, "FRAGMENT_SPREAD"),
    (DirectiveLocation::InlineFragment, "INLINE_FRAGMENT"),
    (DirectiveLocation::VariableDefinition, "VARIABLE_DEFINITION"),
    (DirectiveLocation::Schema, "SCHEMA"),
    (DirectiveLocation::Scalar, "SCALAR"),
    (DirectiveLocation::Object, "OBJECT"),
    (DirectiveLocation::FieldDefinition, "FIELD_DEFINITION"),
    (DirectiveLocation::ArgumentDefinition, "ARGUMENT_DEFINITION"),
    (DirectiveLocation::Interface, "INTERFACE"),
    (DirectiveLocation::Union, "UNION"),
    (DirectiveLocation::Enum, "ENUM"),
    (DirectiveLocation::EnumValue, "ENUM_VALUE"),
    (DirectiveLocation::InputObject, "INPUT_OBJECT"),
    (
        DirectiveLocation::InputFieldDefinition,
        "INPUT_FIELD_DEFINITION",
    ),
];

/// Some that are shorter than twelve columns, as long or longer.
const PADDED: [(DirectiveLocation, &str); 3] = [
    (DirectiveLocation::Field, "       FIELD"),
    (DirectiveLocation::Subscription, "SUBSCRIPTION"),
    (DirectiveLocation::FragmentSpread, "FRAGMENT_SPREAD"),
];

fn check_operation_word(
    rt: &impl Abort,
    alloc: Global,
    operation_type: OperationType,
    word: &str,
    padded: &str,
) {
    check_equal(rt, operation_type.name(), word);
    check_made(rt, format!(in alloc; "{operation_type}"), word);
    check_made(rt, format!(in alloc; "{operation_type:>12}"), padded);
}

/// The name of the root type, the place for directives, and which of the three it is.
fn check_operation_kind(
    rt: &impl Abort,
    operation_type: OperationType,
    type_name: &str,
    location: DirectiveLocation,
    kinds: [bool; 3],
) {
    let name = operation_type.default_type_name();
    check_equal(rt, name.as_static_str(), Some(type_name));
    let found = [
        operation_type.is_query(),
        operation_type.is_mutation(),
        operation_type.is_subscription(),
    ];
    check_case(rt, type_name, found, kinds);
    check_equal(rt, DirectiveLocation::from(operation_type), location);
}

fn check_operation_types(rt: &impl Abort, alloc: Global) {
    for (operation_type, word, padded, type_name, location, kinds) in OPERATION_TYPES {
        check_operation_word(rt, alloc, operation_type, word, padded);
        check_operation_kind(rt, operation_type, type_name, location, kinds);
    }
}

fn check_locations(rt: &impl Abort, alloc: Global) {
    for (location, word) in LOCATIONS {
        check_equal(rt, location.name(), word);
        check_made(rt, format!(in alloc; "{location}"), word);
    }
}

#[test]
fn of_operation_types_and_locations(rt: HostRuntime) {
    let alloc = rt.alloc();
    check_operation_types(&rt, alloc);
    check_locations(&rt, alloc);
    for (location, wanted) in PADDED {
        check_made(&rt, format!(in alloc; "{location:>12}"), wanted);
    }
}
