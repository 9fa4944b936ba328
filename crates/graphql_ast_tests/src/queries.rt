//! What definitions answer.
use crate::checks::{check_case, check_equal};
use crate::samples::{anonymous_query, described_query, each_variant, query_at};
use graphql_ast::ast::Definition;
use graphql_ast::serialize::Syntax;
use graphql_ast::span::{FileId, SourceSpan};
use std::alloc::Global;
use std::process::Abort;

/// Which of the seventeen accessors answer a node, in the order of the variants.
fn answers(definition: &Definition) -> [bool; 17] {
    [
        definition.as_operation_definition().is_some(),
        definition.as_fragment_definition().is_some(),
        definition.as_directive_definition().is_some(),
        definition.as_schema_definition().is_some(),
        definition.as_scalar_type_definition().is_some(),
        definition.as_object_type_definition().is_some(),
        definition.as_interface_type_definition().is_some(),
        definition.as_union_type_definition().is_some(),
        definition.as_enum_type_definition().is_some(),
        definition.as_input_object_type_definition().is_some(),
        definition.as_schema_extension().is_some(),
        definition.as_scalar_type_extension().is_some(),
        definition.as_object_type_extension().is_some(),
        definition.as_interface_type_extension().is_some(),
        definition.as_union_type_extension().is_some(),
        definition.as_enum_type_extension().is_some(),
        definition.as_input_object_type_extension().is_some(),
    ]
}

/// The words that a definition begins with, its name, how many directives and how many selections it has; and whether it is
/// executable, is an extension, defines a type, and is described.
type Told = (
    &'static str,
    Option<&'static str>,
    Option<usize>,
    Option<usize>,
    [bool; 4],
);

/// Whether a definition is executable, is an extension, defines a type, and is described.
fn check_flags(rt: &impl Abort, definition: &Definition, wanted: [bool; 4]) {
    let found = [
        definition.is_executable_definition(),
        definition.is_extension_definition(),
        definition.is_type_definition(),
        definition.description().is_some(),
    ];
    check_case(rt, definition, found, wanted);
}

fn check_told(rt: &impl Abort, definition: &Definition, wanted: Told) {
    let (words, name, directives, selections, flags) = wanted;
    check_case(rt, &definition, definition.kind_name(), words);
    let found = definition.name().map(|name| name.as_str());
    check_case(rt, &definition, &found, &name);
    let found = definition.directives().map(|directives| directives.len());
    check_case(rt, &definition, &found, &directives);
    let found = definition.selection_set().map(|set| set.len());
    check_case(rt, &definition, &found, &selections);
    check_flags(rt, definition, flags);
}

const EXECUTABLE: [bool; 4] = [true, false, false, false];

const EXTENSION: [bool; 4] = [false, true, false, false];

const TYPE: [bool; 4] = [false, false, true, false];

const NEITHER: [bool; 4] = [false; 4];

/// Of each variant, in order.
const OF_EACH_VARIANT: [Told; 17] = [
    ("query", Some("N"), Some(1), Some(1), EXECUTABLE),
    ("fragment", Some("N"), Some(1), Some(1), EXECUTABLE),
    ("directive", Some("N"), None, None, NEITHER),
    ("schema", None, Some(1), None, NEITHER),
    ("scalar", Some("N"), Some(1), None, TYPE),
    ("type", Some("N"), Some(1), None, TYPE),
    ("interface", Some("N"), Some(1), None, TYPE),
    ("union", Some("N"), Some(1), None, TYPE),
    ("enum", Some("N"), Some(1), None, TYPE),
    ("input", Some("N"), Some(1), None, TYPE),
    ("extend schema", None, Some(1), None, EXTENSION),
    ("extend scalar", Some("N"), Some(1), None, EXTENSION),
    ("extend type", Some("N"), Some(1), None, EXTENSION),
    ("extend interface", Some("N"), Some(1), None, EXTENSION),
    ("extend union", Some("N"), Some(1), None, EXTENSION),
    ("extend enum", Some("N"), Some(1), None, EXTENSION),
    ("extend input", Some("N"), Some(1), None, EXTENSION),
];

/// Of the accessors it is that of its variant which answers a node.
fn check_accessors(rt: &impl Abort, definition: &Definition, variant: usize) {
    for (accessor, answer) in answers(definition).iter().enumerate() {
        assert_eq!(rt; *answer, accessor == variant, "{accessor} of {variant}");
    }
}

/// A definition that is well formed, without a location, and as its clone.
fn check_plain(rt: &impl Abort, definition: &Definition) {
    check_case(rt, definition, definition.location(), None);
    check_case(rt, definition, definition.is_well_formed(), true);
    let copy = definition.clone().expect(rt, "memory");
    check_case(rt, definition, copy == *definition, true);
}

fn check_variant(rt: &impl Abort, definition: &Definition, wanted: Told, variant: usize) {
    check_told(rt, definition, wanted);
    check_accessors(rt, definition, variant);
    check_plain(rt, definition);
}

fn check_query(
    rt: &impl Abort,
    definition: &Definition,
    is_described: bool,
    location: Option<SourceSpan>,
) {
    let flags = [true, false, false, is_described];
    check_told(rt, definition, ("query", None, Some(0), Some(1), flags));
    check_case(rt, definition, definition.location(), location);
}

fn check_queries(rt: &impl Abort, alloc: Global) {
    let span = SourceSpan::new(FileId::new(5), 10, 15).expect(rt, "a span");
    let elsewhere = query_at(alloc, span).expect(rt, "memory");
    let anonymous = anonymous_query(alloc).expect(rt, "memory");
    check_equal(rt, elsewhere == anonymous, true);
    check_query(rt, &anonymous, false, None);
    check_query(rt, &elsewhere, false, Some(span));
    let described = described_query(alloc).expect(rt, "memory");
    check_query(rt, &described, true, None);
}

/// Each variant. And queries with a description, without a name, and at a location, which isn't compared.
#[test]
fn of_each_variant(rt: HostRuntime) {
    let alloc = rt.alloc();
    let all = each_variant(alloc).expect(&rt, "memory");
    check_equal(&rt, all.len(), 17);
    for (variant, (definition, wanted)) in all.iter().zip(&OF_EACH_VARIANT).enumerate() {
        check_variant(&rt, definition, *wanted, variant);
    }
    check_queries(&rt, alloc);
}
