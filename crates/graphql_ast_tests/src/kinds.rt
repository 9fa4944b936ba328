//! The trees of all kinds in groups, each with its text on one line.
use graphql_ast::serialize::Syntax;
use std::alloc::{AllocError, Global};
use std::fmt::Display;
use std::hash::Hash;
use worked_trees::definitions::{VARIANTS, definition};
use worked_trees::executable::{
    field, field_selection, fragment_definition, fragment_spread, inline_fragment,
    inline_selection, operation_definition, spread_selection, variable_definition,
};
use worked_trees::type_extensions::{
    enum_type_extension, input_object_type_extension, interface_type_extension,
    object_type_extension, scalar_type_extension, schema_extension, union_type_extension,
};
use worked_trees::types::{
    enum_type_definition, enum_value_definition, field_definition, input_object_type_definition,
    interface_type_definition, object_type_definition, scalar_type_definition, schema_definition,
    union_type_definition,
};
use worked_trees::values::{
    directive, directive_definition, directive_list, input_value_definition, value,
};

/// What is done with a tree of each kind.
pub(crate) trait EachKind {
    /// Takes a tree that was made, or for which memory was refused, and its text on one line.
    fn take<T: Clone + PartialEq + Hash + Display + Syntax + Drop>(
        &mut self,
        made: Result<T, AllocError>,
        line: &str,
    );
}

const VALUE: &str =
    "[null, A, $v, \"s\", 1.50000000000000000000000000000002, -7, true, [1], {a: 1}]";

const INPUT: &str = "\"D\" i: [T!] = [1] @d(x: 1)";

const VARIABLE: &str = "\"D\" $v: [T!] = [1] @d(x: 1)";

const SPREAD: &str = "...F @d(x: 1)";

const INLINE: &str = "... on T @d(x: 1) { ...F @d(x: 1) }";

const FIELD: &str = "b: a(x: 1) @d(x: 1) { ... on T @d(x: 1) { ...F @d(x: 1) } }";

const FIELD_DEFINITION: &str = "\"D\" f(\"D\" i: [T!] = [1] @d(x: 1)): [T!] @d(x: 1)";

/// The text on one line of the definition of each variant.
pub(crate) const DEFINITIONS: [&str; VARIANTS] = [
    "\"D\" query N(\"D\" $v: [T!] = [1] @d(x: 1)) @d(x: 1) \
        { b: a(x: 1) @d(x: 1) { ... on T @d(x: 1) { ...F @d(x: 1) } } }",
    "\"D\" fragment F on T @d(x: 1) { ...F @d(x: 1) }",
    "\"D\" directive @d(\"D\" i: [T!] = [1] @d(x: 1)) repeatable on FIELD | QUERY",
    "\"D\" schema @d(x: 1) { query: Q mutation: M }",
    "\"D\" scalar N @d(x: 1)",
    "\"D\" type N implements A & B @d(x: 1) \
        { \"D\" f(\"D\" i: [T!] = [1] @d(x: 1)): [T!] @d(x: 1) }",
    "\"D\" interface N implements A & B @d(x: 1) \
        { \"D\" f(\"D\" i: [T!] = [1] @d(x: 1)): [T!] @d(x: 1) }",
    "\"D\" union N @d(x: 1) = A | B",
    "\"D\" enum N @d(x: 1) { \"D\" V @d(x: 1) }",
    "\"D\" input N @d(x: 1) { \"D\" i: [T!] = [1] @d(x: 1) }",
    "extend schema @d(x: 1) { subscription: S }",
    "extend scalar N @d(x: 1)",
    "extend type N implements A & B @d(x: 1) \
        { \"D\" f(\"D\" i: [T!] = [1] @d(x: 1)): [T!] @d(x: 1) }",
    "extend interface N implements A & B @d(x: 1) \
        { \"D\" f(\"D\" i: [T!] = [1] @d(x: 1)): [T!] @d(x: 1) }",
    "extend union N @d(x: 1) = A | B",
    "extend enum N @d(x: 1) { \"D\" V @d(x: 1) }",
    "extend input N @d(x: 1) { \"D\" i: [T!] = [1] @d(x: 1) }",
];

pub(crate) fn values<E: EachKind>(alloc: Global, each: &mut E) {
    each.take(value(alloc), VALUE);
    each.take(directive(alloc), "@d(x: 1)");
    each.take(directive_list(alloc), " @d(x: 1)");
    each.take(input_value_definition(alloc), INPUT);
    each.take(directive_definition(alloc), DEFINITIONS[2]);
}

fn variables_and_fragments<E: EachKind>(alloc: Global, each: &mut E) {
    each.take(variable_definition(alloc), VARIABLE);
    each.take(fragment_spread(alloc), SPREAD);
    each.take(spread_selection(alloc), SPREAD);
    each.take(inline_fragment(alloc), INLINE);
    each.take(inline_selection(alloc), INLINE);
}

pub(crate) fn executable<E: EachKind>(alloc: Global, each: &mut E) {
    variables_and_fragments(alloc, each);
    each.take(field(alloc), FIELD);
    each.take(field_selection(alloc), FIELD);
    each.take(operation_definition(alloc), DEFINITIONS[0]);
    each.take(fragment_definition(alloc), DEFINITIONS[1]);
}

fn parts_and_first_types<E: EachKind>(alloc: Global, each: &mut E) {
    each.take(field_definition(alloc), FIELD_DEFINITION);
    each.take(enum_value_definition(alloc), "\"D\" V @d(x: 1)");
    each.take(schema_definition(alloc), DEFINITIONS[3]);
    each.take(scalar_type_definition(alloc), DEFINITIONS[4]);
    each.take(object_type_definition(alloc), DEFINITIONS[5]);
    each.take(interface_type_definition(alloc), DEFINITIONS[6]);
}

pub(crate) fn types<E: EachKind>(alloc: Global, each: &mut E) {
    parts_and_first_types(alloc, each);
    each.take(union_type_definition(alloc), DEFINITIONS[7]);
    each.take(enum_type_definition(alloc), DEFINITIONS[8]);
    each.take(input_object_type_definition(alloc), DEFINITIONS[9]);
}

fn first_extensions<E: EachKind>(alloc: Global, each: &mut E) {
    each.take(schema_extension(alloc), DEFINITIONS[10]);
    each.take(scalar_type_extension(alloc), DEFINITIONS[11]);
    each.take(object_type_extension(alloc), DEFINITIONS[12]);
    each.take(interface_type_extension(alloc), DEFINITIONS[13]);
}

pub(crate) fn type_extensions<E: EachKind>(alloc: Global, each: &mut E) {
    first_extensions(alloc, each);
    each.take(union_type_extension(alloc), DEFINITIONS[14]);
    each.take(enum_type_extension(alloc), DEFINITIONS[15]);
    each.take(input_object_type_extension(alloc), DEFINITIONS[16]);
}

/// The definitions as such.
pub(crate) fn definitions<E: EachKind>(alloc: Global, each: &mut E) {
    for (variant, line) in DEFINITIONS.iter().enumerate() {
        each.take(definition(alloc, variant), line);
    }
}

/// The text on one line of the document of all definitions.
pub(crate) fn document_line(alloc: Global) -> Result<String, AllocError> {
    DEFINITIONS.join(alloc, " ")
}
