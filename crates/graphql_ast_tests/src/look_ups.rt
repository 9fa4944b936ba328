//! What documents have by name: the first of several, and nothing in an empty document or under a name in another case.
use crate::checks::check_case;
use graphql_ast::ast::{
    DirectiveDefinition, Document, EnumTypeDefinition, EnumTypeExtension, FragmentDefinition,
    ObjectTypeDefinition, ObjectTypeExtension, OperationDefinition, OperationType,
    ScalarTypeDefinition, ScalarTypeExtension, SchemaExtension,
};
use graphql_ast::{Name, name};
use std::alloc::{AllocError, Global};
use std::process::Abort;

fn operation(
    alloc: Global,
    operation_type: OperationType,
    name: Option<Name>,
) -> OperationDefinition {
    OperationDefinition {
        name,
        ..OperationDefinition::new(alloc, operation_type)
    }
}

/// `query A`, `mutation`, `subscription A` and `query`, each without a selection.
fn operations(alloc: Global) -> Result<Document, AllocError> {
    let mut document = Document::new(alloc);
    for (operation_type, name) in [
        (OperationType::Query, Some(name!(A))),
        (OperationType::Mutation, None),
        (OperationType::Subscription, Some(name!(A))),
        (OperationType::Query, None),
    ] {
        document.push(alloc, operation(alloc, operation_type, name))?;
    }
    Ok(document)
}

/// `fragment A on T`, `directive @A repeatable`, `fragment A on U` and `directive @A`, which have neither selections nor
/// locations.
fn fragments_and_directives(alloc: Global) -> Result<Document, AllocError> {
    let mut document = Document::new(alloc);
    document.push(alloc, FragmentDefinition::new(alloc, name!(A), name!(T)))?;
    let mut directive = DirectiveDefinition::new(alloc, name!(A));
    directive.repeatable = true;
    document.push(alloc, directive)?;
    document.push(alloc, FragmentDefinition::new(alloc, name!(A), name!(U)))?;
    document.push(alloc, DirectiveDefinition::new(alloc, name!(A)))?;
    Ok(document)
}

/// `extend scalar A`, `type A`, `scalar A`, `enum a`, `extend type A`, `extend schema` and `extend enum a`.
fn types(alloc: Global) -> Result<Document, AllocError> {
    let mut document = Document::new(alloc);
    document.push(alloc, ScalarTypeExtension::new(alloc, name!(A)))?;
    document.push(alloc, ObjectTypeDefinition::new(alloc, name!(A)))?;
    document.push(alloc, ScalarTypeDefinition::new(alloc, name!(A)))?;
    document.push(alloc, EnumTypeDefinition::new(alloc, name!(a)))?;
    document.push(alloc, ObjectTypeExtension::new(alloc, name!(A)))?;
    document.push(alloc, SchemaExtension::new(alloc))?;
    document.push(alloc, EnumTypeExtension::new(alloc, name!(a)))?;
    Ok(document)
}

/// What a document has under a name: the type of the operation, the type condition of the fragment, whether the directive is
/// repeatable, and the words of the type and of its first extension.
type Found<'d> = (
    Option<OperationType>,
    Option<&'d str>,
    Option<bool>,
    Option<&'static str>,
    Option<&'static str>,
);

const NOTHING: Found<'static> = (None, None, None, None, None);

fn found<'d>(document: &'d Document, name: &str) -> Found<'d> {
    (
        document
            .operation(Some(name))
            .map(|node| node.operation_type),
        document
            .fragment(name)
            .map(|node| node.type_condition.as_str()),
        document
            .directive_definition(name)
            .map(|node| node.repeatable),
        document
            .type_definition(name)
            .map(|definition| definition.kind_name()),
        document
            .extensions_of(name)
            .next()
            .map(|definition| definition.kind_name()),
    )
}

/// Names, and what the document has under each.
fn check_found(rt: &impl Abort, document: &Document, cases: &[(&str, Found<'_>)]) {
    for (name, wanted) in cases {
        assert_eq!(rt; found(document, name), *wanted, "{name} in {document}");
    }
}

/// How many operations and fragments there are, and how many extensions of `A`, of `a` and of `B`.
fn counts(document: &Document) -> [usize; 5] {
    [
        document.operations().count(),
        document.fragments().count(),
        document.extensions_of("A").count(),
        document.extensions_of("a").count(),
        document.extensions_of("B").count(),
    ]
}

/// What a document has under `A` and under `a`, and that it has nothing under other names.
fn check_names(
    rt: &impl Abort,
    document: &Document,
    under_a: Found<'static>,
    under_small_a: Found<'static>,
) {
    let cases = [
        ("A", under_a),
        ("a", under_small_a),
        ("B", NOTHING),
        ("", NOTHING),
    ];
    check_found(rt, document, &cases);
}

/// The type of the first operation without a name, and how many there are of each.
fn check_counts(
    rt: &impl Abort,
    document: &Document,
    anonymous: Option<OperationType>,
    wanted: [usize; 5],
) {
    let found = document.operation(None).map(|node| node.operation_type);
    check_case(rt, document, found, anonymous);
    check_case(rt, document, counts(document), wanted);
}

/// Each document, what it has under each name, the first operation without a name, and how many there are of each.
#[test]
fn of_each_kind(rt: HostRuntime) {
    let alloc = rt.alloc();
    let query = (Some(OperationType::Query), None, None, None, None);
    let both = (None, Some("T"), Some(true), None, None);
    let type_a = (None, None, None, Some("type"), Some("extend scalar"));
    let enum_a = (None, None, None, Some("enum"), Some("extend enum"));
    for (made, under_a, under_small_a, anonymous, wanted) in [
        (
            operations(alloc),
            query,
            NOTHING,
            Some(OperationType::Mutation),
            [4, 0, 0, 0, 0],
        ),
        (
            fragments_and_directives(alloc),
            both,
            NOTHING,
            None,
            [0, 2, 0, 0, 0],
        ),
        (types(alloc), type_a, enum_a, None, [0, 0, 2, 1, 0]),
        (Ok(Document::new(alloc)), NOTHING, NOTHING, None, [0; 5]),
    ] {
        let document = made.expect(&rt, "memory");
        check_names(&rt, &document, under_a, under_small_a);
        check_counts(&rt, &document, anonymous, wanted);
    }
}
