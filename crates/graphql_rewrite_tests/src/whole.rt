//! What is made of whole documents.
use crate::made::check_text;
use crate::samples::document;
use graphql_ast::ast::{Document, ObjectTypeDefinition, ScalarTypeDefinition, SourceFile};
use graphql_ast::span::FileId;
use graphql_ast::{Name, name};
use graphql_rewrite::{concat, rename_fields, sort_definitions, with_definitions};
use std::alloc::{AllocError, Global};
use std::process::Abort;

/// `type B scalar B type A scalar A`
pub(crate) fn types(alloc: Global) -> Result<Document, AllocError> {
    let mut document = Document::new(alloc);
    document.push(alloc, ObjectTypeDefinition::new(alloc, name!(B)))?;
    document.push(alloc, ScalarTypeDefinition::new(alloc, name!(B)))?;
    document.push(alloc, ObjectTypeDefinition::new(alloc, name!(A)))?;
    document.push(alloc, ScalarTypeDefinition::new(alloc, name!(A)))?;
    Ok(document)
}

/// 21 types `B` and a type `A`, more than are sorted in place.
pub(crate) fn many(alloc: Global) -> Result<Document, AllocError> {
    let mut document = Document::new(alloc);
    for _ in 0..21 {
        document.push(alloc, ObjectTypeDefinition::new(alloc, name!(B)))?;
    }
    document.push(alloc, ObjectTypeDefinition::new(alloc, name!(A)))?;
    Ok(document)
}

/// The type `A` comes to be the first of many.
fn check_many(rt: &impl Abort, alloc: Global) {
    let mut document = many(alloc).expect(rt, "memory");
    assert!(rt; sort_definitions(&mut document).is_ok());
    assert_eq!(rt; document.definitions.len(), 22);
    let first = document.definitions.first().expect(rt, "a type");
    assert_eq!(rt; first.name().map(Name::as_str), Some("A"));
}

/// A document that has a file of this text too.
fn with_file(
    alloc: Global,
    document: Document,
    id: u64,
    text: &str,
) -> Result<Document, AllocError> {
    let file = SourceFile {
        path: String::from_str(alloc, "path")?,
        text: String::from_str(alloc, text)?,
    };
    let mut document = document;
    document.sources.insert(FileId::new(id), file)?;
    Ok(document)
}

/// A document without definitions, of a file of this text.
fn of_file(alloc: Global, id: u64, text: &str) -> Result<Document, AllocError> {
    with_file(alloc, Document::new(alloc), id, text)
}

fn check_file(rt: &impl Abort, document: &Document, id: u64, wanted: &str) {
    let file = document.sources.get(&FileId::new(id)).expect(rt, "a file");
    assert_eq!(rt; file.text.as_str(), wanted);
}

fn joined(alloc: Global) -> Result<Document, AllocError> {
    let documents = vec![in alloc;
        types(alloc)?,
        of_file(alloc, 3, "old")?,
        of_file(alloc, 4, "other")?,
        of_file(alloc, 3, "new")?,
        types(alloc)?,
    ]?;
    concat(alloc, documents)
}

/// A document that is rewritten, of a file.
fn rewritten(alloc: Global) -> Result<Option<Document>, AllocError> {
    let old = with_file(alloc, document(alloc)?, 3, "text")?;
    rename_fields(alloc, &old, "a", &name!(c))
}

/// Definitions are sorted by kind and name, documents are joined with their sources, and what is made has the sources.
#[test]
fn documents_are_sorted_and_joined_and_have_their_sources(rt: HostRuntime) {
    let alloc = rt.alloc();
    let mut document = types(alloc).expect(&rt, "memory");
    assert!(rt; sort_definitions(&mut document).is_ok());
    check_text(&rt, alloc, &document, "scalar A scalar B type A type B");
    let mut empty = Document::new(alloc);
    assert!(rt; sort_definitions(&mut empty).is_ok());
    assert!(rt; empty.definitions.is_empty());
    check_many(&rt, alloc);

    let all = joined(alloc).expect(&rt, "memory");
    let twice = "type B scalar B type A scalar A type B scalar B type A scalar A";
    check_text(&rt, alloc, &all, twice);
    let none = concat(alloc, Vec::new(alloc)).expect(&rt, "memory");
    assert!(rt; none.definitions.is_empty());

    let made = rewritten(alloc).expect(&rt, "memory");
    let made = made.expect(&rt, "another document");
    let none = with_definitions(&made, Vec::new(alloc)).expect(&rt, "memory");
    assert!(rt; none.definitions.is_empty());
    for (document, id, wanted) in [
        (&all, 3, "new"),
        (&all, 4, "other"),
        (&made, 3, "text"),
        (&none, 3, "text"),
    ] {
        check_file(&rt, document, id, wanted);
    }
}
