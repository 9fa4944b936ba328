//! Documents as they are made, compared, hashed and cloned.
use crate::checks::{check_case, check_equal};
use crate::samples::{document, query, query_at, source_file, type_a, type_and_query};
use graphql_ast::ast::Document;
use graphql_ast::node::Node;
use graphql_ast::span::{FileId, SourceSpan};
use std::alloc::{AllocError, Global};
use std::collections::HashSet;
use std::process::Abort;

/// `type A query { a }`, read from one file.
fn from_a_file(alloc: Global) -> Result<Document, AllocError> {
    let mut document = type_and_query(alloc)?;
    let file = source_file(alloc, "a.graphql", "type A { a }")?;
    document.sources.insert(FileId::new(3), file)?;
    Ok(document)
}

/// `type A`, of a document.
fn only_type(alloc: Global) -> Result<Document, AllocError> {
    Ok(document(alloc, vec![in alloc; type_a(alloc)?]?))
}

/// A document equals the one that was read, which is found where it is a key. One of fewer definitions isn't.
fn check_compared(rt: &impl Abort, alloc: Global, read: &Document) {
    let made = type_and_query(alloc).expect(rt, "memory");
    check_equal(rt, made == *read, true);
    let mut seen = HashSet::new(alloc);
    check_equal(rt, seen.insert(made).is_ok(), true);
    check_equal(rt, seen.contains(read), true);
    let shorter = only_type(alloc).expect(rt, "memory");
    check_equal(rt, seen.contains(&shorter), false);
}

/// What a clone of a document of one source keeps.
fn check_clone(rt: &impl Abort, document: &Document, file: FileId, span: SourceSpan) {
    let copy = document.clone().expect(rt, "memory");
    check_equal(rt, copy == *document, true);
    check_equal(rt, copy.sources.len(), 1);
    let is_same = copy.sources.get(&file) == document.sources.get(&file);
    check_equal(rt, is_same, true);
    let location = copy.definitions.first().and_then(|first| first.location());
    check_equal(rt, location, Some(span));
}

/// The document that was read, with a query in the place of its definitions.
fn check_kept(rt: &impl Abort, alloc: Global, read: &mut Document) {
    let file = FileId::new(3);
    let span = SourceSpan::new(file, 0, 6).expect(rt, "a span");
    let query = query_at(alloc, span).expect(rt, "memory");
    read.definitions = vec![in alloc; query].expect(rt, "memory");
    check_clone(rt, read, file, span);
}

fn check_files(rt: &impl Abort, alloc: Global) {
    let file = source_file(alloc, "a", "b").expect(rt, "memory");
    let copy = file.clone().expect(rt, "memory");
    check_equal(rt, file == copy, true);
    for (path, text) in [("a", "c"), ("c", "b")] {
        let other = source_file(alloc, path, text).expect(rt, "memory");
        check_case(rt, path, file == other, false);
    }
}

/// Documents are equal and hash alike whatever their sources are, and a clone keeps sources and locations. Source files are
/// compared, by both of their texts.
#[test]
fn sources_are_kept_and_not_compared(rt: HostRuntime) {
    let alloc = rt.alloc();
    let mut read = from_a_file(alloc).expect(&rt, "memory");
    check_compared(&rt, alloc, &read);
    check_kept(&rt, alloc, &mut read);
    check_files(&rt, alloc);
}

/// Two queries, the one pushed as a struct and the other as a node, and a definition.
fn pushed(alloc: Global) -> Result<Document, AllocError> {
    let mut document = Document::new(alloc);
    document.push(alloc, query(alloc)?)?;
    document.push_node(Node::new(alloc, query(alloc)?)?)?;
    document.push_node(type_a(alloc)?)?;
    Ok(document)
}

fn check_new(rt: &impl Abort, alloc: Global) {
    let new = Document::new(alloc);
    let empty = document(alloc, Vec::new(alloc));
    check_equal(
        rt,
        (
            new.sources.is_empty(),
            new.definitions.is_empty(),
            new == empty,
        ),
        (true, true, true),
    );
}

/// A new document is empty.
#[test]
fn definitions_are_pushed(rt: HostRuntime) {
    let alloc = rt.alloc();
    check_new(&rt, alloc);
    let pushed = pushed(alloc).expect(&rt, "memory");
    let text = pushed.serialize().no_indent().to_text(alloc);
    check_equal(
        &rt,
        text.expect(&rt, "memory").as_str(),
        "{ a } query { a } type A",
    );
}
