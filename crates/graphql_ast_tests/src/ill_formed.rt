//! Why documents aren't well formed, and where.
use crate::checks::check_equal;
use crate::samples::{document, source_file, type_a};
use graphql_ast::ast::{Definition, Document, EnumTypeExtension, LineColumn};
use graphql_ast::ill_formed::SideCondition;
use graphql_ast::name;
use graphql_ast::node::Node;
use graphql_ast::span::{FileId, SourceSpan};
use std::alloc::{AllocError, Global};
use std::process::Abort;

/// Where `extend enum N` stands in the source text.
fn flaw_span() -> Option<SourceSpan> {
    SourceSpan::new(FileId::new(7), 8, 21)
}

/// `type A extend enum N`, where the extension tells its location.
fn flawed(alloc: Global, span: SourceSpan) -> Result<Document, AllocError> {
    let extension = EnumTypeExtension::new(alloc, name!(N));
    let node = Node::new_parsed(alloc, extension, span)?;
    let definitions = vec![in alloc; type_a(alloc)?, Definition::from(node)]?;
    Ok(document(alloc, definitions))
}

/// The text of the flaw that is found.
fn check_text(rt: &impl Abort, alloc: Global, tree: &Document, wanted: &str) {
    let found = tree.find_placed_flaw().expect(rt, "a flaw");
    let text = format!(in alloc; "{found}").expect(rt, "memory");
    check_equal(rt, text.as_str(), wanted);
}

fn check_found(rt: &impl Abort, tree: &Document, span: SourceSpan) {
    check_equal(rt, tree.find_ill_formed_index(), Some(1));
    let found = tree.find_placed_flaw().expect(rt, "a flaw");
    check_equal(rt, found.found.condition, SideCondition::AddsSomething);
    check_equal(rt, found.found.location(), Some(span));
}

fn check_position(rt: &impl Abort, tree: &Document, span: SourceSpan) {
    let position = tree.source_position(span).expect(rt, "a position");
    check_equal(rt, position.path, "a.graphql");
    check_equal(rt, &position.position, &LineColumn { line: 3, column: 1 });
}

/// A flaw is told with the path, the line and the column where the document has the source text.
#[test]
fn in_sources(rt: HostRuntime) {
    let alloc = rt.alloc();
    let span = flaw_span().expect(&rt, "a span");
    let mut tree = flawed(alloc, span).expect(&rt, "memory");
    check_found(&rt, &tree, span);
    let flaw = "an extension that adds nothing: `N`";
    check_text(&rt, alloc, &tree, flaw);
    let file = source_file(alloc, "a.graphql", "type A\n\nextend enum N").expect(&rt, "memory");
    tree.sources
        .insert(FileId::new(7), file)
        .expect(&rt, "memory");
    let placed_flaw = "a.graphql:3:1: an extension that adds nothing: `N`";
    check_text(&rt, alloc, &tree, placed_flaw);
    check_position(&rt, &tree, span);
}
