//! Whole prints of documents, where memory is ample.
use crate::checks::{check_case, check_equal};
use crate::samples::{
    EACH_VARIANT, anonymous_query, described_query, directives, document, each_variant, query,
    type_a, type_and_query,
};
use graphql_ast::ast::{Definition, Document};
use graphql_ast::node::Node;
use graphql_checks::trees::{check_line, check_print};
use std::alloc::{AllocError, Global};
use std::process::Abort;

/// The document of one definition.
fn only(alloc: Global, definition: Definition) -> Result<Document, AllocError> {
    Ok(document(alloc, vec![in alloc; definition]?))
}

/// `{ a } type A`
fn query_and_type(alloc: Global) -> Result<Document, AllocError> {
    let definitions = vec![in alloc; anonymous_query(alloc)?, type_a(alloc)?]?;
    Ok(document(alloc, definitions))
}

/// `query @d { a }`
fn directed_query(alloc: Global) -> Result<Document, AllocError> {
    let mut query = query(alloc)?;
    query.directives = directives(alloc)?;
    only(alloc, Definition::from(Node::new(alloc, query)?))
}

/// What stands before each line, or nothing where all stands on one line; the level; and the text.
type Laid = (Option<&'static str>, usize, &'static str);

const TYPE_AND_QUERY: [Laid; 4] = [
    (None, 0, "type A query { a }"),
    (Some("  "), 0, "type A\n\nquery {\n  a\n}\n"),
    (Some("  "), 1, "  type A\n\n  query {\n    a\n  }\n"),
    (Some(""), 0, "type A\n\nquery {\na\n}\n"),
];

/// An anonymous query is in shorthand at the very front alone, without a description and directives.
const QUERY_AND_TYPE: [Laid; 2] = [
    (None, 0, "{ a } type A"),
    (Some("  "), 0, "{\n  a\n}\n\ntype A\n"),
];

const DESCRIBED: [Laid; 2] = [
    (None, 0, "\"D\" query { a }"),
    (Some("  "), 0, "\"\"\"D\"\"\"\nquery {\n  a\n}\n"),
];

const DIRECTED: [Laid; 1] = [(None, 0, "query @d { a }")];

/// It is no document that a text is read as, but printed all the same.
const EMPTY: [Laid; 4] = [
    (None, 0, ""),
    (Some("  "), 0, ""),
    (Some("  "), 1, "  "),
    (None, 1, ""),
];

/// A document in the default layout, also where it is displayed.
fn check_default(rt: &impl Abort, alloc: Global, document: &Document, wanted: &str) {
    check_print(alloc, document.serialize(), wanted).expect(rt, wanted);
    let text = format!(in alloc; "{document}").expect(rt, "memory");
    check_equal(rt, text.as_str(), wanted);
}

/// A text of a document; the layout of two spaces at level 0 is the default one.
fn check_laid_out(rt: &impl Abort, alloc: Global, document: &Document, laid: Laid) {
    let (prefix, level, wanted) = laid;
    let print = document.serialize();
    let laid_out = match prefix {
        None => print.no_indent(),
        Some(prefix) => print.indent_prefix(prefix),
    };
    check_print(alloc, laid_out.initial_indent_level(level), wanted).expect(rt, wanted);
    if prefix == Some("  ") && level == 0 {
        check_default(rt, alloc, document, wanted);
    }
}

/// A document in each of these layouts, which is well formed or not.
fn check_document(
    rt: &impl Abort,
    alloc: Global,
    made: Result<Document, AllocError>,
    is_well_formed: bool,
    cases: &[Laid],
) {
    let document = made.expect(rt, "memory");
    check_case(rt, &document, document.is_well_formed(), is_well_formed);
    for laid in cases {
        check_laid_out(rt, alloc, &document, *laid);
    }
}

fn check_each_variant(rt: &impl Abort, alloc: Global) {
    let each_variant = each_variant(alloc).expect(rt, "memory");
    let each_variant = document(alloc, each_variant);
    check_line(alloc, &each_variant, EACH_VARIANT, true).expect(rt, "each variant");
}

#[test]
fn of_documents(rt: HostRuntime) {
    let alloc = rt.alloc();
    check_each_variant(&rt, alloc);
    check_document(&rt, alloc, type_and_query(alloc), true, &TYPE_AND_QUERY);
    check_document(&rt, alloc, query_and_type(alloc), true, &QUERY_AND_TYPE);
    let described = described_query(alloc).expect(&rt, "memory");
    check_document(&rt, alloc, only(alloc, described), true, &DESCRIBED);
    check_document(&rt, alloc, directed_query(alloc), true, &DIRECTED);
    let empty = Ok(Document::new(alloc));
    check_document(&rt, alloc, empty, false, &EMPTY);
}
