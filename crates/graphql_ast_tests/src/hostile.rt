//! Documents at the edges.
use crate::checks::{check_case, check_equal};
use crate::samples::{anonymous_query, document, scalar_a, type_and_query};
use graphql_ast::ast::{Document, Serialize};
use graphql_ast::serialize::PrintError;
use graphql_ast::sink::{TextSink, VecSink};
use std::alloc::{AllocError, Global};
use std::process::Abort;

/// So many definitions `scalar A`.
fn scalars(alloc: Global, count: usize) -> Result<Document, AllocError> {
    let mut definitions = Vec::new(alloc);
    for _ in 0..count {
        definitions.push(scalar_a(alloc)?)?;
    }
    Ok(document(alloc, definitions))
}

/// A print of so many bytes, which begins and ends so.
fn check_text_of(
    rt: &impl Abort,
    alloc: Global,
    print: Serialize<'_, Document>,
    length: usize,
    start: &str,
    end: &str,
) {
    let text = print.to_text(alloc).expect(rt, "memory");
    check_case(rt, start, text.len(), length);
    let found = (text.starts_with(start), text.ends_with(end));
    check_case(rt, start, found, (true, true));
}

fn check_clone(rt: &impl Abort, document: &Document) {
    check_equal(rt, document.is_well_formed(), true);
    let copy = document.clone().expect(rt, "memory");
    check_equal(rt, copy == *document, true);
}

fn check_many(rt: &impl Abort, alloc: Global) {
    let long = scalars(alloc, 10000).expect(rt, "memory");
    check_clone(rt, &long);
    let line = long.serialize().no_indent().initial_indent_level(0);
    check_text_of(rt, alloc, line, 89999, "scalar A scalar A ", " scalar A");
    let (start, end) = ("scalar A\n\nscalar A\n\n", "\n\nscalar A\n");
    let lines = long.serialize().initial_indent_level(0);
    check_text_of(rt, alloc, lines, 99999, start, end);
}

/// A print at the greatest level overflows, and the sink takes nothing.
fn check_above(rt: &impl Abort, alloc: Global, line: Serialize<'_, Document>) {
    let mut sink = VecSink::new(alloc);
    let above = line.initial_indent_level(usize::MAX).print_to(&mut sink);
    check_equal(rt, above, Err(PrintError::LevelOverflow));
    check_equal(rt, (sink.bytes().len(), sink.faults()), (0, 0));
}

fn check_levels(rt: &impl Abort, alloc: Global) {
    let both = type_and_query(alloc).expect(rt, "memory");
    let line = both.serialize().no_indent();
    let last = line.initial_indent_level(usize::MAX - 1);
    check_text_of(rt, alloc, last, 18, "type A query { a }", "");
    check_above(rt, alloc, line);
    let flat = scalars(alloc, 2).expect(rt, "memory");
    let greatest = flat
        .serialize()
        .no_indent()
        .initial_indent_level(usize::MAX);
    check_text_of(rt, alloc, greatest, 17, "scalar A scalar A", "");
}

/// A query at the last level that it has room for.
fn check_query(rt: &impl Abort, alloc: Global) {
    let query = anonymous_query(alloc).expect(rt, "memory");
    let line = query.serialize().no_indent();
    let last = line.initial_indent_level(usize::MAX - 1);
    let text = last.to_text(alloc).expect(rt, "memory");
    check_equal(rt, text.as_str(), "{ a }");
}

/// Ten thousand definitions of 8 bytes each, with a space between two, or with an empty line between two and a line feed at the
/// end. And levels up to the greatest: a query has one group, a type without fields has none.
#[test]
fn many_definitions_and_great_levels(rt: HostRuntime) {
    check_many(&rt, rt.alloc());
    check_levels(&rt, rt.alloc());
    check_query(&rt, rt.alloc());
}
