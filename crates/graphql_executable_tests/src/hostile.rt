//! Trees and sinks at the edges.
use crate::checks::{check_case, check_equal};
use crate::samples::{fields, nested, operation, query};
use graphql_checks::sinks::Narrow;
use graphql_executable::operation_definition::OperationDefinition;
use graphql_text::engine::{PrintError, Serialize};
use std::alloc::Global;
use std::process::Abort;

const LINES: &str =
    "query N($v: Int = 1 @d) {\n  r: s(a: $v) @include(if: true) {\n    ...F\n    ... on T {\n      id\n    }\n  }\n}";

/// A sink with room for so many bytes, one a call, takes as many as there are and faults once more.
fn check_room(rt: &impl Abort, alloc: Global, operation: &OperationDefinition, room: usize) {
    let mut sink = Narrow::with_room(alloc, room);
    let result = operation.serialize().print_to(&mut sink);
    let fits = LINES.len() <= room;
    check_case(
        rt,
        &room,
        result,
        if fits { Ok(()) } else { Err(PrintError::Sink) },
    );
    check_case(rt, &room, sink.faults, if fits { 0 } else { 1 });
    assert!(rt; LINES.as_bytes().starts_with(sink.bytes.as_slice()));
    check_equal(rt, sink.bytes.len(), if fits { LINES.len() } else { room });
}

/// A print of so many bytes, which begins and ends so.
fn check_text_of(
    rt: &impl Abort,
    alloc: Global,
    print: Serialize<'_, OperationDefinition>,
    length: usize,
    start: &str,
    end: &str,
) {
    let text = print.to_text(alloc).expect(rt, "memory");
    check_case(rt, start, text.len(), length);
    let found = (text.starts_with(start), text.ends_with(end));
    check_case(rt, start, found, (true, true));
}

/// 1,000 sets: on one line 5,999 bytes; the level may be as great as leaves room for them.
fn check_deep(rt: &impl Abort, alloc: Global) {
    let deep = query(alloc, nested(alloc, 1000).expect(rt, "memory"));
    check_equal(rt, deep.is_well_formed(), true);
    let line = deep.serialize().no_indent();
    let greatest = line.initial_indent_level(usize::MAX - 1000);
    check_text_of(rt, alloc, line, 5999, "{ a { a { a", "} } }");
    check_text_of(rt, alloc, greatest, 5999, "{ a { a { a", "} } }");
    let lines = deep.serialize().indent_prefix("");
    check_text_of(rt, alloc, lines, 5999, "{\na {\na {\n", "}\n}\n}");
    let above = line.initial_indent_level(usize::MAX - 999).to_text(alloc);
    check_equal(rt, above.err(), Some(PrintError::LevelOverflow));
}

fn check_wide(rt: &impl Abort, alloc: Global) {
    let wide = query(alloc, fields(alloc, 10000).expect(rt, "memory"));
    let line = wide.serialize().no_indent();
    check_text_of(rt, alloc, line, 20003, "{ a a ", " a }");
    let mut sink = Narrow::with_room(alloc, 1);
    let result = wide.serialize().print_to(&mut sink);
    check_equal(rt, result, Err(PrintError::Sink));
    check_equal(rt, (sink.bytes.as_slice(), sink.faults), (&b"{"[..], 1));
}

/// 1,000 sets, 10,000 fields, and sinks that fault after each byte.
#[test]
fn nested_sets_and_narrow_sinks(rt: HostRuntime) {
    let alloc = rt.alloc();
    check_deep(&rt, alloc);
    check_wide(&rt, alloc);
    let operation = operation(alloc).expect(&rt, "memory");
    for room in 0..=LINES.len() {
        check_room(&rt, alloc, &operation, room);
    }
}
