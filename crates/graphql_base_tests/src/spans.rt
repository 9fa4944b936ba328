//! Worked spans.
use crate::checks::check_equal;
use graphql_base::span::{FileId, SourceSpan};
use std::alloc::Global;
use std::collections::HashSet;
use std::process::Abort;

/// A file, a start, an end, and the length between them. No two are alike.
const SPANS: [(u64, u32, u32, u32); 6] = [
    (5, 10, 13, 3),
    (6, 10, 13, 3),
    (5, 9, 13, 4),
    (5, 10, 14, 4),
    (5, 4, 4, 0),
    (5, 0, u32::MAX, u32::MAX),
];

fn check_files(rt: &impl Abort, alloc: Global) {
    check_equal(rt, FileId::new(0), FileId::BUILT_IN);
    check_equal(rt, FileId::new(1) == FileId::BUILT_IN, false);
    let mut files = HashSet::new(alloc);
    files.insert(FileId::new(5)).expect(rt, "memory");
    check_equal(rt, files.contains(&FileId::new(5)), true);
    check_equal(rt, files.contains(&FileId::BUILT_IN), false);
}

fn check_span(rt: &impl Abort, file: u64, start: u32, end: u32, len: u32) {
    let span = SourceSpan::new(FileId::new(file), start, end).expect(rt, "in order");
    check_equal(rt, span.file_id(), FileId::new(file));
    check_equal(
        rt,
        (span.start(), span.end(), span.len()),
        (start, end, len),
    );
}

/// The first of the spans is equal to itself, and to no other, and so it is found as a key.
fn check_compared(rt: &impl Abort, alloc: Global) {
    let first = SourceSpan::new(FileId::new(5), 10, 13).expect(rt, "in order");
    let mut spans = HashSet::new(alloc);
    spans.insert(first).expect(rt, "memory");
    for (place, (file, start, end, _)) in SPANS.into_iter().enumerate() {
        let span = SourceSpan::new(FileId::new(file), start, end).expect(rt, "in order");
        let found = (span == first, spans.contains(&span));
        check_equal(rt, found, (place == 0, place == 0));
    }
}

/// They compare by these, and are found by them as keys.
#[test]
fn files_and_spans_are_their_numbers(rt: HostRuntime) {
    check_files(&rt, rt.alloc());
    for (file, start, end, len) in SPANS {
        check_span(&rt, file, start, end, len);
    }
    check_compared(&rt, rt.alloc());
    check_equal(&rt, SourceSpan::new(FileId::new(5), 4, 3), None);
}
