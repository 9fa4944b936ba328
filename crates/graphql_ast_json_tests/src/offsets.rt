//! Offsets of locations in their units, and in bytes.
use graphql_ast_json::Offsets;
use graphql_base::span::{FileId, SourceSpan};
use std::process::Abort;

/// Characters of one, two and four bytes, and one more.
const TEXT: &str = "a\u{e9}\u{1d11e}b";

/// Offsets, and their bytes.
const OFFSETS: [(Offsets, u32, Option<u32>); 16] = [
    (Offsets::Utf16, 0, Some(0)),
    (Offsets::Utf16, 1, Some(1)),
    (Offsets::Utf16, 2, Some(3)),
    (Offsets::Utf16, 3, None),
    (Offsets::Utf16, 4, Some(7)),
    (Offsets::Utf16, 5, Some(8)),
    (Offsets::Utf16, 6, None),
    (Offsets::CodePoints, 2, Some(3)),
    (Offsets::CodePoints, 3, Some(7)),
    (Offsets::CodePoints, 4, Some(8)),
    (Offsets::CodePoints, 5, None),
    (Offsets::Bytes, 2, None),
    (Offsets::Bytes, 3, Some(3)),
    (Offsets::Bytes, 5, None),
    (Offsets::Bytes, 8, Some(8)),
    (Offsets::Bytes, 9, None),
];

/// Starts and ends, and whether the clef stands between them.
const SPANS: [(Offsets, u32, u32, bool); 4] = [
    (Offsets::Utf16, 2, 4, true),
    (Offsets::CodePoints, 2, 3, true),
    (Offsets::Bytes, 3, 7, true),
    // the first half of the clef
    (Offsets::Utf16, 2, 3, false),
];

fn check_offset(rt: &impl Abort, offsets: Offsets, offset: u32, wanted: Option<u32>) {
    let found = offsets.byte_offset(TEXT, offset);
    assert_eq!(rt; found, wanted, "{offset} as {offsets:?}");
}

fn check_span(rt: &impl Abort, offsets: Offsets, start: u32, end: u32, is_clef: bool) {
    let file = FileId::new(3);
    let clef = SourceSpan::new(file, 3, 7).expect(rt, "a stretch");
    let span = SourceSpan::new(file, start, end).expect(rt, "a stretch");
    let found = offsets.byte_span(TEXT, span);
    let wanted = is_clef.then_some(clef);
    assert_eq!(rt; found, wanted, "{start} to {end} as {offsets:?}");
}

/// Offsets, and what stands between two of them.
#[test]
fn offsets_are_found_in_bytes(rt: HostRuntime) {
    for (offsets, offset, wanted) in OFFSETS {
        check_offset(&rt, offsets, offset, wanted);
    }
    for (offsets, start, end, is_clef) in SPANS {
        check_span(&rt, offsets, start, end, is_clef);
    }
}
