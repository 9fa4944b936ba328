//! Strings with each escape, the locations at both ends, and lists in one another.
use crate::each_kind::check_text;
use ast_json_text::to_ast_json_text;
use graphql_ast::ast::Value;
use graphql_ast::node::{Node, NodeStr};
use graphql_ast::span::{FileId, SourceSpan};
use std::alloc::Global;
use std::process::Abort;
use worked_trees::refused::Refused;

/// What `JSON.stringify` of node writes of these texts.
const ROWS: [(&str, &str); 8] = [
    ("", "\"\""),
    ("a", "\"a\""),
    ("\"\\/", "\"\\\"\\\\/\""),
    ("\u{8}\t\n\u{c}\r", "\"\\b\\t\\n\\f\\r\""),
    (
        "\u{0}\u{1}\u{b}\u{e}\u{1f}",
        "\"\\u0000\\u0001\\u000b\\u000e\\u001f\"",
    ),
    (
        "\u{7f}\u{80}\u{2028}\u{ffff}\u{10ffff}",
        "\"\u{7f}\u{80}\u{2028}\u{ffff}\u{10ffff}\"",
    ),
    ("é\"日\n🎉", "\"é\\\"日\\n🎉\""),
    ("\u{1f}\u{1f}", "\"\\u001f\\u001f\""),
];

/// The same of each character that has an escape, alone.
const ESCAPES: [(&str, &str); 34] = [
    ("\u{0}", "\"\\u0000\""),
    ("\u{1}", "\"\\u0001\""),
    ("\u{2}", "\"\\u0002\""),
    ("\u{3}", "\"\\u0003\""),
    ("\u{4}", "\"\\u0004\""),
    ("\u{5}", "\"\\u0005\""),
    ("\u{6}", "\"\\u0006\""),
    ("\u{7}", "\"\\u0007\""),
    ("\u{8}", "\"\\b\""),
    ("\t", "\"\\t\""),
    ("\n", "\"\\n\""),
    ("\u{b}", "\"\\u000b\""),
    ("\u{c}", "\"\\f\""),
    ("\r", "\"\\r\""),
    ("\u{e}", "\"\\u000e\""),
    ("\u{f}", "\"\\u000f\""),
    ("\u{10}", "\"\\u0010\""),
    ("\u{11}", "\"\\u0011\""),
    ("\u{12}", "\"\\u0012\""),
    ("\u{13}", "\"\\u0013\""),
    ("\u{14}", "\"\\u0014\""),
    ("\u{15}", "\"\\u0015\""),
    ("\u{16}", "\"\\u0016\""),
    ("\u{17}", "\"\\u0017\""),
    ("\u{18}", "\"\\u0018\""),
    ("\u{19}", "\"\\u0019\""),
    ("\u{1a}", "\"\\u001a\""),
    ("\u{1b}", "\"\\u001b\""),
    ("\u{1c}", "\"\\u001c\""),
    ("\u{1d}", "\"\\u001d\""),
    ("\u{1e}", "\"\\u001e\""),
    ("\u{1f}", "\"\\u001f\""),
    ("\"", "\"\\\"\""),
    ("\\", "\"\\\\\""),
];

fn check_row(rt: &impl Abort, alloc: Global, text: &str, wanted: &str) {
    let string = NodeStr::new_str(alloc, text).expect(rt, "memory");
    let found = to_ast_json_text(alloc, &string).expect(rt, "memory");
    assert!(rt; found.as_str().contains(wanted), "{found}");
    let mut refused = Refused::none();
    check_text(rt, alloc, &mut refused, &string);
    assert!(rt; refused.calls == 0);
}

/// A text of a million control characters, each of which has an escape of six bytes, in a node of 46 bytes, which tells `block`.
fn check_long(rt: &impl Abort, alloc: Global) {
    let text = "\u{1}".repeat(alloc, 1_000_000).expect(rt, "memory");
    let string = NodeStr::new_str(alloc, text.as_str()).expect(rt, "memory");
    let found = to_ast_json_text(alloc, &string).expect(rt, "memory");
    assert_eq!(rt; found.len(), 6_000_046);
    let mut refused = Refused::none();
    check_text(rt, alloc, &mut refused, &string);
    assert!(rt; refused.calls == 0);
}

fn check_location(rt: &impl Abort, alloc: Global, at: u32, wanted: &str) {
    let span = SourceSpan::new(FileId::new(1), at, at).expect(rt, "in order");
    let string = NodeStr::new_str_parsed(alloc, "D", span).expect(rt, "memory");
    let found = to_ast_json_text(alloc, &string).expect(rt, "memory");
    assert!(rt; found.as_str().contains(wanted), "{found}");
}

/// So many lists in one another.
fn check_nested(rt: &impl Abort, alloc: Global, levels: u32) {
    let mut value = Value::Null;
    for _ in 0..levels {
        let node = Node::new(alloc, value).expect(rt, "memory");
        value = Value::List(vec![in alloc; node].expect(rt, "memory"));
    }
    let mut refused = Refused::none();
    check_text(rt, alloc, &mut refused, &value);
    assert!(rt; refused.calls == 0);
}

fn check_rows(rt: &impl Abort, alloc: Global, rows: &[(&str, &str)]) {
    for (text, wanted) in rows {
        check_row(rt, alloc, text, wanted);
    }
}

/// Each row, a long text, the locations at both ends, and lists in one another.
pub(crate) fn check_strings(rt: &impl Abort, alloc: Global) {
    check_rows(rt, alloc, &ROWS);
    check_rows(rt, alloc, &ESCAPES);
    check_long(rt, alloc);
    check_location(rt, alloc, 0, "\"loc\":{\"end\":0,\"start\":0}");
    check_location(
        rt,
        alloc,
        u32::MAX,
        "\"loc\":{\"end\":4294967295,\"start\":4294967295}",
    );
    check_nested(rt, alloc, 127);
    check_nested(rt, alloc, 1_000);
}
