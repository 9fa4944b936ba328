//! Strings as they are written, piece by piece. What the texts of many more look like is told by the cases of a program.

ghost use Rattle.std.specs.Prelude.{◌<◌};

use super::page::{Page, blank_page};
use crate::checks::check_text;
use graphql_text::writers::{Place, Target, write_description, write_string_value};
use std::alloc::Global;
use std::process::Abort;

/// Takes one piece, and then no more.
#[derive(Drop)]
struct OnePiece {
    pieces: usize,
}

impl Target for OnePiece {
    ghost wrote = { λ before bytes after. Unit {0} };

    ghost stopped = { λ target. 0 < target.pieces };

    ghost nothing = { λ target. tt };

    ghost idle = { λ target bytes stopped. tt };

    ghost more = { λ a b c x y first second. tt };

    fn text(&mut self, _text: &str) {
        self.pieces = self.pieces.saturating_add(1);
    }

    fn is_stopped(&self) -> bool {
        self.pieces > 0
    }
}

fn check_page(rt: &impl Abort, page: &Page, wanted: &str) {
    check_text(rt, page.text.as_str(), wanted);
    assert!(rt; !page.has_fault, "an empty piece");
}

fn check_value(rt: &impl Abort, alloc: Global, place: &Place<'_>, value: &str, wanted: &str) {
    let mut page = blank_page(alloc);
    write_string_value(&mut page, place, value);
    check_page(rt, &page, wanted);
}

fn check_description(rt: &impl Abort, alloc: Global, place: &Place<'_>, value: &str, wanted: &str) {
    let mut page = blank_page(alloc);
    write_description(&mut page, place, value);
    check_page(rt, &page, wanted);
}

/// A prefix, a level, a value, and its text there.
type Case = (Option<&'static str>, usize, &'static str, &'static str);

const VALUES: [Case; 7] = [
    (None, 0, "", r#""""#),
    (None, 3, "a\nb", r#""a\nb""#),
    (Some("  "), 0, "\u{1}\t\u{7F}", "\"\\u0001\t\u{7F}\""),
    (Some("  "), 0, "\r\"\\\u{0}", r#""\r\"\\\u0000""#),
    (Some("  "), 1, "a\n\n b", "\"\"\"\n  a\n\n   b\n  \"\"\""),
    (Some(""), 9, "a\nb", "\"\"\"\na\nb\n\"\"\""),
    (
        Some(">"),
        2,
        "a\"\"\"b\n\"\"\"\"\"\"\"",
        "\"\"\"\n>>a\\\"\"\"b\n>>\\\"\"\"\\\"\"\"\"\n>>\"\"\"",
    ),
];

const DESCRIPTIONS: [Case; 7] = [
    (None, 0, r#"say "hi""#, r#""say \"hi\"""#),
    (Some("  "), 0, "", r#""""#),
    (Some("  "), 1, "F", r#""""F""""#),
    (Some("  "), 0, r#"""""x"#, r#""""\""""x""""#),
    (Some("  "), 0, "a\rb", r#""a\rb""#),
    (
        Some("  "),
        0,
        r#"""""""""#,
        "\"\"\"\n\\\"\"\"\\\"\"\"\"\n\"\"\"",
    ),
    (Some(" "), 3, "a\nb", "\"\"\"\n   a\n   b\n   \"\"\""),
];

/// No piece is empty, wherever escapes, quotes and line feeds stand. What takes no more ends the writing at once, at the
/// greatest level too.
#[test]
fn values_and_descriptions(rt: HostRuntime) {
    for (prefix, level, value, wanted) in VALUES {
        check_value(&rt, rt.alloc(), &Place::new(prefix, level), value, wanted);
    }
    for (prefix, level, value, wanted) in DESCRIPTIONS {
        check_description(&rt, rt.alloc(), &Place::new(prefix, level), value, wanted);
    }
    let mut out = OnePiece { pieces: 0 };
    let deepest = Place::new(Some("  "), usize::MAX);
    write_description(&mut out, &deepest, "a\nb");
    assert!(rt; out.is_stopped());
}
