//! What the writers write.

ghost use Rattle.std.specs.Prelude.{◌<◌};

use super::page::{Page, blank_page};
use crate::checks::check_text;
use graphql_base::name;
use graphql_text::writers::{
    Place, ready_comma_lead, write_blank, write_comma_end, write_comma_lead, write_finish,
    write_first_indent, write_float, write_int, write_last_comma, write_name, write_soft,
    write_tight, write_words,
};
use std::alloc::Global;
use std::process::Abort;

/// A list of two numbers.
fn write_numbers(out: &mut Page, place: &Place<'_>)
    requires { place.now.level < 100 }
{
    let inner = place.inner();
    write_words(out, "[");
    write_comma_lead(out, &inner, ready_comma_lead(&inner), true);
    write_int(out, "1");
    write_comma_lead(out, &inner, ready_comma_lead(&inner), false);
    write_float(out, "1.5");
    write_last_comma(out, &inner);
    write_tight(out, &inner.outer());
    write_words(out, "]");
}

fn page_at(alloc: Global, place: Place<'_>) -> Page
    requires { place.level < 100 }
{
    let mut out = blank_page(alloc);
    write_first_indent(&mut out, &place);
    write_numbers(&mut out, &place);
    write_soft(&mut out, &place);
    write_name(&mut out, &name!(a));
    write_soft(&mut out, &place.flat());
    write_words(&mut out, "b");
    write_blank(&mut out, &place);
    write_words(&mut out, "c");
    write_finish(&mut out, &place);
    out
}

fn check_page(rt: &impl Abort, page: &Page, wanted: &str) {
    check_text(rt, page.text.as_str(), wanted);
    assert!(rt; !page.has_fault, "an empty piece");
}

/// A prefix, a level, and the text of a list and two names, and a third one after a blank.
const PAGES: [(Option<&str>, usize, &str); 5] = [
    (Some("  "), 0, "[\n  1,\n  1.5,\n]\na b\n\nc\n"),
    (Some("\t"), 1, "\t[\n\t\t1,\n\t\t1.5,\n\t]\n\ta b\n\n\tc\n"),
    (Some(""), 7, "[\n1,\n1.5,\n]\na b\n\nc\n"),
    (None, 0, "[1, 1.5] a b c"),
    (None, 7, "[1, 1.5] a b c"),
];

/// A prefix, a level, and what stands before the closing bracket of a group.
const ENDS: [(Option<&str>, usize, &str); 5] = [
    (Some("  "), 1, ",\n  "),
    (
        Some("  "),
        31,
        ",\n                                                              ",
    ),
    (Some(" \t"), 2, ",\n \t \t"),
    (Some(""), 7, ",\n"),
    (None, 7, ""),
];

/// The first indent of an empty prefix ends at once, at the greatest level too.
#[test]
fn at_several_places(rt: HostRuntime) {
    for (prefix, level, wanted) in PAGES {
        let page = page_at(rt.alloc(), Place::new(prefix, level));
        check_page(&rt, &page, wanted);
    }
    for (prefix, level, wanted) in ENDS {
        let mut out = blank_page(rt.alloc());
        write_comma_end(&mut out, &Place::new(prefix, level));
        check_page(&rt, &out, wanted);
    }
    let mut out = blank_page(rt.alloc());
    write_first_indent(&mut out, &Place::new(Some(""), usize::MAX));
    check_page(&rt, &out, "");
}
