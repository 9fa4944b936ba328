//! Readers and writers that fail, wherever they do.
use crate::fakes::{Page, Source, run_on};
use crate::samples::{ILL_FORMED, QUERY};
use std::alloc::Global;
use std::process::Abort;
use std::test::Fail;

const PRINTED: &str = "{ a { b } }\n";

const REPORTED: &str = "graphql_print: standard input: the writer failed\n";

/// Nothing is printed where the reader fails, and a report that is refused changes no status.
#[test]
fn readers_and_reports_that_fail(rt: HostRuntime) -> Result<(), Fail> {
    for place in [0, 1, 64, 200, QUERY.len() - 1, QUERY.len()] {
        let input = Source::failing_at(QUERY, place);
        let (out, err) = (Page::new(), Page::new());
        let (status, out, err) = run_on(rt.alloc(), &[], input, None, out, err)?;
        let report = "graphql_print: standard input: connection reset";
        assert!(rt; err.begins_with(report), "{place}");
        assert!(rt; out.holds(""), "{place}");
        assert_eq!(rt; status, 3, "{place}");
    }
    for place in [0, 1, 14, 60] {
        let rows: [(&'static [&'static str], &str, u8); 2] = [
            (&[], ILL_FORMED, 1),
            (&["--indent"], QUERY, 2),
        ];
        for (words, text, wanted) in rows {
            let (input, err) = (Source::new(text), Page::failing_at(place));
            let (status, out, _) = run_on(rt.alloc(), words, input, None, Page::new(), err)?;
            assert!(rt; out.holds(""), "{place}");
            assert_eq!(rt; status, wanted, "{place}");
        }
    }
    Ok(())
}

/// Asserts that a run on such a writer has written a beginning, and reports the writer.
fn check_refused(
    rt: &impl Abort,
    alloc: Global,
    words: &'static [&'static str],
    out: Page,
    written: &str,
) -> Result<(), Fail> {
    let input = Source::new(QUERY);
    let (status, out, err) = run_on(alloc, words, input, None, out, Page::new())?;
    assert!(rt; out.holds(written));
    assert!(rt; err.holds(REPORTED));
    assert_eq!(rt; status, 4);
    Ok(())
}

/// A check writes nothing, so the writer isn't asked for anything.
#[test]
fn nothing_follows_a_refused_write(rt: HostRuntime) -> Result<(), Fail> {
    let alloc = rt.alloc();
    for place in 0..PRINTED.len() {
        let written = PRINTED.get(..place).unwrap_or("");
        let out = Page::failing_at(place);
        check_refused(&rt, alloc, &["--one-line"], out, written)?;
    }
    let out = Page::failing_to_flush();
    check_refused(&rt, alloc, &["--one-line"], out, PRINTED)?;
    for place in 0..20 {
        let written = r#"{"definitions":[{"dir"#.get(..place).unwrap_or("");
        let out = Page::failing_at(place);
        check_refused(&rt, alloc, &["--json"], out, written)?;
    }
    let (input, out) = (Source::new(QUERY), Page::failing_to_flush());
    let (status, _, err) = run_on(alloc, &["--check"], input, None, out, Page::new())?;
    assert!(rt; err.holds(""));
    assert_eq!(rt; status, 0);
    Ok(())
}
