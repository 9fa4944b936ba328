//! Runs that meet a refused growth, wherever it comes: it is reported with nothing written, or the run ends as ever.
//! `rt try --test --fail-alloc N` refuses the Nth growth of each test.
use crate::fakes::{Page, Source, run_on};
use crate::samples::{ILL_FORMED, NO_TREE, QUERY, UNKNOWN};
use std::alloc::Global;
use std::process::Abort;

/// Runs the program, and asserts the status and what stands on standard output, or that memory was refused.
fn check(
    rt: &impl Abort,
    alloc: Global,
    words: &'static [&'static str],
    input: &'static str,
    (wanted, printed): (u8, &str),
) {
    let (input, out, err) = (Source::new(input), Page::new(), Page::new());
    let Ok((status, out, err)) = run_on(alloc, words, input, None, out, err) else {
        return;
    };
    if status == 4 {
        assert!(rt; out.holds(""));
        assert!(rt; err.ends_with("out of memory\n"));
    } else {
        assert!(rt; out.holds(printed));
        assert_eq!(rt; status, wanted);
    }
}

/// Allocations: 66.
#[test]
fn a_document_is_printed_or_memory_was_refused(rt: HostRuntime) {
    check(
        &rt,
        rt.alloc(),
        &["--tabs"],
        QUERY,
        (0, "{\n\ta {\n\t\tb\n\t}\n}\n"),
    );
}

const JSON_WORDS: [&str; 2] = ["--json", "--allow-ill-formed"];

/// Allocations: 52.
#[test]
fn json_is_written_or_memory_was_refused(rt: HostRuntime) {
    let json = "{\"definitions\":[],\"kind\":\"Document\"}\n";
    let input = r#"{"kind":"Document","definitions":[]}"#;
    check(&rt, rt.alloc(), &JSON_WORDS, input, (0, json));
}

/// Allocations: 88.
#[test]
fn flaws_are_told_or_memory_was_refused(rt: HostRuntime) {
    check(&rt, rt.alloc(), &[], ILL_FORMED, (1, ""));
}

/// Allocations: 163.
#[test]
fn other_json_is_told_or_memory_was_refused(rt: HostRuntime) {
    let alloc = rt.alloc();
    check(&rt, alloc, &[], NO_TREE, (3, ""));
    check(&rt, alloc, &[], UNKNOWN, (3, ""));
    check(&rt, alloc, &[], "{", (3, ""));
}

/// Allocations: 28.
#[test]
fn wrong_words_are_told_or_memory_was_refused(rt: HostRuntime) {
    check(&rt, rt.alloc(), &["--indent", "17"], QUERY, (2, ""));
}
