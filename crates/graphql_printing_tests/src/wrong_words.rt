//! Words that ask for no run.
use crate::fakes::{Page, Source, run_on};
use crate::samples::QUERY;
use std::alloc::Global;
use std::process::Abort;
use std::test::Fail;

/// Words, and how what is said of them begins.
type Row = (&'static [&'static str], &'static str);

const WRONG: [Row; 13] = [
    (
        &["--no-such"],
        "error: unexpected argument '--no-such' found\n",
    ),
    (&["-x"], "error: unexpected argument '-x' found\n"),
    (&["a", "b"], "error: unexpected argument 'b' found\n"),
    (
        &["--indent"],
        "error: a value is required for '--indent <N>' but none was supplied\n",
    ),
    (
        &["--indent", "17"],
        "error: invalid value '17' for '--indent <N>': 17 is not in 0..=16\n",
    ),
    (
        &["--indent", "two"],
        "error: invalid value 'two' for '--indent <N>': invalid digit found in string\n",
    ),
    (
        &["--indent=-1"],
        "error: invalid value '-1' for '--indent <N>': -1 is not in 0..=16\n",
    ),
    (
        &["--level", "65536"],
        "error: invalid value '65536' for '--level <N>': 65536 is not in 0..=65535\n",
    ),
    (
        &["--indent", "2", "--indent", "4"],
        "error: the argument '--indent <N>' cannot be used multiple times\n",
    ),
    (
        &["--tabs", "--indent", "4"],
        "error: the argument '--tabs' cannot be used with '--indent <N>'\n",
    ),
    (
        &["--one-line", "--tabs"],
        "error: the argument '--one-line' cannot be used with '--tabs'\n",
    ),
    (
        &["--json", "--check"],
        "error: the argument '--json' cannot be used with '--check'\n",
    ),
    (
        &["--json", "--level", "1"],
        "error: the argument '--json' cannot be used with '--level <N>'\n",
    ),
];

/// Words that show a text, and how that begins.
const SHOWN: [Row; 4] = [
    (&["--version"], "graphql_print 0.1.0\n"),
    (&["-V"], "graphql_print 0.1.0\n"),
    (&["-h"], "Prints a document in AST JSON"),
    (&["--help"], "Prints a document in AST JSON"),
];

/// Asserts that a text is shown on standard output, or that the status says that it could not be.
fn check_shown(
    rt: &impl Abort,
    alloc: Global,
    words: &'static [&'static str],
    said: &str,
) -> Result<(), Fail> {
    let input = Source::new("");
    let (status, out, err) = run_on(alloc, words, input, None, Page::new(), Page::new())?;
    assert!(rt; out.begins_with(said));
    assert!(rt; err.holds(""));
    assert_eq!(rt; status, 0);
    let (input, out) = (Source::new(""), Page::failing_at(3));
    let (status, out, err) = run_on(alloc, words, input, None, out, Page::new())?;
    assert!(rt; out.holds(said.get(..3).unwrap_or("")));
    assert!(rt; err.holds(""));
    assert_eq!(rt; status, 4);
    Ok(())
}

/// Wrong words are told, and help and version are shown.
#[test]
fn words_are_told_of(rt: HostRuntime) -> Result<(), Fail> {
    for (words, said) in WRONG {
        let (out, err) = (Page::new(), Page::new());
        let (status, out, err) = run_on(rt.alloc(), words, Source::new(QUERY), None, out, err)?;
        assert!(rt; err.begins_with(said), "{said}");
        assert!(rt; out.holds(""), "{said}");
        assert_eq!(rt; status, 2, "{said}");
    }
    for (words, said) in SHOWN {
        check_shown(&rt, rt.alloc(), words, said)?;
    }
    Ok(())
}
