//! Worked runs of the program, with writers in memory.
ghost use Rattle.std.specs.Prelude.{◌≤◌, IfSome, length};

use super::{VectorError, report, run_vectors, run_words};
use graphql_ast::serialize::PrintError;
use graphql_ast::sink::SinkFault;
use std::alloc::{AllocError, Global};
use std::fmt::Debug;
use std::io;
use std::io::{ErrorKind, Write};
use std::process::Abort;
use std::test::Fail;

/// How a writer refuses a call.
#[derive(Clone, Copy, Debug)]
enum Refusal {
    Fails,
    IsInterrupted,
    TakesNothing,
}

const REFUSALS: [Refusal; 3] = [
    Refusal::Fails,
    Refusal::IsInterrupted,
    Refusal::TakesNothing,
];

/// A writer in memory that takes one byte a call, and asks for no memory. Once it has taken a number of them it refuses one call,
/// and takes more after it.
#[derive(Drop)]
struct Page {
    bytes: [u8; 256],
    len: usize,
    refuses_at: Option<usize>,
    refusal: Refusal,
}

impl Page {
    fn new() -> Page {
        Page {
            bytes: [0; 256],
            len: 0,
            refuses_at: None,
            refusal: Refusal::Fails,
        }
    }

    fn refusing_at(place: usize, refusal: Refusal) -> Page {
        Page {
            bytes: [0; 256],
            len: 0,
            refuses_at: Some(place),
            refusal,
        }
    }

    /// What it has taken, if that is text.
    fn text(&self) -> Option<&str> {
        str::from_utf8(self.bytes.get(..self.len)?).ok()
    }

    /// Takes the first of the bytes, if there is one and room for it.
    fn take(&mut self, bytes: &[u8]) -> Option<usize>
        ensures { IfSome result (λ count. count ≤ length bytes.now) }
    {
        *self.bytes.get_mut(self.len)? = *bytes.first()?;
        self.len = self.len.checked_add(1)?;
        Some(1)
    }
}

impl Write for Page {
    fn write(&mut self, bytes: &[u8]) -> io::Result<usize> {
        if self.refuses_at == Some(self.len) {
            self.refuses_at = None;
            return match self.refusal {
                Refusal::Fails => Err(io::Error::from(ErrorKind::BrokenPipe)),
                Refusal::IsInterrupted => Err(io::Error::from(ErrorKind::Interrupted)),
                Refusal::TakesNothing => Ok(0),
            };
        }
        Ok(self.take(bytes).unwrap_or(0))
    }

    fn flush(&mut self) -> io::Result<()> {
        Ok(())
    }
}

/// That these are equal. A call, since a comparison written out is dear where many follow: the proof of a test goes over all of them.
fn check_equal<T: PartialEq + Debug + Drop>(rt: &impl Abort, found: T, wanted: T) {
    assert_eq!(rt; found, wanted);
}

fn words_of(alloc: Global, texts: &[&str]) -> Result<Vec<String>, AllocError> {
    let mut words = Vec::new(alloc);
    for text in texts {
        words.push(String::from_str(alloc, text)?)?;
    }
    Ok(words)
}

/// Runs the program on these words, and asserts the status and what both writers have taken.
fn check_run(
    rt: &impl Abort,
    alloc: Global,
    words: &[&str],
    wanted: (u8, &str, &str),
) -> Result<(), Fail> {
    let words = words_of(alloc, words)?;
    let (status, out, err) = run_vectors(alloc, &words, Page::new(), Page::new());
    check_equal(rt, status, wanted.0);
    check_equal(rt, out.text(), Some(wanted.1));
    check_equal(rt, err.text(), Some(wanted.2));
    Ok(())
}

/// The document's own line feed, and the program's.
const TYPE_AND_QUERY: &str = "type A\n\nquery {\n  a\n}\n\n";

/// The vectors of values that are printed, each with its text.
const VALUES: [(&str, &str); 8] = [
    ("1", FOUR_VALUES),
    (
        "2",
        "{\n  null_field: null,\n  enum_field: EXAMPLE,\n  var_field: $var,\n  string_field: \"example\",\n  float_field: 1.5,\n  int_field: 47,\n  list_field: [\n    1,\n    2,\n    3,\n  ],\n}\n",
    ),
    ("3", "\"\\u0001\t\u{7F}\"\n"),
    ("4", "\"\"\"\na\nb\n\"\"\"\n"),
    ("5", "\"a\\nb\"\n"),
    ("6", "[\n  \"\"\"\n  a\n\n   b\n  \"\"\",\n]\n"),
    ("15", "null\n"),
    ("20", ">[\n>>1,\n>]\n"),
];

/// Those of definitions of the type system.
const DEFINITIONS: [(&str, &str); 5] = [
    ("7", "\"\"\"\nsay \"hi\"\n\"\"\"\nscalar A\n"),
    ("8", "\"\"\"x\\\\\"\"\"y\"\"\"\nscalar A\n"),
    ("14", "directive @d(\n  a: Int @x,\n  b: Int,\n) on FIELD\n"),
    (
        "17",
        "type T implements A & B @d {\n  \"\"\"F\"\"\"\n  f(x: Int = 1): [String!]! @e\n}\n",
    ),
    ("19", "f(\n  a: [Int] = [\n    1,\n  ] @x,\n): Int\n"),
];

/// Those of operations.
const OPERATIONS: [(&str, &str); 4] = [
    ("11", "  query {\n    a\n  }\n"),
    ("12", "query {\na\n}\n"),
    (
        "18",
        "query N($v: Int = 1 @d) {\n  r: s(a: $v) @include(if: true) {\n    ...F\n    ... on T {\n      id\n    }\n  }\n}\n",
    ),
    (
        "21",
        "query N(\n  \"\"\"A\"\"\"\n  $a: Int,\n  $b: Int = 1,\n) {\n  a\n}\n",
    ),
];

/// Those of documents.
const DOCUMENTS: [(&str, &str); 4] = [
    ("9", TYPE_AND_QUERY),
    ("10", "type A query { a }\n"),
    ("13", "query @dir { field }\n"),
    ("22", "type A \"D\" query { a }\n"),
];

/// Asserts that each of these vectors is printed.
fn check_printed(rt: &impl Abort, alloc: Global, vectors: &[(&str, &str)]) -> Result<(), Fail> {
    for (number, text) in vectors {
        check_run(rt, alloc, &[*number], (0, text, ""))?;
    }
    Ok(())
}

/// A level that doesn't fit is found before the first byte.
const OVERFLOW: (u8, &str, &str) = (1, "", "indentation level overflow\n");

const UNKNOWN: (u8, &str, &str) = (2, "", "unknown vector\n");

/// Asserts the status and the line of an error.
fn check_report(rt: &impl Abort, alloc: Global, error: VectorError, wanted: (u8, &str)) {
    let (status, err) = report(error, Page::new());
    check_equal(rt, status, wanted.0);
    check_equal(rt, err.text(), Some(wanted.1));
}

/// Each error, with its status and its line.
const ERRORS: [(VectorError, (u8, &str)); 6] = [
    (VectorError::Unknown, (2, "unknown vector\n")),
    (VectorError::Memory, (1, "out of memory\n")),
    (
        VectorError::Print(PrintError::LevelOverflow),
        (1, "indentation level overflow\n"),
    ),
    (
        VectorError::Print(PrintError::Memory),
        (1, "out of memory\n"),
    ),
    (
        VectorError::Print(PrintError::Sink),
        (1, "the writer failed\n"),
    ),
    (VectorError::Line(SinkFault), (1, "the writer failed\n")),
];

fn check_errors(rt: &impl Abort, alloc: Global) {
    for (error, wanted) in ERRORS {
        check_report(rt, alloc, error, wanted);
    }
}

/// Words that are no vector's number.
const UNKNOWN_WORDS: [&str; 13] = [
    "", "01", "+1", "-1", " 1", "1 ", "1\n", "0", "23", "011", "100", "١", "one",
];

fn check_unknown_words(rt: &impl Abort, alloc: Global) -> Result<(), Fail> {
    for word in UNKNOWN_WORDS {
        check_run(rt, alloc, &[word], UNKNOWN)?;
    }
    let digits = "1".repeat(alloc, 10_000)?;
    check_run(rt, alloc, &[digits.as_str()], UNKNOWN)
}

/// Where memory for the words was refused.
fn check_no_words(rt: &impl Abort, alloc: Global) {
    let (status, out, err) = run_words(alloc, Err(AllocError), Page::new(), Page::new());
    check_equal(rt, status, 1);
    check_equal(rt, out.text(), Some(""));
    check_equal(rt, err.text(), Some("out of memory\n"));
}

/// Known vectors are printed, other words are unknown, and errors have texts.
#[test]
fn vectors_are_printed_and_errors_are_told(rt: HostRuntime) -> Result<(), Fail> {
    let alloc = rt.alloc();
    for vectors in [&VALUES[..], &DEFINITIONS, &OPERATIONS, &DOCUMENTS] {
        check_printed(&rt, alloc, vectors)?;
    }
    check_run(&rt, alloc, &["16"], OVERFLOW)?;
    check_unknown_words(&rt, alloc)?;
    check_run(&rt, alloc, &[], UNKNOWN)?;
    check_run(&rt, alloc, &["1", "1"], UNKNOWN)?;
    check_errors(&rt, alloc);
    check_no_words(&rt, alloc);
    Ok(())
}

const FOUR_VALUES: &str = "[1, EXAMPLE, true, null]\n";

/// What a run ends with whose writer refuses a call at this place.
fn check_ended(
    rt: &impl Abort,
    (refusal, place): (Refusal, usize),
    found: (u8, Option<&str>),
    wanted: (u8, Option<&str>),
) {
    assert_eq!(rt; found, wanted, "{refusal:?} at {place}");
}

/// Prints a vector on a writer that refuses one call, and asserts that nothing is written after it.
fn check_refusal(
    rt: &impl Abort,
    alloc: Global,
    (number, text): (&str, &str),
    (refusal, place): (Refusal, usize),
) -> Result<(), Fail> {
    let words = words_of(alloc, &[number])?;
    let out = Page::refusing_at(place, refusal);
    let (status, out, err) = run_vectors(alloc, &words, out, Page::new());
    let (found, wanted) = ((status, out.text()), (1, text.get(..place)));
    check_ended(rt, (refusal, place), found, wanted);
    check_equal(rt, err.text(), Some("the writer failed\n"));
    Ok(())
}

fn check_refused_values(rt: &impl Abort, alloc: Global, refusal: Refusal) -> Result<(), Fail> {
    for place in 0..FOUR_VALUES.len() {
        check_refusal(rt, alloc, ("1", FOUR_VALUES), (refusal, place))?;
    }
    Ok(())
}

fn check_refused_document(rt: &impl Abort, alloc: Global) -> Result<(), Fail> {
    for place in 0..TYPE_AND_QUERY.len() {
        let refused = (Refusal::Fails, place);
        check_refusal(rt, alloc, ("9", TYPE_AND_QUERY), refused)?;
    }
    Ok(())
}

/// Runs the program on this word, where standard output and standard error refuse a call at these places, and asserts the status
/// and what is printed.
fn check_refused_report(
    rt: &impl Abort,
    alloc: Global,
    word: &str,
    (out_at, err_at): (Option<usize>, usize),
    (wanted, printed): (u8, &str),
) -> Result<(), Fail> {
    let words = words_of(alloc, &[word])?;
    let mut out = Page::new();
    out.refuses_at = out_at;
    let err = Page::refusing_at(err_at, Refusal::Fails);
    let (status, out, err) = run_vectors(alloc, &words, out, err);
    check_equal(rt, (word, status), (word, wanted));
    check_equal(rt, out.text(), Some(printed));
    check_equal(rt, err.len, err_at);
    Ok(())
}

/// And a refused report changes no status, nor does it where both writers refuse.
#[test]
fn nothing_follows_a_refused_write(rt: HostRuntime) -> Result<(), Fail> {
    let alloc = rt.alloc();
    for refusal in REFUSALS {
        check_refused_values(&rt, alloc, refusal)?;
    }
    check_refused_document(&rt, alloc)?;
    check_refused_report(&rt, alloc, "01", (None, 0), (2, ""))?;
    check_refused_report(&rt, alloc, "01", (None, 3), (2, ""))?;
    check_refused_report(&rt, alloc, "01", (None, 14), (2, ""))?;
    check_refused_report(&rt, alloc, "1", (Some(1), 0), (1, "["))
}

/// Runs the program on the number of a vector, and asserts that the run ends as is wanted, or reports refused memory
/// with nothing printed.
fn check_run_or_refused(
    rt: &impl Abort,
    alloc: Global,
    number: &str,
    (status, out, err): (u8, &str, &str),
) {
    let Ok(words) = words_of(alloc, &[number]) else {
        return;
    };
    let found = run_vectors(alloc, &words, Page::new(), Page::new());
    let found = (found.0, found.1.text(), found.2.text());
    let is_whole = found == (status, Some(out), Some(err));
    let is_refused = found == (1, Some(""), Some("out of memory\n"));
    assert!(rt; is_whole || is_refused, "{number}");
}

/// Of each vector. `rt try --test --fail-alloc N` refuses the Nth growth.
///
/// Allocations: 198.
#[test]
fn refused_memory_is_reported(rt: HostRuntime) {
    check_run_or_refused(&rt, rt.alloc(), "16", OVERFLOW);
    for vectors in [&VALUES[..], &DEFINITIONS, &OPERATIONS, &DOCUMENTS] {
        for (number, text) in vectors {
            check_run_or_refused(&rt, rt.alloc(), number, (0, text, ""));
        }
    }
}
