//! What the examples compare, and the writers that they print into.
use graphql_text::engine::{PrintError, Serialize, Syntax};
use graphql_text::sink::{StreamSink, TextSink};
use std::fmt::{self, Debug, Display, Write};
use std::io::{self, Cursor};
use std::process::Abort;

/// That these are equal. A call, since a comparison written out is dear where many follow: the proof of a test goes over all of them.
pub(crate) fn check_equal<T: PartialEq + Debug + Drop>(rt: &impl Abort, found: T, wanted: T) {
    assert_eq!(rt; found, wanted);
}

/// The same of one of several cases, which is told where they differ.
pub(crate) fn check_case<T: PartialEq + Debug + Drop>(
    rt: &impl Abort,
    case: impl Display + Drop,
    found: T,
    wanted: T,
) {
    assert_eq!(rt; found, wanted, "{case}");
}

pub(crate) fn check_text(rt: &impl Abort, found: &str, wanted: &str) {
    check_equal(rt, found, wanted);
}

/// A text that a call made: memory is ample.
pub(crate) fn check_made<E: Debug>(rt: &impl Abort, made: Result<String, E>, wanted: &str) {
    let text = made.expect(rt, "memory");
    check_text(rt, text.as_str(), wanted);
}

/// The print on one line into a writer that asks for no memory, and what the writer took.
pub(crate) fn printed<T: Syntax>(
    rt: &impl Abort,
    tree: &T,
) -> (Result<(), PrintError>, Cursor<[u8; 48]>) {
    let mut sink = StreamSink::new(Cursor::new([0; 48]));
    let result = Serialize::new(tree).no_indent().print_to(&mut sink);
    check_equal(rt, sink.faults(), 0);
    (result, sink.into_inner())
}

pub(crate) fn check_taken(rt: &impl Abort, taken: Cursor<[u8; 48]>, wanted: &str) {
    check_equal(rt, taken.position(), wanted.len() as u64);
    assert!(rt; taken.into_inner().starts_with(wanted.as_bytes()));
}

/// All of the print, even where memory is refused.
pub(crate) fn check_printed<T: Syntax>(rt: &impl Abort, tree: &T, wanted: &str) {
    let (result, taken) = printed(rt, tree);
    check_equal(rt, result, Ok(()));
    check_taken(rt, taken, wanted);
}

/// All of the print, or nothing where memory is refused.
pub(crate) fn check_print_or_refused<T: Syntax>(rt: &impl Abort, tree: &T, wanted: &str) {
    let (result, taken) = printed(rt, tree);
    assert!(rt; result == Ok(()) || result == Err(PrintError::Memory));
    check_taken(rt, taken, if result.is_ok() { wanted } else { "" });
}

/// A formatter over 48 bytes.
#[derive(Drop)]
pub(crate) struct Page {
    pub(crate) bytes: Cursor<[u8; 48]>,
}

impl Page {
    pub(crate) fn new() -> Page {
        Page {
            bytes: Cursor::new([0; 48]),
        }
    }
}

impl fmt::Write for Page {
    fn write_str(&mut self, text: &str) -> fmt::Result {
        match io::Write::write(&mut self.bytes, text.as_bytes()) {
            Ok(count) if count == text.len() => Ok(()),
            _ => Err(fmt::Error),
        }
    }
}

/// All of it is displayed, or nothing where memory is refused.
pub(crate) fn check_displayed_or_refused<T: Display>(rt: &impl Abort, tree: &T, wanted: &str) {
    let mut page = Page::new();
    let result = write!(page, "{tree}");
    check_taken(rt, page.bytes, if result.is_ok() { wanted } else { "" });
}
