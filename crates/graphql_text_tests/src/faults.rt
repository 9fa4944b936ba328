//! Sinks and writers that take little, or fault.

use crate::checks::check_equal;
use crate::samples::{items, one};
use graphql_checks::sinks::Narrow;
use graphql_text::engine::PrintError;
use graphql_text::sink::{StreamSink, TextSink, VecSink};
use graphql_values::value::Value;
use std::alloc::Global;
use std::io::{self, Cursor, ErrorKind, Write};
use std::process::Abort;

const TEXT: &[u8] = b"[1, EXAMPLE, true, null]";

/// What a writer answers to one of its writes.
#[derive(Clone, Copy, Drop)]
enum Answer {
    Fails(ErrorKind),
    None,
    One,
    All,
}

/// Answers its first, its second and each further write as it is told, and counts them.
#[derive(Drop)]
struct Told {
    answers: [Answer; 3],
    writes: usize,
    bytes: Vec<u8>,
}

impl Write for Told {
    fn write(&mut self, bytes: &[u8]) -> io::Result<usize> {
        let answer = self.answers[self.writes.min(2)];
        self.writes = self.writes.saturating_add(1);
        let count = match answer {
            Answer::Fails(kind) => return Err(io::Error::from(kind)),
            Answer::None => 0,
            Answer::One => bytes.len().min(1),
            Answer::All => bytes.len(),
        };
        self.bytes.extend_from_slice(&bytes[..count])?;
        Ok(count)
    }

    fn flush(&mut self) -> io::Result<()> {
        Ok(())
    }
}

/// Prints the list, and answers what the print did, how many faults there were, the last error, and the writer.
fn print_to_writer(
    list: &Value,
    alloc: Global,
    answers: [Answer; 3],
) -> (Result<(), PrintError>, u64, Option<ErrorKind>, Told) {
    let mut sink = StreamSink::new(Told {
        answers,
        writes: 0,
        bytes: Vec::new(alloc),
    });
    let printed = list.serialize().no_indent().print_to(&mut sink);
    let faults = sink.faults();
    let last = sink.last_error().map(|error| error.kind());
    (printed, faults, last, sink.into_inner())
}

/// Prints the list below its text, and answers whether all of both was taken, and the sink.
fn print_to_vector(list: &Value, alloc: Global) -> (bool, VecSink) {
    let mut sink = VecSink::new(alloc);
    let is_put = sink.put(TEXT).is_ok();
    let is_printed = list.serialize().no_indent().print_to(&mut sink).is_ok();
    (is_put && is_printed, sink)
}

/// A print of the list: so many bytes were taken, and if they are not all of it there was one fault, which is told.
fn check_taken(
    rt: &impl Abort,
    printed: Result<(), PrintError>,
    faults: u64,
    bytes: &[u8],
    taken: usize,
) {
    let wanted = if taken == TEXT.len() {
        (Ok(()), 0, taken)
    } else {
        (Err(PrintError::Sink), 1, taken)
    };
    check_equal(rt, (printed, faults, bytes.len()), wanted);
    assert!(rt; TEXT.starts_with(bytes));
}

/// Prints the list into so much room, and answers what the print did, and the sink.
fn print_to_narrow(list: &Value, alloc: Global, room: usize) -> (Result<(), PrintError>, Narrow) {
    let mut sink = Narrow::with_room(alloc, room);
    let printed = list.serialize().no_indent().print_to(&mut sink);
    (printed, sink)
}

/// Prints the list, and answers what the print did, how many faults there were, and what was taken.
fn print_to_memory(list: &Value, alloc: Global) -> (Result<(), PrintError>, u64, Vec<u8>) {
    let mut sink = StreamSink::new(Vec::new(alloc));
    let printed = list.serialize().no_indent().print_to(&mut sink);
    let after = if sink.put(&[]) == Ok(0) {
        printed
    } else {
        Err(PrintError::Sink)
    };
    let faults = sink.faults();
    (after, faults, sink.into_inner())
}

fn check_narrow(rt: &impl Abort, alloc: Global, list: &Value, room: usize) {
    let (printed, sink) = print_to_narrow(list, alloc, room);
    let taken = room.min(TEXT.len());
    check_taken(rt, printed, sink.faults, sink.bytes.as_slice(), taken);
}

/// A print whose first line has the deepest indentation.
fn check_deepest(rt: &impl Abort) {
    let mut sink = StreamSink::new(Cursor::new([0; 3]));
    let deepest = Value::Null.serialize().initial_indent_level(usize::MAX);
    let printed = deepest.print_to(&mut sink);
    check_equal(rt, (printed, sink.faults()), (Err(PrintError::Sink), 1));
    check_equal(rt, &sink.into_inner().into_inner(), b"   ");
}

/// One with a line that is deeper still.
fn check_too_deep(rt: &impl Abort, alloc: Global) {
    let mut sink = StreamSink::new(Cursor::new([0; 3]));
    let one = one(alloc).expect(rt, "memory");
    let too_deep = one.serialize().initial_indent_level(usize::MAX);
    let printed = too_deep.print_to(&mut sink);
    let wanted = Err(PrintError::LevelOverflow);
    check_equal(rt, (printed, sink.faults()), (wanted, 0));
    check_equal(rt, sink.into_inner().position(), 0);
}

fn check_vector(rt: &impl Abort, alloc: Global, list: &Value) {
    let (is_whole, sink) = print_to_vector(list, alloc);
    let twice = b"[1, EXAMPLE, true, null][1, EXAMPLE, true, null]".as_slice();
    check_equal(rt, is_whole, true);
    check_equal(rt, (sink.bytes(), sink.faults()), (twice, 0));
    check_equal(rt, sink.into_bytes().len(), 48);
}

/// A sink that takes one byte a call has room for so many: at the first that it has no room for all ends, with one fault,
/// however many pieces are left. Sinks in memory take all.
#[test]
fn prints_are_whole_or_end_at_a_fault(rt: HostRuntime) {
    let alloc = rt.alloc();
    let list = items(alloc).expect(&rt, "memory");
    for room in 0..=25 {
        check_narrow(&rt, alloc, &list, room);
    }
    check_deepest(&rt);
    check_too_deep(&rt, alloc);
    check_vector(&rt, alloc, &list);
    let (printed, faults, bytes) = print_to_memory(&list, alloc);
    check_taken(&rt, printed, faults, bytes.as_slice(), TEXT.len());
}

const FAILS: Answer = Answer::Fails(ErrorKind::Interrupted);

/// What the writer answers, in how many writes all ends, how many bytes are taken then, and the error that it answered, if it
/// did. A write that takes nothing is a fault without one.
const AWKWARD: [([Answer; 3], usize, usize, Option<ErrorKind>); 6] = [
    (
        [FAILS, Answer::All, Answer::All],
        1,
        0,
        Some(ErrorKind::Interrupted),
    ),
    ([Answer::None, Answer::All, Answer::All], 1, 0, None),
    (
        [Answer::One, Answer::One, FAILS],
        3,
        2,
        Some(ErrorKind::Interrupted),
    ),
    ([Answer::One, Answer::None, Answer::All], 2, 1, None),
    ([Answer::One, Answer::One, Answer::One], 24, 24, None),
    ([Answer::All, FAILS, FAILS], 1, 24, None),
];

/// Errors of one writer, one after another.
const ERRORS: [ErrorKind; 3] = [
    ErrorKind::Interrupted,
    ErrorKind::NotFound,
    ErrorKind::PermissionDenied,
];

fn check_awkward(
    rt: &impl Abort,
    alloc: Global,
    list: &Value,
    answers: [Answer; 3],
    writes: usize,
    taken: usize,
    error: Option<ErrorKind>,
) {
    let (printed, faults, last, writer) = print_to_writer(list, alloc, answers);
    check_equal(rt, writer.writes, writes);
    check_taken(rt, printed, faults, writer.bytes.as_slice(), taken);
    check_equal(rt, last, error);
}

/// A sink whose writer answers these errors.
fn failing(alloc: Global) -> StreamSink<Told> {
    StreamSink::new(Told {
        answers: ERRORS.map(Answer::Fails),
        writes: 0,
        bytes: Vec::new(alloc),
    })
}

/// A print that ends at a fault, the error of which the sink then has.
fn check_fault(rt: &impl Abort, sink: &mut StreamSink<Told>, wanted: ErrorKind) {
    assert!(rt; sink.faults() < 3);
    let printed = Value::Null.serialize().print_to(sink);
    check_equal(rt, printed, Err(PrintError::Sink));
    let last = sink.last_error().map(|error| error.kind());
    check_equal(rt, last, Some(wanted));
}

fn check_errors(rt: &impl Abort, alloc: Global) {
    let mut sink = failing(alloc);
    check_equal(rt, sink.last_error().is_none(), true);
    for wanted in ERRORS {
        check_fault(rt, &mut sink, wanted);
    }
    check_equal(rt, sink.faults(), 3);
}

/// Nothing is tried again, and of several errors the sink has the last.
#[test]
fn awkward_writers(rt: HostRuntime) {
    let alloc = rt.alloc();
    let list = items(alloc).expect(&rt, "memory");
    for (answers, writes, taken, error) in AWKWARD {
        check_awkward(&rt, alloc, &list, answers, writes, taken, error);
    }
    check_errors(&rt, alloc);
}
