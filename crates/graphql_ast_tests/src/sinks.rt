//! Sinks and writers that take little or fault, with one worked tree of each kind: what they have taken, how many faults there
//! were, and that nothing was tried again.
ghost use Rattle.std.specs.Prelude.{◌≡◌, ◌<◌, Some};

use crate::checks::check_equal;
use crate::kinds::{self, EachKind, document_line};
use crate::samples::type_and_query;
use graphql_ast::ast::{Serialize, Value};
use graphql_ast::name::Name;
use graphql_ast::node::Node;
use graphql_ast::serialize::{PrintError, Syntax};
use graphql_ast::sink::{SinkFault, StreamSink, TextSink};
use graphql_ast::value;
use std::alloc::{AllocError, Global};
use std::fmt::Display;
use std::hash::Hash;
use std::io::{self, ErrorKind, Write};
use std::process::Abort;
use worked_trees::definitions::document;

/// Takes so many bytes of a call at most, and so many in all. Then it faults.
#[derive(Drop)]
struct Limited {
    bytes: Vec<u8>,
    most: usize,
    room: usize,
    faults: u64,
}

impl TextSink for Limited {
    ghost taken = { λ sink. Some sink.bytes.items };

    ghost fault_count = { λ sink. sink.faults };

    fn put(&mut self, bytes: &[u8]) -> Result<usize, SinkFault> {
        let count = bytes.len().min(self.most).min(self.room);
        if count > 0 && self.bytes.extend_from_slice(&bytes[..count]).is_ok() {
            self.room -= count;
            return Ok(count);
        }
        if bytes.is_empty() {
            return Ok(0);
        }
        self.faults += 1;
        Err(SinkFault)
    }

    fn faults(&self) -> u64 {
        self.faults
    }
}

fn with_room(alloc: Global, most: usize, room: usize) -> Limited
    ensures { result.faults ≡ 0 }
{
    Limited {
        bytes: Vec::new(alloc),
        most,
        room,
        faults: 0,
    }
}

/// Takes so many bytes of a write at most. It refuses one write, with an error or without one, and takes those after it.
#[derive(Drop)]
struct Refusing {
    bytes: Vec<u8>,
    most: usize,
    writes: usize,
    refused: usize,
    error: Option<ErrorKind>,
}

impl Write for Refusing {
    fn write(&mut self, bytes: &[u8]) -> io::Result<usize> {
        let place = self.writes;
        self.writes = place.saturating_add(1);
        if place == self.refused {
            return match self.error {
                Some(kind) => Err(io::Error::from(kind)),
                None => Ok(0),
            };
        }
        let count = bytes.len().min(self.most);
        self.bytes.extend_from_slice(&bytes[..count])?;
        Ok(count)
    }

    fn flush(&mut self) -> io::Result<()> {
        Ok(())
    }
}

/// With room for so many bytes: these are taken, and if they aren't all of the text there is one fault.
fn check_room<T: Syntax>(
    rt: &impl Abort,
    alloc: Global,
    print: Serialize<'_, T>,
    wanted: &str,
    limits: (usize, usize),
) {
    let (most, room) = limits;
    let mut sink = with_room(alloc, most, room);
    let printed = print.print_to(&mut sink);
    let is_whole = room >= wanted.len();
    check_equal(
        rt,
        printed,
        if is_whole {
            Ok(())
        } else {
            Err(PrintError::Sink)
        },
    );
    check_equal(rt, sink.faults, u64::from(!is_whole));
    check_equal(rt, sink.bytes.len(), room.min(wanted.len()));
    assert!(rt; wanted.as_bytes().starts_with(sink.bytes.as_slice()));
}

/// One write was refused, with this error or without one.
fn check_fault(rt: &impl Abort, sink: &StreamSink<Refusing>, error: Option<ErrorKind>) {
    check_equal(rt, sink.faults(), 1);
    check_equal(rt, sink.last_error().map(|error| error.kind()), error);
}

/// What a writer took before the write that it refused, of one print, and behind it, of another.
fn check_taken(rt: &impl Abort, writer: &Refusing, wanted: &str, taken: usize) {
    let bytes = writer.bytes.as_slice();
    check_equal(rt, bytes.get(..taken), wanted.as_bytes().get(..taken));
    check_equal(rt, bytes.get(taken..), Some(wanted.as_bytes()));
    if writer.most == 1 {
        let others = writer.writes.checked_sub(writer.refused);
        check_equal(rt, others, wanted.len().checked_add(1));
    }
}

/// A write that is refused ends the print, and the writer's error is kept, also by a print that follows and is whole.
fn check_refused<T: Syntax>(
    rt: &impl Abort,
    print: Serialize<'_, T>,
    wanted: &str,
    writer: Refusing,
    taken: usize,
) {
    let error = writer.error;
    let mut sink = StreamSink::new(writer);
    check_equal(rt, print.print_to(&mut sink), Err(PrintError::Sink));
    assert_eq!(rt; sink.faults(), 1);
    check_fault(rt, &sink, error);
    check_equal(rt, print.print_to(&mut sink), Ok(()));
    check_fault(rt, &sink, error);
    check_taken(rt, &sink.into_inner(), wanted, taken);
}

/// How a write is refused: with an error, or by taking nothing.
const REFUSALS: [Option<ErrorKind>; 3] = [
    Some(ErrorKind::Interrupted),
    Some(ErrorKind::BrokenPipe),
    None,
];

/// One byte a call and all of a call, with room for each number of bytes, or for each so many.
fn check_rooms<T: Syntax>(
    rt: &impl Abort,
    alloc: Global,
    print: Serialize<'_, T>,
    wanted: &str,
    step: usize,
)
    requires { 0 < step }
{
    for room in (0..=wanted.len() + 1).step_by(step) {
        check_room(rt, alloc, print, wanted, (1, room));
        check_room(rt, alloc, print, wanted, (usize::MAX, room));
    }
}

/// Of writes of one byte the first, one in the middle and the last refused; and the first of all bytes at once.
fn check_writers<T: Syntax>(
    rt: &impl Abort,
    alloc: Global,
    print: Serialize<'_, T>,
    wanted: &str,
    error: Option<ErrorKind>,
) {
    let last = wanted.len().saturating_sub(1);
    for (most, refused) in [(1, 0), (1, last / 2), (1, last), (usize::MAX, 0)] {
        let writer = Refusing {
            bytes: Vec::new(alloc),
            most,
            writes: 0,
            refused,
            error,
        };
        check_refused(rt, print, wanted, writer, refused);
    }
}

fn check_layout<T: Syntax>(
    rt: &impl Abort,
    alloc: Global,
    print: Serialize<'_, T>,
    wanted: &str,
    step: usize,
)
    requires { 0 < step }
{
    check_rooms(rt, alloc, print, wanted, step);
    for error in REFUSALS {
        check_writers(rt, alloc, print, wanted, error);
    }
}

/// A tree in both layouts: that on one line is told, and the default one is that of `to_text`.
fn check_layouts<T: Syntax>(rt: &impl Abort, alloc: Global, tree: &T, line: &str, step: usize)
    requires { 0 < step }
{
    let print = Serialize::new(tree);
    check_layout(rt, alloc, print.no_indent(), line, step);
    let lines = print.to_text(alloc).expect(rt, "memory");
    check_layout(rt, alloc, print, lines.as_str(), step);
}

/// Into each sink, of each tree that comes.
#[derive(Drop)]
struct Sinks<'a, R: Abort> {
    rt: &'a R,
    alloc: Global,
}

impl<R: Abort> EachKind for Sinks<'_, R> {
    fn take<T: Clone + PartialEq + Hash + Display + Syntax + Drop>(
        &mut self,
        made: Result<T, AllocError>,
        line: &str,
    ) {
        let tree = made.expect(self.rt, "memory");
        check_layouts(self.rt, self.alloc, &tree, line, 1);
    }
}

/// The list of an enum value of so many letters and of itself, and its text on one line.
fn long(rt: &impl Abort, alloc: Global, length: usize) -> (Value, String) {
    let letters = "x".repeat(alloc, length).expect(rt, "memory");
    let name = Name::new(alloc, letters.as_str()).expect(rt, "a name");
    let node = Node::new(alloc, Value::Enum(name)).expect(rt, "memory");
    let copy = node.clone().expect(rt, "memory");
    let list = Value::List(vec![in alloc; node, copy].expect(rt, "memory"));
    let text = format!(in alloc; "[{letters}, {letters}]");
    (list, text.expect(rt, "memory"))
}

/// A small list, and a document of two definitions.
fn small<E: EachKind>(alloc: Global, each: &mut E) {
    each.take(
        value!(in alloc; [1, EXAMPLE, true, null]),
        "[1, EXAMPLE, true, null]",
    );
    each.take(type_and_query(alloc), "type A query { a }");
}

/// The document of all definitions.
fn check_document(rt: &impl Abort, alloc: Global) {
    let all = document(alloc).expect(rt, "memory");
    let line = document_line(alloc).expect(rt, "memory");
    check_layouts(rt, alloc, &all, line.as_str(), 1);
}

fn check_long(rt: &impl Abort, alloc: Global, length: usize) {
    let (list, wanted) = long(rt, alloc, length);
    let print = Serialize::new(&list).no_indent();
    check_layout(rt, alloc, print, wanted.as_str(), 61);
}

/// Of each kind; of a document of two definitions, and of one of all; and of texts that are longer than what is gathered before it is
/// sent, with pieces that are gathered and one that isn't.
#[test]
fn of_each_kind_and_of_long_texts(rt: HostRuntime) {
    let alloc = rt.alloc();
    let mut sinks = Sinks { rt: &rt, alloc };
    kinds::values(alloc, &mut sinks);
    kinds::executable(alloc, &mut sinks);
    kinds::types(alloc, &mut sinks);
    kinds::type_extensions(alloc, &mut sinks);
    kinds::definitions(alloc, &mut sinks);
    small(alloc, &mut sinks);
    check_document(&rt, alloc);
    for length in [700, 1100] {
        check_long(&rt, alloc, length);
    }
}
