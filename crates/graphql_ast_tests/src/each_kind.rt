//! The calls that each kind that is printed has, over a worked tree of each: clones, comparisons, hashes and prints.
use crate::checks::{check_case, check_equal};
use crate::kinds::{self, EachKind, document_line};
use graphql_ast::ast::{Document, Serialize, Value};
use graphql_ast::serialize::{PrintError, Syntax};
use graphql_ast::sink::{StreamSink, TextSink, VecSink};
use graphql_ast::{Name, name};
use std::alloc::{AllocError, Global};
use std::fmt::{self, Display, Write};
use std::hash::{DefaultHasher, Hash, Hasher};
use std::io::{self, Cursor};
use std::process::Abort;
use worked_trees::definitions::document;
use worked_trees::refused::Refused;

fn hash<T: Hash>(tree: &T) -> u64 {
    let mut hasher = DefaultHasher::default();
    tree.hash(&mut hasher);
    hasher.finish()
}

/// More bytes than any of the prints has.
const ROOM: usize = 8192;

/// A formatter that asks for no memory.
#[derive(Drop)]
struct Page {
    bytes: Cursor<[u8; ROOM]>,
}

impl fmt::Write for Page {
    fn write_str(&mut self, text: &str) -> fmt::Result {
        match io::Write::write(&mut self.bytes, text.as_bytes()) {
            Ok(count) if count == text.len() => Ok(()),
            _ => Err(fmt::Error),
        }
    }
}

fn check_taken(rt: &impl Abort, taken: Cursor<[u8; ROOM]>, wanted: &str) {
    check_case(rt, &wanted, taken.position(), wanted.len() as u64);
    assert!(rt;
        taken.into_inner().starts_with(wanted.as_bytes()),
        "{wanted}"
    );
}

/// A vector has all of the print; or nothing, if the print was refused memory; or a beginning, if the vector was.
fn check_vector<T: Syntax>(
    rt: &impl Abort,
    alloc: Global,
    refused: &mut Refused,
    print: &Serialize<'_, T>,
    line: &str,
) {
    let mut sink = VecSink::new(alloc);
    let answer = print.print_to(&mut sink);
    let bytes = sink.bytes();
    match answer {
        Ok(()) => assert!(rt; bytes == line.as_bytes(), "{line}"),
        Err(error) => {
            refused.add();
            let is_refused = error == PrintError::Memory && bytes.is_empty();
            assert!(rt; is_refused || error == PrintError::Sink, "{line}");
            assert!(rt; line.as_bytes().starts_with(bytes), "{line}");
        }
    }
    let faults = u64::from(answer == Err(PrintError::Sink));
    check_case(rt, &line, sink.faults(), faults);
}

/// A writer that asks for no memory has all of the print, or nothing if the print was refused memory.
fn check_writer<T: Syntax>(
    rt: &impl Abort,
    refused: &mut Refused,
    print: &Serialize<'_, T>,
    line: &str,
) {
    let mut sink = StreamSink::new(Cursor::new([0; ROOM]));
    let answer = print.print_to(&mut sink);
    if answer.is_err() {
        check_case(rt, &line, answer, Err(PrintError::Memory));
        refused.add();
    }
    check_case(rt, &line, sink.faults(), 0);
    let wanted = if answer.is_ok() { line } else { "" };
    check_taken(rt, sink.into_inner(), wanted);
}

/// What is displayed is the print, of a tree in the default layout; or nothing, if it was refused memory.
fn check_display<T: Display>(rt: &impl Abort, refused: &mut Refused, tree: &T, wanted: &str) {
    let mut page = Page {
        bytes: Cursor::new([0; ROOM]),
    };
    let answer = write!(page, "{tree}");
    if answer.is_err() {
        refused.add();
    }
    let wanted = if answer.is_ok() { wanted } else { "" };
    check_taken(rt, page.bytes, wanted);
}

/// What a print made, if it wasn't refused memory.
fn printed(
    rt: &impl Abort,
    refused: &mut Refused,
    answer: Result<String, PrintError>,
) -> Option<String> {
    match answer {
        Ok(text) => Some(text),
        Err(error) => {
            check_equal(rt, error, PrintError::Memory);
            refused.add();
            None
        }
    }
}

fn check_prints<T: Display + Syntax>(
    rt: &impl Abort,
    alloc: Global,
    refused: &mut Refused,
    tree: &T,
    line: &str,
) {
    let print = Serialize::new(tree);
    let flat = print.no_indent();
    if let Some(text) = printed(rt, refused, flat.to_text(alloc)) {
        check_equal(rt, text.as_str(), line);
    }
    check_vector(rt, alloc, refused, &flat, line);
    check_writer(rt, refused, &flat, line);
    check_display(rt, refused, &flat, line);
    if let Some(lines) = printed(rt, refused, print.to_text(alloc)) {
        check_display(rt, refused, tree, lines.as_str());
    }
}

/// A tree and its text on one line: each call on it is whole or refused, its clone is equal to it and hashes and prints
/// alike, and the tree stays as it was. The clone is returned.
fn check_tree<T: Clone + PartialEq + Hash + Display + Syntax + Drop>(
    rt: &impl Abort,
    alloc: Global,
    refused: &mut Refused,
    tree: &T,
    line: &str,
) -> Option<T> {
    let before = hash(tree);
    check_prints(rt, alloc, refused, tree, line);
    let copy = refused.made(tree.clone())?;
    assert!(rt; copy == *tree && *tree == copy, "{line}");
    check_writer(rt, refused, &Serialize::new(&copy).no_indent(), line);
    check_case(rt, &line, (hash(&copy), hash(tree)), (before, before));
    Some(copy)
}

/// The calls on each tree that comes, of which so many were refused memory.
#[derive(Drop)]
pub(crate) struct Calls<'a, R: Abort> {
    rt: &'a R,
    alloc: Global,
    pub(crate) refused: Refused,
}

impl<R: Abort> Calls<'_, R> {
    pub(crate) fn new(rt: &R, alloc: Global) -> Calls<'_, R> {
        Calls {
            rt,
            alloc,
            refused: Refused::none(),
        }
    }
}

impl<R: Abort> EachKind for Calls<'_, R> {
    fn take<T: Clone + PartialEq + Hash + Display + Syntax + Drop>(
        &mut self,
        made: Result<T, AllocError>,
        line: &str,
    ) {
        if let Some(tree) = self.refused.made(made) {
            check_tree(self.rt, self.alloc, &mut self.refused, &tree, line);
        }
    }
}

/// The document of all definitions, whose source is kept.
pub(crate) fn check_document(rt: &impl Abort, alloc: Global, refused: &mut Refused) {
    let Some(line) = refused.made(document_line(alloc)) else {
        return;
    };
    let Some(document) = refused.made(document(alloc)) else {
        return;
    };
    if let Some(copy) = check_tree(rt, alloc, refused, &document, line.as_str()) {
        check_sources(rt, &document, &copy);
    }
}

fn check_sources(rt: &impl Abort, document: &Document, copy: &Document) {
    for (file, source) in document.sources.iter() {
        assert!(rt; copy.sources.get(file) == Some(source));
    }
    check_equal(rt, (document.sources.len(), copy.sources.len()), (1, 1));
}

/// Memory is ample, so each call has to be whole.
#[test]
fn calls_of_each_kind_are_whole(rt: HostRuntime) {
    let alloc = rt.alloc();
    let mut calls = Calls::new(&rt, alloc);
    kinds::values(alloc, &mut calls);
    kinds::executable(alloc, &mut calls);
    kinds::types(alloc, &mut calls);
    kinds::type_extensions(alloc, &mut calls);
    kinds::definitions(alloc, &mut calls);
    check_document(&rt, alloc, &mut calls.refused);
    check_equal(&rt, calls.refused.calls, 0);
}

/// A name in the program, in a block of its own and in place is the same enum value.
#[test]
fn how_a_name_is_kept_is_neither_compared_nor_hashed(rt: HostRuntime) {
    let fixed = Value::Enum(name!(A));
    for made in [Name::new(rt.alloc(), "A"), Name::compact(rt.alloc(), "A")] {
        let value = Value::Enum(made.expect(&rt, "memory"));
        assert!(rt; value == fixed && fixed == value);
        check_equal(&rt, hash(&value), hash(&fixed));
    }
}
