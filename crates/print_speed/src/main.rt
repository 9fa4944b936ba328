//! `print_speed TREE COUNT ROUNDS LAYOUT TARGET NAMES LISTS` builds trees and prints them again and again, so that the cost
//! of a print, and of a tree, can be measured: the instructions of one print are those of a run with one round more, less those of
//! the other.
//!
//! - TREE: `objects` (a list of COUNT objects with values of every kind), `texts` (a list of COUNT plain strings of 80 bytes),
//!   `escapes` (a list of COUNT strings of 80 bytes, of which each second is a line feed), `nested` (COUNT lists in one another), `operations` (COUNT queries of three levels), `types` (COUNT object types of ten
//!   fields), `queries`, `schema` (one document of COUNT such queries or types) or `document` (one of COUNT such types and as
//!   many such queries). Operations and types are printed one after another, each into a text of its own, or all into one sink.
//! - LAYOUT: `default`, `one_line`, or `two_tabs`, which has the bytes of the default layout with two tabs for each prefix.
//! - TARGET: `text`, `sink` (a `VecSink`) or `stream` (a `StreamSink` over a vector).
//! - NAMES: `own` (each has memory of its own), `compact` (each of up to 18 bytes stands in place), `shared` (equal ones
//!   share memory) or `static`.
//! - LISTS: `grown` (by pushes) or `exact` (with room for what they hold, and no more).
//!
//! It prints the bytes of one round.
#![tactic(auto)]

ghost use Rattle.graphql_text.specs.code.Sinks.{CanFault};

mod documents;
mod operations;
mod trees;
mod types;

use crate::documents::Contents;
use crate::trees::{Builder, Naming};
use graphql_text::engine::{PrintError, Serialize, Syntax};
use graphql_text::sink::{StreamSink, TextSink, VecSink};
use std::alloc::{AllocError, Global};
use std::env::Env;
use std::process::ExitCode;
use thiserror::Error;

/// Why nothing was printed.
#[derive(Debug, Drop, Error)]
enum SpeedError {
    #[error("usage: print_speed objects|texts|escapes|nested|operations|types|queries|schema|document COUNT ROUNDS default|one_line|two_tabs text|sink|stream own|compact|shared|static grown|exact")]
    Usage,
    #[error("out of memory")]
    Memory,
    #[error("{0}")]
    Print(PrintError),
}

impl From<AllocError> for SpeedError {
    fn from(_: AllocError) -> SpeedError {
        SpeedError::Memory
    }
}

impl From<PrintError> for SpeedError {
    fn from(error: PrintError) -> SpeedError {
        SpeedError::Print(error)
    }
}

/// What is printed.
#[derive(Clone, Copy)]
enum Tree {
    Objects,
    Texts,
    Escapes,
    Nested,
    Operations,
    Types,
    Queries,
    Schema,
    Document,
}

/// How it is laid out.
#[derive(Clone, Copy)]
enum Layout {
    Default,
    OneLine,
    TwoTabs,
}

/// What it is printed to.
#[derive(Clone, Copy)]
enum Target {
    Text,
    Sink,
    Stream,
}

/// What is built, and how often it is printed to what.
#[derive(Clone, Copy)]
struct Task {
    tree: Tree,
    count: usize,
    rounds: usize,
    layout: Layout,
    target: Target,
    naming: Naming,
    exact: bool,
}

/// The word at a place after the program's name, in a buffer.
fn word<'b, R: Env>(env: &R, place: usize, buffer: &'b mut [u8]) -> Option<&'b str> {
    let len = env.arg(place, buffer).ok()?;
    str::from_utf8(&buffer[..len]).ok()
}

/// Which of some words stands at a place.
fn choice<R: Env, T: Copy>(env: &R, place: usize, choices: &[(&str, T)]) -> Option<T> {
    let mut buffer = [0u8; 16];
    let word = word(env, place, &mut buffer)?;
    for (name, value) in choices {
        if *name == word {
            return Some(*value);
        }
    }
    None
}

/// The number at a place.
fn number<R: Env>(env: &R, place: usize) -> Option<usize> {
    let mut buffer = [0u8; 24];
    word(env, place, &mut buffer)?.parse().ok()
}

const TREES: [(&str, Tree); 9] = [
    ("objects", Tree::Objects),
    ("texts", Tree::Texts),
    ("escapes", Tree::Escapes),
    ("nested", Tree::Nested),
    ("operations", Tree::Operations),
    ("types", Tree::Types),
    ("queries", Tree::Queries),
    ("schema", Tree::Schema),
    ("document", Tree::Document),
];

const LAYOUTS: [(&str, Layout); 3] = [
    ("default", Layout::Default),
    ("one_line", Layout::OneLine),
    ("two_tabs", Layout::TwoTabs),
];

const TARGETS: [(&str, Target); 3] = [
    ("text", Target::Text),
    ("sink", Target::Sink),
    ("stream", Target::Stream),
];

const NAMES: [(&str, Naming); 4] = [
    ("own", Naming::Own),
    ("compact", Naming::Compact),
    ("shared", Naming::Shared),
    ("static", Naming::Static),
];

const LISTS: [(&str, bool); 2] = [("grown", false), ("exact", true)];

fn read_task<R: Env>(env: &R) -> Option<Task> {
    Some(Task {
        tree: choice(env, 1, &TREES)?,
        count: number(env, 2)?,
        rounds: number(env, 3)?,
        layout: choice(env, 4, &LAYOUTS)?,
        target: choice(env, 5, &TARGETS)?,
        naming: choice(env, 6, &NAMES)?,
        exact: choice(env, 7, &LISTS)?,
    })
}

/// A tree in a layout.
fn print_in<T>(layout: Layout, tree: &T) -> Serialize<'_, T> {
    let print = Serialize::new(tree);
    match layout {
        Layout::Default => print,
        Layout::OneLine => print.no_indent(),
        Layout::TwoTabs => print.indent_prefix("\t\t"),
    }
}

/// Prints each tree into a text of its own, and answers how many bytes these have together.
fn print_texts<T: Syntax>(alloc: Global, layout: Layout, trees: &[T]) -> Result<usize, PrintError> {
    let mut bytes: usize = 0;
    for tree in trees {
        let text = print_in(layout, tree).to_text(alloc)?;
        bytes = bytes.wrapping_add(text.len());
    }
    Ok(bytes)
}

/// Prints trees one after another into a sink.
fn print_all<T: Syntax, S: TextSink>(
    layout: Layout,
    trees: &[T],
    sink: &mut S,
) -> Result<(), PrintError>
    requires { CanFault (S.fault_count sink.old) }
{
    for tree in trees {
        print_in(layout, tree).print_to(sink)?;
    }
    Ok(())
}

/// The length of one print in bytes.
fn print_once<T: Syntax>(alloc: Global, task: &Task, trees: &[T]) -> Result<usize, PrintError> {
    match task.target {
        Target::Text => print_texts(alloc, task.layout, trees),
        Target::Sink => {
            let mut sink = VecSink::new(alloc);
            print_all(task.layout, trees, &mut sink)?;
            Ok(sink.bytes().len())
        }
        Target::Stream => {
            let mut sink = StreamSink::new(Vec::new(alloc));
            print_all(task.layout, trees, &mut sink)?;
            Ok(sink.into_inner().len())
        }
    }
}

/// The same after as many prints as the task asks for.
fn print_rounds<T: Syntax>(alloc: Global, task: &Task, trees: &[T]) -> Result<usize, SpeedError> {
    let mut bytes = 0;
    for _ in 0..task.rounds {
        bytes = print_once(alloc, task, trees)?;
    }
    Ok(bytes)
}

/// The length of one print of a document of so many definitions.
fn print_document(
    builder: &mut Builder,
    task: &Task,
    contents: Contents,
    definitions: usize,
) -> Result<usize, SpeedError> {
    print_rounds(
        builder.alloc,
        task,
        &[builder.document(contents, definitions)?],
    )
}

fn run(alloc: Global, task: &Task) -> Result<usize, SpeedError> {
    let mut builder = Builder::new(alloc, task.naming, task.exact);
    match task.tree {
        Tree::Objects => print_rounds(alloc, task, &[builder.objects(task.count)?]),
        Tree::Texts => print_rounds(alloc, task, &[builder.texts(task.count)?]),
        Tree::Escapes => print_rounds(alloc, task, &[builder.escapes(task.count)?]),
        Tree::Nested => print_rounds(alloc, task, &[builder.nested(task.count)?]),
        Tree::Operations => print_rounds(alloc, task, &builder.operations(task.count)?),
        Tree::Types => print_rounds(alloc, task, &builder.types(task.count)?),
        Tree::Queries => print_document(&mut builder, task, Contents::Queries, task.count),
        Tree::Schema => print_document(&mut builder, task, Contents::Types, task.count),
        Tree::Document => {
            print_document(
                &mut builder,
                task,
                Contents::Both,
                task.count.saturating_mul(2),
            )
        }
    }
}

fn main(rt: HostRuntime) -> ExitCode {
    let ran = match read_task(&rt) {
        Some(task) => run(rt.alloc(), &task),
        None => Err(SpeedError::Usage),
    };
    let told = match ran {
        Ok(bytes) => println!(rt; "{bytes} bytes").is_ok(),
        Err(error) => {
            let _told = eprintln!(rt; "{error}");
            false
        }
    };
    if told {
        ExitCode::SUCCESS
    } else {
        ExitCode::FAILURE
    }
}
