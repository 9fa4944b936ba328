//! `op_speed OPERATION ROUNDS` reads a document in AST JSON from standard input, and does something with it again and again,
//! so that its cost can be measured: the instructions of one round are those of a run with one round more, less those of the
//! other.
//!
//! OPERATION is
//!
//! - `read`: the tree is made of the text of its JSON, and dropped;
//! - `write`: the JSON of the tree is made, and its text;
//! - `write_text`: the text of the JSON of the tree is made, without a value between;
//! - `equal`: the tree is compared with one that was read apart, and so shares nothing with it;
//! - `clone`: the document is cloned, and the clone dropped;
//! - `well_formed`: whether the tree is well formed is found;
//! - `look_up`: each argument of each directive of a definition is looked up by its name;
//! - `print`: the tree is printed to a text, in the default layout;
//! - `walk`: each node of the tree is visited, and counted;
//! - `rebuild`: the document is rebuilt by a rewriter that changes nothing, since no field has the name that it looks for;
//! - `build`: another document of as many definitions is built by constructors and pushes, and forgotten, so that it is not dropped;
//! - `build_drop`: the same, and dropped;
//! - `build_print`: the same, but for a print to a text before it is dropped; the number is the length of that;
//! - `find_directive`, `find_argument`, `find_field`, `find_enum_value`, `find_variable`, `find_type`: the last item of a list of
//!   10,000 is looked up by its name.
//!
//! It prints a number that a round came to.
#![tactic(auto)]

ghost use Rattle.std.specs.Prelude.{⊤};

mod built;
mod lists;

use crate::built::build;
use crate::lists::{Items, Lists};
use anyhow::{Context, Result, bail};
use ast_json_text::to_ast_json_text;
use graphql_ast::ast::{Definition, Document};
use graphql_ast::name;
use graphql_ast::span::FileId;
use graphql_ast_json::{AstJson, from_ast_json_str};
use graphql_rewrite::rename_fields;
use graphql_visit::{NodeRef, Reader, read_document};
use std::alloc::Global;
use std::env::Env;
use std::io::{BufReader, Read};
use std::mem;

/// What is done in each round.
#[derive(Clone, Copy)]
enum Operation {
    Read,
    Write,
    WriteText,
    Equal,
    Clone,
    WellFormed,
    LookUp,
    Print,
    Walk,
    Rebuild,
    Build,
    BuildDrop,
    BuildPrint,
    Find(Items),
}

const OPERATIONS: [(&str, Operation); 19] = [
    ("read", Operation::Read),
    ("write", Operation::Write),
    ("write_text", Operation::WriteText),
    ("equal", Operation::Equal),
    ("clone", Operation::Clone),
    ("well_formed", Operation::WellFormed),
    ("look_up", Operation::LookUp),
    ("print", Operation::Print),
    ("walk", Operation::Walk),
    ("rebuild", Operation::Rebuild),
    ("build", Operation::Build),
    ("build_drop", Operation::BuildDrop),
    ("build_print", Operation::BuildPrint),
    ("find_directive", Operation::Find(Items::Directives)),
    ("find_argument", Operation::Find(Items::Arguments)),
    ("find_field", Operation::Find(Items::Fields)),
    ("find_enum_value", Operation::Find(Items::EnumValues)),
    ("find_variable", Operation::Find(Items::Variables)),
    ("find_type", Operation::Find(Items::Types)),
];

/// The word at an index of the command line, in a buffer.
fn word<'b, R: Env>(env: &R, index: usize, buffer: &'b mut [u8]) -> Option<&'b str> {
    let len = env.arg(index, buffer).ok()?;
    str::from_utf8(&buffer[..len]).ok()
}

fn read_operation<R: Env>(env: &R) -> Option<Operation> {
    let mut buffer = [0u8; 16];
    let word = word(env, 1, &mut buffer)?;
    for (name, operation) in OPERATIONS {
        if name == word {
            return Some(operation);
        }
    }
    None
}

fn rounds<R: Env>(env: &R) -> Option<usize> {
    let mut buffer = [0u8; 24];
    word(env, 2, &mut buffer)?.parse().ok()
}

fn read_tree(alloc: Global, text: &str) -> Result<Document> {
    Ok(from_ast_json_str(alloc, text, FileId::new(1))?)
}

/// How many arguments of a definition's directives are found by their names.
fn look_up(definition: &Definition) -> usize {
    let Some(directives) = definition.directives() else {
        return 0;
    };
    let mut found: usize = 0;
    for directive in directives.iter() {
        for argument in &directive.arguments {
            if directive
                .specified_argument_by_name(argument.name.as_str())
                .is_some()
            {
                found = found.wrapping_add(1);
            }
        }
    }
    found
}

fn look_up_all(document: &Document) -> usize {
    let mut found: usize = 0;
    for definition in &document.definitions {
        found = found.wrapping_add(look_up(definition));
    }
    found
}

/// How many nodes came.
#[derive(Clone, Copy)]
struct Count {
    nodes: usize,
}

impl Reader for Count {
    type Error = ();

    ghost reads = { λ node old result new. ⊤ };

    fn read(&mut self, _node: NodeRef<'_>) -> Result<(), ()> {
        self.nodes = self.nodes.wrapping_add(1);
        Ok(())
    }
}

fn nodes(document: &Document) -> usize {
    let mut count = Count { nodes: 0 };
    let _ = read_document(document, &mut count);
    count.nodes
}

/// What the operations are done to.
#[derive(Drop)]
struct Subject<'t> {
    text: &'t str,
    document: Document,
    /// The same document, which shares nothing with it.
    other: Document,
    lists: Lists,
}

impl<'t> Subject<'t> {
    fn read(alloc: Global, text: &'t str) -> Result<Subject<'t>> {
        Ok(Subject {
            text,
            document: read_tree(alloc, text)?,
            other: read_tree(alloc, text)?,
            lists: Lists::new(alloc)?,
        })
    }
}

/// How many definitions a document has that was built, and is never dropped.
fn build_and_forget(alloc: Global, definitions: usize) -> Result<usize> {
    let document = build(alloc, definitions)?;
    let count = document.definitions.len();
    mem::forget(document);
    Ok(count)
}

/// One round, and a number that it comes to.
fn round(alloc: Global, operation: Operation, subject: &Subject<'_>) -> Result<usize> {
    let document = &subject.document;
    let definitions = document.definitions.len();
    match operation {
        Operation::Read => Ok(read_tree(alloc, subject.text)?.definitions.len()),
        Operation::Write => Ok(document.to_ast_json(alloc)?.to_string(alloc)?.len()),
        Operation::WriteText => Ok(to_ast_json_text(alloc, document)?.len()),
        Operation::Equal => Ok((*document == subject.other) as usize),
        Operation::Clone => Ok(document.clone()?.definitions.len()),
        Operation::WellFormed => Ok(document.is_well_formed() as usize),
        Operation::LookUp => Ok(look_up_all(document)),
        Operation::Print => Ok(document.serialize().to_text(alloc)?.len()),
        Operation::Walk => Ok(nodes(document)),
        Operation::Rebuild => Ok(
            rename_fields(alloc, document, "no_such_field", &name!(a))?.is_some() as usize,
        ),
        Operation::Build => build_and_forget(alloc, definitions),
        Operation::BuildDrop => Ok(build(alloc, definitions)?.definitions.len()),
        Operation::BuildPrint => Ok(build(alloc, definitions)?.serialize().to_text(alloc)?.len()),
        Operation::Find(items) => Ok(subject.lists.finds_last(items) as usize),
    }
}

fn run(alloc: Global, operation: Operation, rounds: usize, text: &str) -> Result<usize> {
    let subject = Subject::read(alloc, text)?;
    let mut number = 0;
    for _ in 0..rounds {
        number = round(alloc, operation, &subject)?;
    }
    Ok(number)
}

fn main(rt: HostRuntime) -> Result<()> {
    let alloc = rt.alloc();
    let (Some(operation), Some(rounds)) = (read_operation(&rt), rounds(&rt)) else {
        bail!(
            "usage: op_speed OPERATION ROUNDS < DOCUMENT.json, with an OPERATION of those at the head of src/main.rt"
        );
    };
    let mut text = String::new(alloc);
    BufReader::new(alloc, rt.reader())?.read_to_string(&mut text)?;
    let number = run(alloc, operation, rounds, &text).context("the document in AST JSON")?;
    println!(rt; "{number}")?;
    Ok(())
}
