//! The stored vectors: trees, each with the layout that it is printed in.
ghost use Rattle.std.specs.Prelude.{◌≡◌, ◌≤◌, ◌≢◌, ◌↔◌, false, IfErr, IfOk, IsErrOf, IsSome, IsTrue, OnErr, OnOk};
ghost use Rattle.std.specs.Io.KnownBytes.{Appends};
ghost use Rattle.graphql_ast.specs.Sinks.{CanFault};
ghost use Rattle.ast_vectors.specs.Runs.{GrowsByLine, is_vector_number, line_of, mode_of, name_a_vector, vector_line};
ghost use Rattle.ast_vectors.specs.VectorTrees.{vector_tree};

mod documents;
mod executable;
mod type_system;
mod values;

use graphql_ast::ast::{
    DirectiveDefinition, Document, FieldDefinition, ObjectTypeDefinition, OperationDefinition,
    ScalarTypeDefinition, Value,
};
use graphql_ast::serialize::{PrintError, Serialize, Syntax};
use graphql_ast::sink::{SinkFault, StreamSink, TextSink};
use graphql_ast::value;
use std::alloc::{AllocError, Global};
use std::io::Write;
use thiserror::Error;

/// Why no vector was printed, or not to its end.
#[derive(Debug, Drop, PartialEq, Eq, Error)]
pub enum VectorError {
    /// Not exactly one word, or one that is no vector's number.
    #[error("unknown vector")]
    Unknown,
    /// Memory for the words or the tree was refused.
    #[error("out of memory")]
    Memory,
    /// The print failed.
    #[error("{0}")]
    Print(PrintError),
    /// The line feed after the print failed.
    #[error("{0}")]
    Line(SinkFault),
}

impl VectorError {
    /// The exit status of a run that ends so.
    fn status(&self) -> u8
        ensures unknown { self.now ≡ VectorError.Unknown → result ≡ 2 }
        ensures failed { self.now ≢ VectorError.Unknown → result ≡ 1 }
    {
        match self {
            VectorError::Unknown => 2,
            VectorError::Memory | VectorError::Print(_) | VectorError::Line(_) => 1,
        }
    }
}

/// The tree of a vector.
#[derive(Drop)]
enum Tree {
    Value(Value),
    DirectiveDefinition(DirectiveDefinition),
    ScalarType(ScalarTypeDefinition),
    ObjectType(ObjectTypeDefinition),
    FieldDefinition(FieldDefinition),
    Operation(OperationDefinition),
    Document(Document),
}

/// The layout that a tree is printed in: the prefix of its lines, or none on one line, and the starting level.
#[derive(Clone, Copy)]
struct Layout {
    prefix: Option<&'static str>,
    level: usize,
}

/// Prints a tree of any kind, and a line feed.
fn print_line<T: Syntax, W: Write>(
    tree: &T,
    layout: Layout,
    sink: &mut StreamSink<W>,
) -> Result<(), VectorError>
    requires { CanFault (⟦<StreamSink<W> as TextSink>⟧.fault_count sink.old) }
    ensures printed { OnOk result (Appends
        (⟦<StreamSink<W> as TextSink>⟧.taken sink.old)
        (⟦<StreamSink<W> as TextSink>⟧.taken sink.new)
        (line_of T.kind (mode_of layout.prefix) layout.level (T.tree tree.now))) }
    ensures known { ¬ IsErrOf result VectorError.Unknown }
{
    let flat = Serialize::new(tree)
        .no_indent()
        .initial_indent_level(layout.level);
    let print = match layout.prefix {
        Some(prefix) => flat.indent_prefix(prefix),
        None => flat,
    };
    print.print_to(sink).map_err(VectorError::Print)?;
    sink.put(b"\n").map_err(VectorError::Line)?;
    Ok(())
}

impl Tree {
    /// Prints the tree, and a line feed.
    fn print<W: Write>(&self, layout: Layout, sink: &mut StreamSink<W>) -> Result<(), VectorError>
        requires { CanFault (⟦<StreamSink<W> as TextSink>⟧.fault_count sink.old) }
        ensures printed { OnOk result (Appends
            (⟦<StreamSink<W> as TextSink>⟧.taken sink.old)
            (⟦<StreamSink<W> as TextSink>⟧.taken sink.new)
            (vector_line (mode_of layout.prefix) layout.level (vector_tree self.now))) }
        ensures known { ¬ IsErrOf result VectorError.Unknown }
    {
        match self {
            Tree::Value(value) => print_line(value, layout, sink),
            Tree::DirectiveDefinition(definition) => print_line(definition, layout, sink),
            Tree::ScalarType(definition) => print_line(definition, layout, sink),
            Tree::ObjectType(definition) => print_line(definition, layout, sink),
            Tree::FieldDefinition(definition) => print_line(definition, layout, sink),
            Tree::Operation(definition) => print_line(definition, layout, sink),
            Tree::Document(document) => print_line(document, layout, sink),
        }
    }
}

/// The tree of the vector of a number, if there is one.
fn find_tree(alloc: Global, number: &str) -> Result<Option<Tree>, AllocError>
    ensures ok { IfOk result (λ tree. IsSome tree ↔ IsTrue (is_vector_number number.now)) }
    ensures err { OnErr result (IsTrue (is_vector_number number.now)) }
{
    Ok(Some(match number {
        "1" => Tree::Value(value!(in alloc; [1, EXAMPLE, true, null])?),
        "2" => Tree::Value(values::object_of_fields(alloc)?),
        "3" => Tree::Value(Value::from_text(alloc, "\u{1}\t\u{7F}")?),
        "4" | "5" => Tree::Value(Value::from_text(alloc, "a\nb")?),
        "6" => Tree::Value(values::list_of_string(alloc, "a\n\n b")?),
        "7" => Tree::ScalarType(type_system::scalar(alloc, "say \"hi\"")?),
        "8" => Tree::ScalarType(type_system::scalar(alloc, "x\\\"\"\"y")?),
        "9" | "10" => Tree::Document(documents::type_and_query(alloc)?),
        "11" | "12" | "16" => Tree::Operation(executable::anonymous_query(alloc)?),
        "13" => Tree::Document(documents::document_with_directive(alloc)?),
        "14" => Tree::DirectiveDefinition(type_system::directive_definition(alloc)?),
        "15" => Tree::Value(Value::Null),
        "17" => Tree::ObjectType(type_system::object_with_field(alloc)?),
        "18" => Tree::Operation(executable::query_of_all_selections(alloc)?),
        "19" => Tree::FieldDefinition(type_system::field_with_argument(alloc)?),
        "20" => Tree::Value(value!(in alloc; [1])?),
        "21" => Tree::Operation(executable::query_with_described_variable(alloc)?),
        "22" => Tree::Document(documents::type_and_described_query(alloc)?),
        _ => return Ok(None),
    }))
}

/// The layout of the vector of a number: the default one, unless it has one of its own.
fn layout_of(number: &str) -> Layout {
    let (prefix, level) = match number {
        "1" | "5" | "10" | "13" | "22" => (None, 0),
        "11" => (Some("  "), 1),
        "12" => (Some(""), 1),
        "15" | "16" => (None, usize::MAX),
        "20" => (Some(">"), 1),
        _ => (Some("  "), 0),
    };
    Layout { prefix, level }
}

/// Prints the vector of a number.
fn print_vector<W: Write>(
    alloc: Global,
    number: &str,
    sink: &mut StreamSink<W>,
) -> Result<(), VectorError>
    requires { CanFault (⟦<StreamSink<W> as TextSink>⟧.fault_count sink.old) }
    ensures printed { OnOk result (GrowsByLine
        (⟦<StreamSink<W> as TextSink>⟧.taken sink.old)
        (⟦<StreamSink<W> as TextSink>⟧.taken sink.new)) }
    ensures unknown { IsErrOf result VectorError.Unknown ↔ (is_vector_number number.now ≡ false) }
    ensures untouched { IsErrOf result VectorError.Unknown → sink.new ≡ sink.old }
{
    match find_tree(alloc, number) {
        Ok(Some(tree)) => tree.print(layout_of(number), sink),
        Ok(None) => Err(VectorError::Unknown),
        Err(_) => Err(VectorError::Memory),
    }
}

/// Reports an error on a line of its own, and answers the status of a run that ends so. A refused write changes no status.
pub fn report<E: Write>(error: VectorError, mut err: E) -> (u8, E)
    ensures unknown { error ≡ VectorError.Unknown → result.0 ≡ 2 }
    ensures failed { error ≢ VectorError.Unknown → result.0 ≡ 1 }
{
    let _ = writeln!(err, "{error}");
    (error.status(), err)
}

/// Runs the program on the words after its name: prints the vector whose number is the one word, and a line feed, on `out`.
///
/// It answers the exit status and both writers: 0 after a whole print, 2 if there isn't exactly one word or it is no vector's
/// number, and 1 if the print, the line feed or memory failed; the error stands on a line of `err`.
pub fn run_vectors<W: Write, E: Write>(
    alloc: Global,
    words: &[String],
    out: W,
    err: E,
) -> (u8, W, E)
    ensures status { result.0 ≤ 2 }

    // Other words than a vector's number, and only they: nothing is written on `out`.
    ensures unknown { (result.0 ≡ 2) ↔ (name_a_vector words.now ≡ false) }
    ensures untouched { result.0 ≡ 2 → W.contents result.1 ≡ W.contents out }

    // A whole print: a tree's layout and a line feed are written on `out`, and nothing on `err`.
    ensures printed { result.0 ≡ 0 → GrowsByLine (W.contents out) (W.contents result.1) }
    ensures silent { result.0 ≡ 0 → result.2 ≡ err }
{
    let [word] = words else {
        let (status, err) = report(VectorError::Unknown, err);
        return (status, out, err);
    };
    let mut sink = StreamSink::new(out);
    let printed = print_vector(alloc, word.as_str(), &mut sink);
    let out = sink.into_inner();
    match printed {
        Ok(()) => (0, out, err),
        Err(error) => {
            let (status, err) = report(error, err);
            (status, out, err)
        }
    }
}

/// The same on the words that were read, or `out of memory` on `err`, and the status 1, where memory for them was refused.
pub fn run_words<W: Write, E: Write>(
    alloc: Global,
    words: Result<Vec<String>, AllocError>,
    out: W,
    err: E,
) -> (u8, W, E)
    ensures refused { IfErr words (λ error. result.0 ≡ 1) }
    ensures untouched { IfErr words (λ error. result.1 ≡ out) }
    ensures run { IfOk words (λ words. (result.0 ≡ 2) ↔ (name_a_vector words.items ≡ false)) }
    ensures printed { result.0 ≡ 0 → GrowsByLine (W.contents out) (W.contents result.1) }
{
    match words {
        Ok(words) => run_vectors(alloc, &words, out, err),
        Err(AllocError) => {
            let (status, err) = report(VectorError::Memory, err);
            (status, out, err)
        }
    }
}

#[cfg(test)]
mod tests;
