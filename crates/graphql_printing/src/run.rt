//! A run of the program.
ghost use Rattle.std.specs.Prelude.{◌≡◌, IsErrOf, OnOk};
ghost use Rattle.graphql_ast.specs.AstTrees.{document_tree};
ghost use Rattle.graphql_ast.specs.Documents.{document_kind};
ghost use Rattle.graphql_ast.specs.Levels.{Overflows};
ghost use Rattle.graphql_printing.specs.Outcomes.{EndsWith, outcome_of_error};
ghost use Rattle.graphql_printing.specs.Printing.{Does};

use crate::ast_json::write_json;
use crate::input::read_document;
use crate::options::{Lines, Options, Task};
use crate::outcome::Outcome;
use crate::print::print_document;
use crate::refusal::tell;
use graphql_ast::ast::Document;
use graphql_ast::document::SourceFile;
use graphql_ast::serialize::PrintError;
use std::alloc::Global;
use std::io::{Read, Write};

/// The spaces for each level of JSON.
fn width_of(lines: Lines) -> u8 {
    match lines {
        Lines::Spaces(width) => width,
        Lines::Tabs | Lines::OneLine => 2,
    }
}

/// Does with a document what is asked for.
fn write_document<W: Write>(
    alloc: Global,
    options: &Options,
    document: &Document,
    out: W,
) -> (Result<(), PrintError>, W)
    ensures done { OnOk result.0 (Does options.now.task options.now
        (W.contents out) (W.contents result.1) (document_tree document.now)) }
    ensures overflow { IsErrOf result.0 PrintError.LevelOverflow →
        Overflows options.now.level (document_kind.nesting (document_tree document.now)) }
    ensures printed { IsErrOf result.0 PrintError.LevelOverflow → options.now.task ≡ Task.Print }
    ensures untouched { IsErrOf result.0 PrintError.LevelOverflow →
        W.contents result.1 ≡ W.contents out }
    ensures memory { IsErrOf result.0 PrintError.Memory → W.contents result.1 ≡ W.contents out }
    ensures fault { IsErrOf result.0 PrintError.Sink → ¬ (options.now.task ≡ Task.Check) }
{
    match options.task {
        Task::Print => print_document(alloc, options, document, out),
        Task::Check => (Ok(()), out),
        Task::WriteJson => write_json(alloc, None, document, out),
        Task::WritePrettyJson => write_json(alloc, Some(width_of(options.lines)), document, out),
    }
}

/// Reports that a document was not written, and answers how the run ends. A refused write changes nothing.
fn report_error<E: Write>(name: &str, error: PrintError, err: &mut E) -> Outcome
    ensures { result ≡ outcome_of_error error }
{
    tell(name, error, err);
    match error {
        PrintError::LevelOverflow => Outcome::LevelOverflow,
        PrintError::Memory => Outcome::Memory,
        PrintError::Sink => Outcome::WriterFailed,
    }
}

/// Runs the program: reads AST JSON to the reader's end, and then does with its document what is asked for.
///
/// - `name`: what messages call the reader. `source`: the GraphQL text that the locations of the JSON speak of, by UTF-16
///   code units as graphql-js counts them, if it is at hand: messages tell its lines and columns.
/// - `out`: where the print goes, in several writes, and then a flush. `err`: where messages go, a line for each thing
///   that is wrong, as in ``graphql_print: a.json: at `definitions[0].name`: found a number where an object was wanted``.
///   A message that `err` refuses changes nothing.
///
/// It returns how the run ended, and both writers. `Outcome::Done`: the document passes, and what was asked for was
/// done: what was printed is its layout, and is read as it, and as no other. Else nothing was written, unless the
/// writer failed.
///
/// ```
/// let (outcome, out, err) = run_print(alloc, &options, "a.json", file, None, rt.stdout(), rt.stderr());
/// ExitCode::from(outcome.status())
/// ```
#[tactic(auto, using(crate::proofs::Refused::ends))]
pub fn run_print<R: Read + Drop, W: Write, E: Write>(
    alloc: Global,
    options: &Options,
    name: &str,
    input: R,
    source: Option<&SourceFile>,
    out: W,
    mut err: E,
) -> (Outcome, W, E)
    ensures ends { EndsWith options.now (R.remaining input)
        (W.contents out) (W.contents result.1) result.0 }
    ensures silent { result.0 ≡ Outcome.Done → result.2 ≡ err }
{
    let document = match read_document(alloc, options, input, source) {
        Ok(document) => document,
        Err(refusal) => {
            let outcome = refusal.report(name, &mut err);
            return (outcome, out, err);
        }
    };
    let (written, out) = write_document(alloc, options, &document, out);
    match written {
        Ok(()) => (Outcome::Done, out, err),
        Err(error) => {
            let outcome = report_error(name, error, &mut err);
            (outcome, out, err)
        }
    }
}
