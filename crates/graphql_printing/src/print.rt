//! Documents as GraphQL text.
ghost use Rattle.std.specs.Prelude.{◌≡◌, IfOk, IsErrOf, None, OnOk, Some, chars, option_map};
ghost use Rattle.std.specs.Io.KnownBytes.{Appends};
ghost use Rattle.graphql_ast.specs.AstTrees.{document_tree};
ghost use Rattle.graphql_ast.specs.Documents.{document_kind};
ghost use Rattle.graphql_ast.specs.Levels.{Overflows};
ghost use Rattle.graphql_ast.specs.Sinks.{CanFault};
ghost use Rattle.graphql_printing.specs.Printing.{Prints, lines_bytes, mode_of, prefix_chars};

use crate::flush::flushed;
use crate::options::{Lines, Options};
use graphql_ast::ast::Document;
use graphql_ast::serialize::PrintError;
use graphql_ast::sink::{StreamSink, TextSink};
use std::alloc::{AllocError, Global};
use std::io::Write;

/// The prefix of the lines for each level, or none on one line.
#[tactic(auto, using(crate::proofs::PrintedLines::spaces_chars, crate::proofs::PrintedLines::tab_chars))]
fn prefix_of(alloc: Global, lines: Lines) -> Result<Option<String>, AllocError>
    ensures { IfOk result (λ prefix. option_map prefix_chars prefix ≡ mode_of lines) }
{
    match lines {
        Lines::Spaces(width) => Ok(Some(" ".repeat(alloc, usize::from(width))?)),
        Lines::Tabs => Ok(Some(String::from_str(alloc, "\t")?)),
        Lines::OneLine => Ok(None),
    }
}

/// Prints a document over several lines.
fn print_lines<W: Write>(
    document: &Document,
    prefix: &str,
    level: usize,
    sink: &mut StreamSink<W>,
) -> Result<(), PrintError>
    requires { CanFault (⟦<StreamSink<W> as TextSink>⟧.fault_count sink.old) }
    ensures printed { OnOk result (Appends
        (⟦<StreamSink<W> as TextSink>⟧.taken sink.old)
        (⟦<StreamSink<W> as TextSink>⟧.taken sink.new)
        (lines_bytes (Some (chars prefix.now)) level (document_tree document.now))) }
    ensures overflow { IsErrOf result PrintError.LevelOverflow →
        Overflows level (document_kind.nesting (document_tree document.now)) }
    ensures untouched { IsErrOf result PrintError.LevelOverflow → sink.new ≡ sink.old }
    ensures memory { IsErrOf result PrintError.Memory → sink.new ≡ sink.old }
{
    document
        .serialize()
        .indent_prefix(prefix)
        .initial_indent_level(level)
        .print_to(sink)
}

/// Prints a document on one line, and a line feed.
fn print_line<W: Write>(
    document: &Document,
    level: usize,
    sink: &mut StreamSink<W>,
) -> Result<(), PrintError>
    requires { CanFault (⟦<StreamSink<W> as TextSink>⟧.fault_count sink.old) }
    ensures printed { OnOk result (Appends
        (⟦<StreamSink<W> as TextSink>⟧.taken sink.old)
        (⟦<StreamSink<W> as TextSink>⟧.taken sink.new)
        (lines_bytes None level (document_tree document.now))) }
    ensures overflow { IsErrOf result PrintError.LevelOverflow →
        Overflows level (document_kind.nesting (document_tree document.now)) }
    ensures untouched { IsErrOf result PrintError.LevelOverflow → sink.new ≡ sink.old }
    ensures memory { IsErrOf result PrintError.Memory → sink.new ≡ sink.old }
{
    document
        .serialize()
        .no_indent()
        .initial_indent_level(level)
        .print_to(sink)?;
    match sink.put(b"\n") {
        Ok(_) => Ok(()),
        Err(_) => Err(PrintError::Sink),
    }
}

/// Prints a document under a prefix, or else on one line.
fn print_under<W: Write>(
    document: &Document,
    prefix: &Option<String>,
    level: usize,
    sink: &mut StreamSink<W>,
) -> Result<(), PrintError>
    requires { CanFault (⟦<StreamSink<W> as TextSink>⟧.fault_count sink.old) }
    ensures printed { OnOk result (Appends
        (⟦<StreamSink<W> as TextSink>⟧.taken sink.old)
        (⟦<StreamSink<W> as TextSink>⟧.taken sink.new)
        (lines_bytes (option_map prefix_chars prefix.now) level (document_tree document.now))) }
    ensures overflow { IsErrOf result PrintError.LevelOverflow →
        Overflows level (document_kind.nesting (document_tree document.now)) }
    ensures untouched { IsErrOf result PrintError.LevelOverflow → sink.new ≡ sink.old }
    ensures memory { IsErrOf result PrintError.Memory → sink.new ≡ sink.old }
{
    match prefix {
        Some(prefix) => print_lines(document, prefix.as_str(), level, sink),
        None => print_line(document, level, sink),
    }
}

/// Prints a document on a writer.
pub(crate) fn print_document<W: Write>(
    alloc: Global,
    options: &Options,
    document: &Document,
    out: W,
) -> (Result<(), PrintError>, W)
    ensures printed { OnOk result.0 (Prints options.now (W.contents out) (W.contents result.1)
        (document_tree document.now)) }
    ensures overflow { IsErrOf result.0 PrintError.LevelOverflow →
        Overflows options.now.level (document_kind.nesting (document_tree document.now)) }
    ensures untouched { IsErrOf result.0 PrintError.LevelOverflow →
        W.contents result.1 ≡ W.contents out }
    ensures memory { IsErrOf result.0 PrintError.Memory → W.contents result.1 ≡ W.contents out }
{
    let Ok(prefix) = prefix_of(alloc, options.lines) else {
        return (Err(PrintError::Memory), out);
    };
    let mut sink = StreamSink::new(out);
    let printed = print_under(document, &prefix, usize::from(options.level), &mut sink);
    flushed(printed, sink.into_inner())
}
