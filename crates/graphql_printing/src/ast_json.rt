//! Documents as AST JSON.
ghost use Rattle.std.specs.Prelude.{◌≡◌, ◌≤◌, IfOk, IsErrOf, IsTrue, OnOk, Some, string_bytes};
ghost use Rattle.serde_json.specs.Data.{depth};
ghost use Rattle.serde_json.specs.Read.{max_depth, read};
ghost use Rattle.serde_json.specs.View.{view};
ghost use Rattle.graphql_ast.specs.AstTrees.{document_tree};
ghost use Rattle.graphql_ast_json.specs.kinds.DocumentJson.{IsDocument};
ghost use Rattle.graphql_ast_calls.specs.Answers.{IsTextOf};
ghost use Rattle.graphql_printing.specs.Printing.{WritesJson};

use crate::flush::flushed;
use ast_json_text::to_ast_json_text;
use graphql_ast::ast::Document;
use graphql_ast::serialize::PrintError;
use graphql_ast_json::AstJson;
use serde_json::Value as Json;
use std::alloc::{AllocError, Global};
use std::io::Write;

/// A text of JSON in which each line has so many spaces for a level that stands there with two.
// No line ends within a string of JSON.
fn reindented(alloc: Global, text: &str, width: u8) -> Result<String, AllocError> {
    let mut out = String::new(alloc);
    for line in text.lines() {
        let rest = line.trim_start_matches(' ');
        let level = line.len().saturating_sub(rest.len()) / 2;
        let indent = " ".repeat(alloc, level.saturating_mul(usize::from(width)))?;
        let separator = if out.is_empty() { "" } else { "\n" };
        out.push_str(separator)?;
        out.push_str(indent.as_str())?;
        out.push_str(rest)?;
    }
    Ok(out)
}

/// Whether what is read of a text is written as another text over several lines.
fn is_written_as(alloc: Global, text: &str, pretty: &str) -> Result<bool, AllocError>
    ensures { IfOk result (λ is. IsTrue is → read text.now ≡ read pretty.now) }
{
    match Json::from_str(alloc, text) {
        Ok(json) => Ok(json.to_string_pretty(alloc)?.as_str() == pretty),
        Err(error) if error.is_memory() => Err(AllocError),
        Err(_) => Ok(false),
    }
}

/// The text of JSON over several lines, with so many spaces for each level.
// The writer of JSON indents by two spaces. Its text is laid out anew, and read back: one that were read otherwise would
// not be taken.
fn pretty_text(alloc: Global, width: u8, json: &Json) -> Result<String, AllocError>
    ensures { IfOk result (λ text. depth (view json.now) ≤ max_depth
        → read (string_bytes text) ≡ Some (view json.now)) }
{
    let pretty = json.to_string_pretty(alloc)?;
    if width == 2 {
        return Ok(pretty);
    }
    let text = reindented(alloc, pretty.as_str(), width)?;
    if is_written_as(alloc, text.as_str(), pretty.as_str())? {
        Ok(text)
    } else {
        Ok(pretty)
    }
}

/// The text of a document's JSON over several lines, with so many spaces for each level.
fn indented_text(alloc: Global, width: u8, document: &Document) -> Result<String, AllocError>
    ensures { IfOk result (λ text. IsTextOf IsDocument (document_tree document.now)
        (string_bytes text)) }
{
    let json = document.to_ast_json(alloc)?;
    let text = pretty_text(alloc, width, &json)?;
    Ok(text)
}

/// The text of a document's JSON on one line.
fn compact_text(alloc: Global, document: &Document) -> Result<String, AllocError>
    ensures { IfOk result (λ text. IsTextOf IsDocument (document_tree document.now)
        (string_bytes text)) }
{
    let text = to_ast_json_text(alloc, document)?;
    Ok(text)
}

/// The text of a document's JSON, on one line, or with so many spaces for each level.
fn json_text(alloc: Global, width: Option<u8>, document: &Document) -> Result<String, AllocError>
    ensures { IfOk result (λ text. IsTextOf IsDocument (document_tree document.now)
        (string_bytes text)) }
{
    match width {
        Some(width) => indented_text(alloc, width, document),
        None => compact_text(alloc, document),
    }
}

/// Writes a document's JSON, on one line or with so many spaces for each level, and a line feed.
pub(crate) fn write_json<W: Write>(
    alloc: Global,
    width: Option<u8>,
    document: &Document,
    mut out: W,
) -> (Result<(), PrintError>, W)
    ensures written { OnOk result.0 (WritesJson (W.contents out) (W.contents result.1)
        (document_tree document.now)) }
    ensures level { ¬ IsErrOf result.0 PrintError.LevelOverflow }
    ensures memory { IsErrOf result.0 PrintError.Memory →
        W.contents result.1 ≡ W.contents out }
{
    let Ok(mut text) = json_text(alloc, width, document) else {
        return (Err(PrintError::Memory), out);
    };
    if text.push('\n').is_err() {
        return (Err(PrintError::Memory), out);
    }
    match out.write_all(text.as_bytes()) {
        Ok(()) => flushed(Ok(()), out),
        Err(_) => (Err(PrintError::Sink), out),
    }
}
