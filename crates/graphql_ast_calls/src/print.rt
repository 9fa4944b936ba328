//! Documents and values as GraphQL text.
ghost use Rattle.std.specs.Prelude.{◌≡◌, ◌↔◌, IfNone, IfSome, IsTrue};
ghost use Rattle.graphql_ast.specs.BlockStringValue.{is_blank};
ghost use Rattle.graphql_ast.specs.Layout.{IsBlankMode};
ghost use Rattle.graphql_text.specs.code.Place.{mode_of as prefix_mode};
ghost use Rattle.graphql_ast.specs.Documents.{document_kind};
ghost use Rattle.graphql_ast.specs.Values.{value_kind};
ghost use Rattle.graphql_ast_json.specs.kinds.DocumentJson.{IsDocument};
ghost use Rattle.graphql_ast_json.specs.kinds.ValueJson.{IsValue};
ghost use Rattle.graphql_ast_calls.specs.Messages.{HasMessage};
ghost use Rattle.graphql_ast_calls.specs.Answers.{IsWrongPrefix, PrintAnswer, TreePrintAnswer, mode_of, reading};

use crate::buffer::print_tree;
use crate::message::{put_message, put_out_of_memory};
use crate::read::read_well_formed_tree;
use crate::status::Status;
use graphql_ast::ast::{Document, Value};
use graphql_text::engine::{PrintError, Syntax};
use std::alloc::Global;

/// Whether the bytes are spaces and tabs.
fn is_blank(bytes: &[u8]) -> bool
    ensures { result ≡ is_blank bytes.now }
{
    for byte in bytes {
        if *byte != b' ' && *byte != b'\t' {
            return false;
        }
    }
    true
}

/// The layout that a caller asks for: over several lines under a prefix, or on one line. `None` where the prefix has
/// other bytes than spaces and tabs.
#[tactic(auto, using(crate::proofs::Prefixes::blank_chars, crate::proofs::Prefixes::blank_utf8))]
fn layout_prefix(broken: bool, prefix: &[u8]) -> Option<Option<&str>>
    ensures mode { IfSome result (λ found. prefix_mode found ≡ mode_of broken prefix.now) }
    ensures blank { IfSome result (λ found. IsBlankMode (mode_of broken prefix.now)) }
    ensures wrong { IfNone result (IsWrongPrefix broken prefix.now) }
{
    if !broken {
        return Some(None);
    }
    if !is_blank(prefix) {
        return None;
    }
    match str::from_utf8(prefix) {
        Ok(prefix) => Some(Some(prefix)),
        Err(_) => None,
    }
}

/// Tells that the prefix has other bytes than spaces and tabs.
fn wrong_prefix(out: &mut [u8], needed: &mut usize) -> Status
    ensures status { result ≡ Status.WrongPrefix }
    ensures message { HasMessage out.old out.new needed.new }
{
    put_message(
        "the prefix has other bytes than spaces and tabs",
        out,
        needed,
    );
    Status::WrongPrefix
}

/// Prints a well-formed tree into a buffer.
fn print_well_formed<T: Syntax>(
    tree: &T,
    prefix: Option<&str>,
    level: usize,
    out: &mut [u8],
    needed: &mut usize,
) -> Status
    requires well_formed { IsTrue (T.kind.obeys (T.tree tree.now)) }
    requires blank { IsBlankMode (prefix_mode prefix) }
    ensures { TreePrintAnswer T.kind (prefix_mode prefix.entry) level
        out.old out.new needed.new (T.tree tree.now) result }
{
    match print_tree(tree, prefix, level, out) {
        Ok(count) => {
            *needed = count;
            if count <= out.len() {
                Status::Done
            } else {
                Status::TooShort
            }
        }
        Err(PrintError::LevelOverflow) => {
            put_message("indentation level overflow", out, needed);
            Status::LevelOverflow
        }
        Err(_) => put_out_of_memory(out, needed),
    }
}

/// A document in AST JSON (`Document`, section 2.2) as GraphQL text.
///
/// - `json`: the JSON, in UTF-8.
/// - `broken`: whether the text has several lines, each of which begins with the prefix as often as its level. Else it
///   has one line, and the prefix isn't read.
/// - `prefix`: spaces and tabs. `level`: the level that the text begins at.
/// - `pass_over`: whether a member that no node of its kind has is passed over. Else the JSON is refused.
/// - `out`: where the text goes, or a message. `needed`: how many bytes that has, `usize::MAX` for more.
///
/// `Done`: the text stands at the front of `out`, and is read as the document that the JSON is of, and as no other.
/// `TooShort`: it doesn't fit, and nothing is said of `out`. Else a message stands there, cut on a character to what
/// fits: `WrongPrefix` exactly where the prefix has other bytes, which is looked at first; `NotJson`, `NoTree`,
/// `IllFormed` and `LevelOverflow` where that is so; `OutOfMemory` if an allocation fails.
///
/// ```
/// let json = b"{\"kind\":\"Document\",\"definitions\":[]}";
/// print_json(alloc, json, true, b"  ", 0, false, &mut out, &mut needed) // IllFormed
/// ```
pub fn print_json(
    alloc: Global,
    json: &[u8],
    broken: bool,
    prefix: &[u8],
    level: usize,
    pass_over: bool,
    out: &mut [u8],
    needed: &mut usize,
) -> Status
    ensures prefix { result ≡ Status.WrongPrefix ↔ IsWrongPrefix broken prefix.now }
    ensures answer { PrintAnswer document_kind (IsDocument (reading pass_over)) json.now
        (mode_of broken prefix.now) level out.old out.new needed.new result }
{
    let Some(prefix) = layout_prefix(broken, prefix) else {
        return wrong_prefix(out, needed);
    };
    match read_well_formed_tree::<Document>(alloc, json, pass_over) {
        Ok(document) => print_well_formed(&document, prefix, level, out, needed),
        Err(refusal) => refusal.tell(out, needed),
    }
}

/// A value in AST JSON (`Value`, section 2.9) as GraphQL text: all else is that of `print_json`.
pub fn print_value_json(
    alloc: Global,
    json: &[u8],
    broken: bool,
    prefix: &[u8],
    level: usize,
    pass_over: bool,
    out: &mut [u8],
    needed: &mut usize,
) -> Status
    ensures prefix { result ≡ Status.WrongPrefix ↔ IsWrongPrefix broken prefix.now }
    ensures answer { PrintAnswer value_kind (IsValue (reading pass_over)) json.now
        (mode_of broken prefix.now) level out.old out.new needed.new result }
{
    let Some(prefix) = layout_prefix(broken, prefix) else {
        return wrong_prefix(out, needed);
    };
    match read_well_formed_tree::<Value>(alloc, json, pass_over) {
        Ok(value) => print_well_formed(&value, prefix, level, out, needed),
        Err(refusal) => refusal.tell(out, needed),
    }
}
