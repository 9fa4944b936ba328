//! The C interface over AST JSON, a static library: bindings/c/graphql_ast.h declares it. Each call is one of
//! `graphql_ast_calls`, which a slice goes to as a pointer and a length, and whose status comes back as its number.
#![tactic(auto)]

ghost use Rattle.std.specs.Prelude.{◌≡◌, ◌↔◌};
ghost use Rattle.graphql_ast.specs.Documents.{document_kind};
ghost use Rattle.graphql_ast.specs.Values.{value_kind};
ghost use Rattle.graphql_ast_json.specs.kinds.DocumentJson.{IsDocument};
ghost use Rattle.graphql_ast_json.specs.kinds.ValueJson.{IsValue};
ghost use Rattle.graphql_ast_calls.specs.Answers.{CheckAnswer, HoldsPrint, IsJsonOf, IsWrongPrefix, PrintAnswer, WriteAnswer, mode_of, reading};
ghost use Rattle.graphql_ast_calls.specs.Statuses.{status_of};

use graphql_ast_calls::{check_json, print_json, print_value_json, write_json};
use std::alloc::Global;

/// The version of the interface: it grows with each change of a call or a status.
const VERSION: u32 = 1;

/// A document in AST JSON as GraphQL text: `graphql_ast_calls::print_json`.
#[unsafe(no_mangle)]
pub extern "C" fn graphql_ast_print_json(
    alloc: Global,
    json: &[u8],
    broken: bool,
    prefix: &[u8],
    level: usize,
    pass_over: bool,
    out: &mut [u8],
    needed: &mut usize,
) -> u32
    // The text in the buffer is the layout of the document that the JSON is of, and is read as it alone.
    ensures done { result ≡ 0 → (tree : document_kind.Tree)
        × IsJsonOf (IsDocument (reading pass_over)) json.now tree
        × HoldsPrint document_kind (mode_of broken prefix.now) level
        out.old out.new needed.new tree }
    ensures prefix { result ≡ 7 ↔ IsWrongPrefix broken prefix.now }
    ensures answer { PrintAnswer document_kind (IsDocument (reading pass_over)) json.now
        (mode_of broken prefix.now) level out.old out.new needed.new (status_of result) }
{
    print_json(alloc, json, broken, prefix, level, pass_over, out, needed).code()
}

/// A value in AST JSON as GraphQL text: `graphql_ast_calls::print_value_json`.
#[unsafe(no_mangle)]
pub extern "C" fn graphql_ast_print_value_json(
    alloc: Global,
    json: &[u8],
    broken: bool,
    prefix: &[u8],
    level: usize,
    pass_over: bool,
    out: &mut [u8],
    needed: &mut usize,
) -> u32
    // The text in the buffer is the layout of the value that the JSON is of, and is read as it alone.
    ensures done { result ≡ 0 → (tree : value_kind.Tree)
        × IsJsonOf (IsValue (reading pass_over)) json.now tree
        × HoldsPrint value_kind (mode_of broken prefix.now) level
        out.old out.new needed.new tree }
    ensures prefix { result ≡ 7 ↔ IsWrongPrefix broken prefix.now }
    ensures answer { PrintAnswer value_kind (IsValue (reading pass_over)) json.now
        (mode_of broken prefix.now) level out.old out.new needed.new (status_of result) }
{
    print_value_json(alloc, json, broken, prefix, level, pass_over, out, needed).code()
}

/// Whether some JSON is of a document that is well formed: `graphql_ast_calls::check_json`.
#[unsafe(no_mangle)]
pub extern "C" fn graphql_ast_check_json(
    alloc: Global,
    json: &[u8],
    pass_over: bool,
    out: &mut [u8],
    needed: &mut usize,
) -> u32
    ensures { CheckAnswer document_kind (IsDocument (reading pass_over)) json.now
        out.old out.new needed.new (status_of result) }
{
    check_json(alloc, json, pass_over, out, needed).code()
}

/// The AST JSON of a document in one form: `graphql_ast_calls::write_json`.
#[unsafe(no_mangle)]
pub extern "C" fn graphql_ast_write_json(
    alloc: Global,
    json: &[u8],
    pass_over: bool,
    out: &mut [u8],
    needed: &mut usize,
) -> u32
    ensures { WriteAnswer IsDocument (reading pass_over) json.now
        out.old out.new needed.new (status_of result) }
{
    write_json(alloc, json, pass_over, out, needed).code()
}

/// The version of the interface.
#[unsafe(no_mangle)]
pub extern "C" fn graphql_ast_version() -> u32
    ensures { result ≡ VERSION }
{
    VERSION
}
