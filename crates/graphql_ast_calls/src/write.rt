//! AST JSON, normalized.
ghost use Rattle.std.specs.Prelude.{IfOk, string_bytes};
ghost use Rattle.graphql_ast.specs.AstTrees.{document_tree};
ghost use Rattle.graphql_ast_json.specs.kinds.DocumentJson.{IsDocument};
ghost use Rattle.graphql_ast_calls.specs.Answers.{IsTextOf, WriteAnswer, reading};

use crate::message::{put_bytes, put_out_of_memory};
use crate::read::read_tree;
use crate::status::Status;
use ast_json_text::to_ast_json_text;
use graphql_ast::ast::Document;
use std::alloc::{AllocError, Global};

/// The text of a document's JSON.
fn json_text(alloc: Global, document: &Document) -> Result<String, AllocError>
    ensures { IfOk result (λ text. IsTextOf IsDocument (document_tree document.now)
        (string_bytes text)) }
{
    let text = to_ast_json_text(alloc, document)?;
    Ok(text)
}

/// The AST JSON of a document in one form: each node with all its members, null and false ones left out, and its
/// location if it has one. It may be of a document that isn't well formed.
pub fn write_json(
    alloc: Global,
    json: &[u8],
    pass_over: bool,
    out: &mut [u8],
    needed: &mut usize,
) -> Status
    ensures { WriteAnswer IsDocument (reading pass_over) json.now
        out.old out.new needed.new result }
{
    let document = match read_tree::<Document>(alloc, json, pass_over) {
        Ok(document) => document,
        Err(refusal) => return refusal.tell(out, needed),
    };
    match json_text(alloc, &document) {
        Ok(text) => {
            if put_bytes(text.as_bytes(), out, needed) {
                Status::Done
            } else {
                Status::TooShort
            }
        }
        Err(_) => put_out_of_memory(out, needed),
    }
}
