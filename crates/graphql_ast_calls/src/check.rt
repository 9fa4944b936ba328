//! Whether some JSON is of a document that is well formed.
ghost use Rattle.graphql_ast.specs.Documents.{document_kind};
ghost use Rattle.graphql_ast_json.specs.kinds.DocumentJson.{IsDocument};
ghost use Rattle.graphql_ast_calls.specs.Answers.{CheckAnswer, reading};

use crate::read::read_well_formed_tree;
use crate::status::Status;
use graphql_ast::ast::Document;
use std::alloc::Global;

/// Whether some JSON is of a document that is well formed, so that `print_json` prints it, unless the level overflows or
/// an allocation fails.
///
/// `json` and `pass_over` are those of `print_json`. Returns `Done`, with 0 in `needed`, or with a message `NotJson`,
/// `NoTree`, `IllFormed` or `OutOfMemory`.
pub fn check_json(
    alloc: Global,
    json: &[u8],
    pass_over: bool,
    out: &mut [u8],
    needed: &mut usize,
) -> Status
    ensures { CheckAnswer document_kind (IsDocument (reading pass_over)) json.now
        out.old out.new needed.new result }
{
    match read_well_formed_tree::<Document>(alloc, json, pass_over) {
        Ok(_) => {
            *needed = 0;
            Status::Done
        }
        Err(refusal) => refusal.tell(out, needed),
    }
}
