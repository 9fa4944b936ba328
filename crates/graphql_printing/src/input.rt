//! The document that is read.
ghost use Rattle.std.specs.Prelude.{◌≡◌, ℕ, List, IfErr, IfOk, None, Some};
ghost use Rattle.serde_json.specs.Read.{read};
ghost use Rattle.graphql_ast.specs.AstTrees.{document_tree};
ghost use Rattle.ast_json_nodes.specs.code.JsonNodes.{node_data};
ghost use Rattle.graphql_ast_calls.specs.Answers.{IsJsonOf};
ghost use Rattle.graphql_printing.specs.Reading.{IsAllOf, IsDocumentOf, Passes, Reads};
ghost use Rattle.graphql_printing.specs.Refusals.{IsDataRefusal, IsNotReadOrMemory, IsReadRefusal, IsRefusal, IsTreeRefusal};

use crate::flaws::{flaws, problem};
use crate::options::Options;
use crate::refusal::Refusal;
use graphql_ast::ast::Document;
use graphql_ast::document::SourceFile;
use graphql_ast::span::FileId;
use graphql_ast_json::{AstJson, JsonNode, from_ast_json_str, parse_json};
use json::Scratch;
use std::alloc::Global;
use std::io::{ErrorKind, Read};

/// All that a reader has left.
fn read_all<R: Read + Drop>(alloc: Global, mut input: R) -> Result<Vec<u8>, Refusal>
    ensures ok { IfOk result (λ bytes. IsAllOf (R.remaining input) bytes.items) }
    ensures err { IfErr result IsNotReadOrMemory }
{
    let mut bytes = Vec::new(alloc);
    match input.read_to_end(&mut bytes) {
        Ok(_) => Ok(bytes),
        Err(error) if error.kind() == ErrorKind::OutOfMemory => Err(Refusal::Memory),
        Err(error) => Err(Refusal::NotRead(error)),
    }
}

/// The text that bytes are.
#[tactic(auto, using(crate::proofs::Refused::no_json))]
fn text_of(alloc: Global, bytes: &[u8]) -> Result<&str, Refusal>
    ensures ok { IfOk result (λ text. text.now ≡ bytes.now) }
    ensures err { IfErr result (IsDataRefusal bytes.now) }
{
    match simdutf8::compat::from_utf8(bytes) {
        Ok(text) => Ok(text),
        Err(error) => {
            let offset = error.valid_up_to();
            let message = format!(in alloc; "not JSON: not UTF-8 from byte {offset} on");
            Err(Refusal::not_json(message))
        }
    }
}

/// The number of the text that locations speak of.
fn file() -> FileId {
    FileId::new(1)
}

/// That a text is no JSON. It is read again, for the position where it isn't.
#[inline(never)]
#[tactic(auto, using(crate::proofs::Refused::no_json))]
fn no_json(alloc: Global, text: &str) -> Refusal
    requires { read text.now ≡ None }
    ensures { IsDataRefusal text.now result }
{
    match from_ast_json_str::<Document>(alloc, text, file()) {
        Ok(_document) => Refusal::not_json(String::from_str(alloc, "not JSON")),
        Err(error) => {
            if error.is_memory() {
                return Refusal::Memory;
            }
            Refusal::not_json(format!(in alloc; "{error}"))
        }
    }
}

/// The tree that a node is of.
#[tactic(auto, using(crate::proofs::Refused::no_tree))]
fn tree_of<T: AstJson>(
    alloc: Global,
    node: JsonNode<'_, '_>,
    source: Option<&SourceFile>,
) -> Result<T, Refusal>
    ensures ok { IfOk result (λ tree. (bytes : List ℕ) → read bytes ≡ Some (node_data node.entry)
        → IsJsonOf (T.is_json_of node.entry.unknown) bytes (T.tree tree)) }
    ensures err { IfErr result (λ refusal. (bytes : List ℕ)
        → read bytes ≡ Some (node_data node.entry)
        → IsTreeRefusal (T.is_json_of node.entry.unknown) bytes refusal) }
{
    match T::read_json(node) {
        Ok(tree) => Ok(tree),
        Err(error) if error.is_memory() => Err(Refusal::Memory),
        Err(error) => Err(Refusal::no_tree(problem(alloc, error, source))),
    }
}

/// The document that a node is of, if it passes.
#[tactic(auto, using(crate::proofs::Refused::of_tree, crate::proofs::Refused::ill_formed))]
fn document_in(
    alloc: Global,
    options: &Options,
    node: JsonNode<'_, '_>,
    source: Option<&SourceFile>,
) -> Result<Document, Refusal>
    requires { node.unknown ≡ options.now.unknown }
    ensures ok { IfOk result (λ document. (bytes : List ℕ)
        → read bytes ≡ Some (node_data node.entry)
        → IsDocumentOf options.now.unknown bytes (document_tree document)) }
    ensures passes { IfOk result (λ document. Passes options.now (document_tree document)) }
    ensures err { IfErr result (λ refusal. (bytes : List ℕ)
        → read bytes ≡ Some (node_data node.entry)
        → IsRefusal options.now bytes refusal) }
{
    let document = tree_of::<Document>(alloc, node, source)?;
    if options.allow_ill_formed || document.is_well_formed() {
        Ok(document)
    } else {
        Err(Refusal::ill_formed(flaws(alloc, &document, source)))
    }
}

/// The document that bytes are of, if it passes.
// It has a frame of its own, so that its scratch stands in no other.
#[inline(never)]
#[tactic(auto, using(crate::proofs::Refused::of_data))]
fn document_of(
    alloc: Global,
    options: &Options,
    bytes: &[u8],
    source: Option<&SourceFile>,
) -> Result<Document, Refusal>
    ensures ok { IfOk result (λ document.
        IsDocumentOf options.now.unknown bytes.now (document_tree document)) }
    ensures passes { IfOk result (λ document. Passes options.now (document_tree document)) }
    ensures err { IfErr result (IsRefusal options.now bytes.now) }
{
    let text = text_of(alloc, bytes)?;
    let mut scratch = Scratch::new(alloc);
    match parse_json(alloc, text, &mut scratch) {
        Ok(Some(value)) => {
            let node = JsonNode::parsed(alloc, &value, file(), options.unknown);
            document_in(alloc, options, node, source)
        }
        Ok(None) => Err(no_json(alloc, text)),
        Err(_) => Err(Refusal::Memory),
    }
}

/// The document that is read, if it passes.
#[tactic(auto, using(crate::proofs::Refused::not_read, crate::proofs::Refused::of_all))]
pub(crate) fn read_document<R: Read + Drop>(
    alloc: Global,
    options: &Options,
    input: R,
    source: Option<&SourceFile>,
) -> Result<Document, Refusal>
    ensures ok { IfOk result (λ document.
        Reads options.now (R.remaining input) (document_tree document)) }
    ensures passes { IfOk result (λ document. Passes options.now (document_tree document)) }
    ensures err { IfErr result (IsReadRefusal options.now (R.remaining input)) }
{
    let bytes = read_all(alloc, input)?;
    document_of(alloc, options, &bytes, source)
}
