//! The tree that some JSON is of.
ghost use Rattle.std.specs.Prelude.{◌≡◌, ℕ, List, IfErr, IfOk, IfSome, IsTrue, IsUtf8, MatchOption, None, Some, option_map};
ghost use Rattle.serde_json.specs.Errors.{IsMemory};
ghost use Rattle.serde_json.specs.Read.{read};
ghost use Rattle.serde_json.specs.View.{view};
ghost use Rattle.ast_json_nodes.specs.code.JsonNodes.{node_data};
ghost use Rattle.parsed_json.specs.ParsedJson.{parsed_data};
ghost use Rattle.graphql_ast_calls.specs.Answers.{IsJsonOf, IsNoJson, reading};
ghost use Rattle.graphql_ast_calls.specs.Refusals.{IsDataRefusal, IsIllFormedOrMemory, IsNoTreeOrMemory, IsNotJsonOrMemory, IsRefusal, IsTreeRefusal, TellsRefusal};

use crate::message::{put_message, put_out_of_memory};
use crate::status::Status;
use graphql_ast::span::FileId;
use graphql_ast_json::{
    AstJson, JsonNode, Unknown, WellFormedError, parse_json, read_well_formed_json,
};
use graphql_text::engine::SyntaxTree;
use json::{Scratch, Value as Parsed};
use serde_json::Value as Json;
use std::alloc::{AllocError, Global};

/// Why no tree was read, with a message.
#[derive(Drop)]
pub(crate) enum Refusal {
    NotJson(String),
    NoTree(String),
    IllFormed(String),
    Memory,
}

/// That the bytes are no text, or no JSON.
fn not_json(message: Result<String, AllocError>) -> Refusal
    ensures { IsNotJsonOrMemory result }
{
    match message {
        Ok(message) => Refusal::NotJson(message),
        Err(_) => Refusal::Memory,
    }
}

/// That the JSON is of no such tree.
fn no_tree(message: Result<String, AllocError>) -> Refusal
    ensures { IsNoTreeOrMemory result }
{
    match message {
        Ok(message) => Refusal::NoTree(message),
        Err(_) => Refusal::Memory,
    }
}

/// That the tree isn't well formed.
fn ill_formed(message: Result<String, AllocError>) -> Refusal
    ensures { IsIllFormedOrMemory result }
{
    match message {
        Ok(message) => Refusal::IllFormed(message),
        Err(_) => Refusal::Memory,
    }
}

/// The value of `serde_json` that bytes are, which are this text if they are one.
fn json_of(alloc: Global, json: &[u8], text: Option<&str>) -> Result<Json, serde_json::Error>
    requires { IfSome text (λ found. found.now ≡ json.now) }
    ensures ok { IfOk result (λ found. read json.now ≡ Some (view found)) }
    ensures err { IfErr result (λ error. ¬ IsMemory error → IsNoJson json.now) }
{
    match text {
        Some(text) => Json::from_str(alloc, text),
        None => Json::from_slice(alloc, json),
    }
}

/// The same, or that the bytes are no JSON.
fn read_data(alloc: Global, json: &[u8], text: Option<&str>) -> Result<Json, Refusal>
    requires { IfSome text (λ found. found.now ≡ json.now) }
    ensures ok { IfOk result (λ found. read json.now ≡ Some (view found)) }
    ensures err { IfErr result (IsDataRefusal json.now) }
{
    match json_of(alloc, json, text) {
        Ok(json) => Ok(json),
        Err(error) if error.is_memory() => Err(Refusal::Memory),
        Err(error) => Err(not_json(format!(in alloc; "not JSON: {error}"))),
    }
}

/// The text that bytes are, if they are one.
fn text_of(json: &[u8]) -> Option<&str>
    ensures { MatchOption result (¬ IsUtf8 json.now) (λ text. text.now ≡ json.now) }
{
    match simdutf8::basic::from_utf8(json) {
        Ok(text) => Some(text),
        Err(_) => None,
    }
}

/// The JSON that a text is, if it is parsed.
fn parse<'t>(
    alloc: Global,
    text: &'t str,
    scratch: &'t mut Scratch,
) -> Result<Option<Parsed<'t>>, Refusal>
    ensures ok { IfOk result (λ found. option_map parsed_data found ≡ read text.now) }
    ensures err { IfErr result (λ refusal. refusal ≡ Refusal.Memory) }
{
    match parse_json(alloc, text, scratch) {
        Ok(found) => Ok(found),
        Err(_) => Err(Refusal::Memory),
    }
}

/// What becomes of what is unknown.
fn unknown(pass_over: bool) -> Unknown
    ensures { result ≡ reading pass_over }
{
    if pass_over {
        Unknown::PassOver
    } else {
        Unknown::Refuse
    }
}

/// The file that locations are in, of which nothing is told.
fn source() -> FileId {
    FileId::new(1)
}

/// The tree that a node is of, or why there is none.
fn tree_of<T: AstJson>(alloc: Global, node: JsonNode<'_, '_>) -> Result<T, Refusal>
    ensures ok { IfOk result (λ tree. (json : List ℕ) → read json ≡ Some (node_data node.entry)
        → IsJsonOf (T.is_json_of node.entry.unknown) json (T.tree tree)) }
    ensures err { IfErr result (λ refusal. (json : List ℕ)
        → read json ≡ Some (node_data node.entry)
        → IsRefusal (T.is_json_of node.entry.unknown) json refusal) }
{
    match T::read_json(node) {
        Ok(tree) => Ok(tree),
        Err(error) if error.is_memory() => Err(Refusal::Memory),
        Err(error) => Err(no_tree(format!(in alloc; "{error}"))),
    }
}

/// The tree that a text is of, if the text is parsed, or why there is none.
// It has a frame of its own, so that its scratch stands in no other.
#[inline(never)]
fn parsed_tree<T: AstJson>(alloc: Global, text: &str, pass_over: bool) -> Result<Option<T>, Refusal>
    ensures ok { IfOk result (λ found. MatchOption found (read text.now ≡ None) (λ tree.
        IsJsonOf (T.is_json_of (reading pass_over)) text.now (T.tree tree))) }
    ensures err { IfErr result (IsRefusal (T.is_json_of (reading pass_over)) text.now) }
{
    let mut scratch = Scratch::new(alloc);
    let Some(value) = parse(alloc, text, &mut scratch)? else {
        return Ok(None);
    };
    let node = JsonNode::parsed(alloc, &value, source(), unknown(pass_over));
    Ok(Some(tree_of(alloc, node)?))
}

/// The tree that some JSON is of.
pub(crate) fn read_tree<T: AstJson>(
    alloc: Global,
    json: &[u8],
    pass_over: bool,
) -> Result<T, Refusal>
    ensures ok { IfOk result (λ tree.
        IsJsonOf (T.is_json_of (reading pass_over)) json.now (T.tree tree)) }
    ensures err { IfErr result (IsRefusal (T.is_json_of (reading pass_over)) json.now) }
{
    let text = text_of(json);
    if let Some(text) = text {
        if let Some(tree) = parsed_tree(alloc, text, pass_over)? {
            return Ok(tree);
        }
    }
    let value = read_data(alloc, json, text)?;
    let node = JsonNode::owned(alloc, &value, source(), unknown(pass_over));
    tree_of(alloc, node)
}

/// The tree that a node is of, if it is well formed, or why there is none.
fn well_formed_tree_of<T: AstJson + SyntaxTree + Drop>(
    alloc: Global,
    node: JsonNode<'_, '_>,
) -> Result<T, Refusal>
    ensures ok { IfOk result (λ tree. (json : List ℕ) → read json ≡ Some (node_data node.entry)
        → IsJsonOf (T.is_json_of node.entry.unknown) json (T.AstJson.tree tree)) }
    ensures well_formed { IfOk result (λ tree. IsTrue (T.kind.obeys (T.SyntaxTree.tree tree))) }
    ensures err { IfErr result (λ refusal. (json : List ℕ)
        → read json ≡ Some (node_data node.entry)
        → IsTreeRefusal (T.is_json_of node.entry.unknown) T.AstJson.tree
        (λ tree. T.kind.obeys (T.SyntaxTree.tree tree)) json refusal) }
{
    match read_well_formed_json::<T>(node) {
        Ok(tree) => Ok(tree),
        Err(error) if error.is_memory() => Err(Refusal::Memory),
        Err(error) => {
            let message = format!(in alloc; "{error}");
            match error {
                WellFormedError::NotRead(_) => Err(no_tree(message)),
                WellFormedError::IllFormed { .. } => Err(ill_formed(message)),
            }
        }
    }
}

/// The tree that a text is of, if the text is parsed and the tree is well formed, or why there is none.
// It has a frame of its own, so that its scratch stands in no other.
#[inline(never)]
fn parsed_well_formed_tree<T: AstJson + SyntaxTree + Drop>(
    alloc: Global,
    text: &str,
    pass_over: bool,
) -> Result<Option<T>, Refusal>
    ensures ok { IfOk result (λ found. MatchOption found (read text.now ≡ None) (λ tree.
        IsJsonOf (T.is_json_of (reading pass_over)) text.now (T.AstJson.tree tree))) }
    ensures well_formed { IfOk result (λ found. IfSome found (λ tree.
        IsTrue (T.kind.obeys (T.SyntaxTree.tree tree)))) }
    ensures err { IfErr result (IsTreeRefusal (T.is_json_of (reading pass_over)) T.AstJson.tree
        (λ tree. T.kind.obeys (T.SyntaxTree.tree tree)) text.now) }
{
    let mut scratch = Scratch::new(alloc);
    let Some(value) = parse(alloc, text, &mut scratch)? else {
        return Ok(None);
    };
    let node = JsonNode::parsed(alloc, &value, source(), unknown(pass_over));
    Ok(Some(well_formed_tree_of(alloc, node)?))
}

/// The tree that some JSON is of, if it is well formed.
pub(crate) fn read_well_formed_tree<T: AstJson + SyntaxTree + Drop>(
    alloc: Global,
    json: &[u8],
    pass_over: bool,
) -> Result<T, Refusal>
    ensures ok { IfOk result (λ tree.
        IsJsonOf (T.is_json_of (reading pass_over)) json.now (T.AstJson.tree tree)) }
    ensures well_formed { IfOk result (λ tree. IsTrue (T.kind.obeys (T.SyntaxTree.tree tree))) }
    ensures err { IfErr result (IsTreeRefusal (T.is_json_of (reading pass_over)) T.AstJson.tree
        (λ tree. T.kind.obeys (T.SyntaxTree.tree tree)) json.now) }
{
    let text = text_of(json);
    if let Some(text) = text {
        if let Some(tree) = parsed_well_formed_tree(alloc, text, pass_over)? {
            return Ok(tree);
        }
    }
    let value = read_data(alloc, json, text)?;
    let node = JsonNode::owned(alloc, &value, source(), unknown(pass_over));
    well_formed_tree_of(alloc, node)
}

impl Refusal {
    /// Puts the message into the caller's buffer.
    pub(crate) fn tell(self, out: &mut [u8], needed: &mut usize) -> Status
        ensures { TellsRefusal self out.old out.new needed.new result }
    {
        match self {
            Refusal::NotJson(message) => {
                put_message(message.as_str(), out, needed);
                Status::NotJson
            }
            Refusal::NoTree(message) => {
                put_message(message.as_str(), out, needed);
                Status::NoTree
            }
            Refusal::IllFormed(message) => {
                put_message(message.as_str(), out, needed);
                Status::IllFormed
            }
            Refusal::Memory => put_out_of_memory(out, needed),
        }
    }
}
