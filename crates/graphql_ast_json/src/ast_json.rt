//! What can be read from AST JSON, and written as it.
ghost use Rattle.std.specs.Prelude.{◌≡◌, Option, IfOk, IfErr, IfSome, Some, None, is_some, ⊤};
ghost use Rattle.serde_json.specs.Data.{Data};
ghost use Rattle.serde_json.specs.Read.{read};
ghost use Rattle.serde_json.specs.View.{view};
ghost use Rattle.graphql_base.specs.Node.{node_location, node_value};
ghost use Rattle.graphql_base.specs.declared.span.SourceSpan.{SourceSpan};
ghost use Rattle.graphql_ast_json.specs.code.Drafts.{location_of};
ghost use Rattle.ast_json_nodes.specs.code.Errors.{DepthIsTold, IsMemory};
ghost use Rattle.ast_json_nodes.specs.code.JsonNodes.{IsFromNone, IsReadFrom, node_data};
ghost use Rattle.ast_json_nodes.specs.code.NodeReading.{IsInFile, IsOfNone, IsReadAs, StandsAt, node_json};
ghost use Rattle.ast_json_nodes.specs.declared.read.Unknown.{Unknown};
ghost use Rattle.ast_json_nodes.specs.declared.read.Unknown.TheVariants.{Refuse};
ghost use Rattle.graphql_ast_json.specs.lemmas.Leaves.{json_laws};
ghost use Rattle.ast_json_nodes.specs.nodes.Nodes.{IsLocated};
ghost use Rattle.ast_json_nodes.specs.nodes.OneTree.{JsonLaws, NodeLaws};

use crate::write::NodeWriter;
use ast_json_nodes::error::AstJsonError;
use ast_json_nodes::{JsonNode, NodeReader, Unknown, read_json};
use graphql_base::node::Node;
use graphql_base::span::{FileId, SourceSpan};
use json::Scratch;
use parsed_json::{AnyJson, owned_json, parse_json};
use serde_json::Value as Json;
use std::alloc::{AllocError, Global};

/// A kind of syntax tree that has a form in AST JSON: each node is an object with its `kind`, its members, and perhaps
/// a location `loc`.
///
/// A member that is null is the same as none, and of two members of one name the last counts. An optional list may be left
/// out where it is empty. What is missing is refused: nothing is guessed. So is what no node of the kind has, unless the
/// reading passes over it. The offsets of a `loc` are the numbers that stand there, in the unit of who wrote it: graphql-js
/// counts UTF-16 code units. `Offsets` finds the bytes.
///
/// ```
/// let json = serde_json::Value::from_str(alloc, "{\"kind\":\"IntValue\",\"value\":\"4\"}")?;
/// let value = Value::from_ast_json(alloc, &json, FileId::new(1))?; // the value 4
/// ```
pub trait AstJson: Sized {
    /// The trees that this stands for.
    ghost Tree: { Type 0 };

    ghost tree: { Self → Tree };

    /// Whether the JSON is of the tree, for a reading that refuses or passes over what is unknown.
    ghost is_json_of: { Unknown → Tree → Data → Type 0 };

    /// Where this stands, if it has a location of its own, as nodes, names and descriptions do.
    ghost location: { Self → Option SourceSpan };

    /// Whether it stands where the JSON tells.
    ghost stands: { Self → Data → Type 0 };

    /// The tree that the JSON is of. The source locations in the JSON are taken to be in the source file of the reader.
    ///
    /// `AstJsonError::Invalid` exactly where the JSON is of no such tree, and `AstJsonError::Memory` if an
    /// allocation fails.
    fn read_ast_json(node: NodeReader<'_>) -> Result<Self, AstJsonError>
        ensures ok { IfOk result (λ value. IsReadAs is_json_of node.entry (tree value)) }
        ensures stands { IfOk result (λ value. stands value (node_json node.entry)) }
        ensures file { IfOk result (λ value. IsInFile node.entry.source (location value)) }
        ensures err { IfErr result (λ error. ¬ IsMemory error → IsOfNone is_json_of node.entry) };

    /// The same of JSON in either form. It makes a value of `serde_json` of JSON in another form, unless the kind reads
    /// that itself.
    fn read_json(node: JsonNode<'_, '_>) -> Result<Self, AstJsonError>
        ensures ok { IfOk result (λ value. IsReadFrom is_json_of node.entry (tree value)) }
        ensures stands { IfOk result (λ value. stands value (node_data node.entry)) }
        ensures file { IfOk result (λ value. IsInFile node.entry.source (location value)) }
        ensures err { IfErr result (λ error. ¬ IsMemory error → IsFromNone is_json_of node.entry) }
    {
        match node.json {
            AnyJson::Owned(json) => Self::read_ast_json(node.over(json)),
            AnyJson::Parsed(value) => {
                let json = owned_json(node.alloc, value)?;
                Self::read_ast_json(node.over(&json))
            }
        }
    }

    /// Whether `read_json` reads parsed JSON as it stands. If not, a text is made a value of `serde_json` at once, for
    /// `read_ast_json`. What it returns changes only what a reading of a text costs, in time and memory: a kind with a
    /// `read_json` of its own has one of this too.
    fn reads_parsed() -> bool {
        false
    }

    /// The tree as JSON. `AllocError` if an allocation fails.
    fn to_ast_json(&self, alloc: Global) -> Result<Json, AllocError>
        ensures ok { IfOk result (λ json. (unknown : Unknown)
            → is_json_of unknown (tree self.now) (view json)) }
        ensures stands { IfOk result (λ json. stands self.now (view json)) };

    /// The tree that the JSON is of: `read_ast_json` with what is unknown refused.
    final fn from_ast_json(alloc: Global, json: &Json, source: FileId) -> Result<Self, AstJsonError>
        ensures ok { IfOk result (λ value. is_json_of Refuse (tree value) (view json.now)) }
        ensures stands { IfOk result (λ value. stands value (view json.now)) }
        ensures file { IfOk result (λ value. IsInFile source (location value)) }
        ensures err { IfErr result (λ error. ¬ IsMemory error
            → (tree : Tree) → ¬ is_json_of Refuse tree (view json.now)) }
    {
        Self::read_ast_json(NodeReader {
            alloc,
            json,
            source,
            unknown: Unknown::Refuse,
        })
    }

    /// No two trees are written alike, and null is of none.
    ghost laws: { JsonLaws is_json_of };
}

/// A kind of which each tree is one node, so that it may stand at a source location.
///
/// ```
/// let span = SourceSpan::new(FileId::new(1), 0, 1).context("start is after end")?;
/// let json = value!(in alloc; 4)?.to_ast_json_at(alloc, Some(span))?;
/// println!(rt; "{json}")?; // {"kind":"IntValue","loc":{"end":1,"start":0},"value":"4"}
/// ```
pub trait AstNode: Sized {
    ghost Tree: { Type 0 };

    ghost tree: { Self → Tree };

    ghost is_node: { Unknown → Tree → Data → Type 0 };

    /// The tree that a node is of, in either form, whose location was read.
    #[doc(hidden)]
    fn read_json_node(node: JsonNode<'_, '_>) -> Result<Self, AstJsonError>
        requires { IsLocated node.unknown (node_data node) }
        ensures ok { IfOk result (λ value. IsReadFrom is_node node.entry (tree value)) }
        ensures err { IfErr result (λ error. ¬ IsMemory error → IsFromNone is_node node.entry) };

    /// The tree as a node, at the location of the writer.
    #[doc(hidden)]
    fn write_node(&self, node: NodeWriter) -> Result<Json, AllocError>
        ensures ok { IfOk result (λ json. (unknown : Unknown)
            → is_node unknown (tree self.now) (view json)) }
        ensures stands { IfOk result (λ json. StandsAt (location_of node) (view json)) };

    /// The tree as JSON, at a location if there is one. `AllocError` if an allocation fails.
    final fn to_ast_json_at(
        &self,
        alloc: Global,
        location: Option<SourceSpan>,
    ) -> Result<Json, AllocError>
        ensures ok { IfOk result (λ json. (unknown : Unknown)
            → is_node unknown (tree self.now) (view json)) }
        ensures stands { IfOk result (λ json. StandsAt location (view json)) }
    {
        self.write_node(NodeWriter::new(alloc, location))
    }

    /// No two trees are written alike, and each is a node.
    ghost laws: { NodeLaws is_node };
}

impl<T: AstNode> AstJson for T {
    ghost Tree = { T.Tree };

    ghost tree = { T.tree };

    ghost is_json_of = { T.is_node };

    ghost location = { λ _. None };

    ghost stands = { λ _ _. ⊤ };

    ghost laws = { json_laws T.laws };

    fn read_ast_json(node: NodeReader<'_>) -> Result<T, AstJsonError> {
        Self::read_json(JsonNode::of(node))
    }

    fn read_json(node: JsonNode<'_, '_>) -> Result<T, AstJsonError> {
        node.location()?;
        T::read_json_node(node)
    }

    /// Each node does, as `AstNode` is implemented in this crate alone.
    fn reads_parsed() -> bool {
        true
    }

    fn to_ast_json(&self, alloc: Global) -> Result<Json, AllocError> {
        self.to_ast_json_at(alloc, None)
    }
}

impl<T: AstNode + Drop> AstJson for Node<T> {
    ghost Tree = { T.Tree };

    ghost tree = { λ node. T.tree (node_value node) };

    ghost is_json_of = { T.is_node };

    ghost location = { node_location };

    ghost stands = { λ node. StandsAt (node_location node) };

    ghost laws = { json_laws T.laws };

    /// The node, at its location if the JSON tells one.
    fn read_ast_json(node: NodeReader<'_>) -> Result<Node<T>, AstJsonError> {
        Self::read_json(JsonNode::of(node))
    }

    /// The node, at its location if the JSON tells one.
    fn read_json(node: JsonNode<'_, '_>) -> Result<Node<T>, AstJsonError> {
        let location = node.location()?;
        let value = T::read_json_node(node)?;
        Ok(node_at(node.alloc, location, value)?)
    }

    fn reads_parsed() -> bool {
        true
    }

    /// The node, at its location if it has one.
    fn to_ast_json(&self, alloc: Global) -> Result<Json, AllocError> {
        self.as_ref().to_ast_json_at(alloc, self.location())
    }
}

/// A node of this value, at its location if it has one.
pub(crate) fn node_at<T: Drop>(
    alloc: Global,
    location: Option<SourceSpan>,
    value: T,
) -> Result<Node<T>, AllocError>
    ensures value { IfOk result (λ node. node_value node ≡ value) }
    ensures location { IfOk result (λ node. node_location node ≡ location) }
{
    match location {
        Some(span) => Node::new_parsed(alloc, value, span),
        None => Node::new(alloc, value),
    }
}

/// The tree that a text of AST JSON is of: `AstJson::from_ast_json` of the JSON that the text is.
///
/// `AstJsonError::TooDeep` where arrays and objects of the text stand in one another more than 127 deep before it has
/// another fault (`is_too_deep` of `parsed_json`), and `AstJsonError::NotJson` where it is otherwise no JSON.
pub fn from_ast_json_str<T: AstJson>(
    alloc: Global,
    text: &str,
    source: FileId,
) -> Result<T, AstJsonError>
    ensures ok { IfOk result (λ value.
        (json : Data) × (read text.now ≡ Some json) × T.is_json_of Refuse (T.tree value) json) }
    ensures stands { IfOk result (λ value.
        (json : Data) × (read text.now ≡ Some json) × T.stands value json) }
    ensures file { IfOk result (λ value. IsInFile source (T.location value)) }
    ensures err { IfErr result (λ error. ¬ IsMemory error
        → (json : Data) → read text.now ≡ Some json
        → (tree : T.Tree) → ¬ T.is_json_of Refuse tree json) }
    ensures depth { IfErr result (DepthIsTold text.now) }
{
    if T::reads_parsed() {
        if let Some(value) = read_parsed(alloc, text, source)? {
            return Ok(value);
        }
    }
    read_otherwise(alloc, text, source)
}

/// The same of a text that is parsed, and none where it is not.
// The scratch lies in a frame of its own, so that the caller goes on without it, and a text is read otherwise with another.
#[inline(never)]
fn read_parsed<T: AstJson>(
    alloc: Global,
    text: &str,
    source: FileId,
) -> Result<Option<T>, AstJsonError>
    ensures parsed { IfOk result (λ found. is_some found ≡ is_some (read text.now)) }
    ensures ok { IfOk result (λ found. IfSome found (λ value.
        (json : Data) × (read text.now ≡ Some json) × T.is_json_of Refuse (T.tree value) json)) }
    ensures stands { IfOk result (λ found. IfSome found (λ value.
        (json : Data) × (read text.now ≡ Some json) × T.stands value json)) }
    ensures file { IfOk result (λ found. IfSome found (λ value.
        IsInFile source (T.location value))) }
    ensures err { IfErr result (λ error. ¬ IsMemory error
        → (json : Data) → read text.now ≡ Some json
        → (tree : T.Tree) → ¬ T.is_json_of Refuse tree json) }
    ensures depth { IfErr result (DepthIsTold text.now) }
{
    let mut scratch = Scratch::new(alloc);
    match parse_json(alloc, text, &mut scratch)? {
        Some(value) => {
            let node = JsonNode::parsed(alloc, &value, source, Unknown::Refuse);
            Ok(Some(T::read_json(node)?))
        }
        None => Ok(None),
    }
}

/// The same by a value of `serde_json`. A text that was not parsed is no JSON: it is read again, for the error.
// It has a frame of its own, so that a text that is parsed is read without it.
#[inline(never)]
fn read_otherwise<T: AstJson>(alloc: Global, text: &str, source: FileId) -> Result<T, AstJsonError>
    ensures ok { IfOk result (λ value.
        (json : Data) × (read text.now ≡ Some json) × T.is_json_of Refuse (T.tree value) json) }
    ensures stands { IfOk result (λ value.
        (json : Data) × (read text.now ≡ Some json) × T.stands value json) }
    ensures file { IfOk result (λ value. IsInFile source (T.location value)) }
    ensures err { IfErr result (λ error. ¬ IsMemory error
        → (json : Data) → read text.now ≡ Some json
        → (tree : T.Tree) → ¬ T.is_json_of Refuse tree json) }
    ensures depth { IfErr result (DepthIsTold text.now) }
{
    let json = read_json(alloc, text)?;
    T::from_ast_json(alloc, &json, source)
}
