//! Well-formed trees from AST JSON, and where in other JSON a side condition is broken.
ghost use Rattle.std.specs.Prelude.{◌≡◌, ◌↔◌, IfOk, IfErr, IfSome, IsTrue, Some, is_some};
ghost use Rattle.serde_json.specs.Data.{Data};
ghost use Rattle.serde_json.specs.Read.{read};
ghost use Rattle.graphql_text.specs.kinds.Flaws.{first_flaw};
ghost use Rattle.ast_json_nodes.specs.code.Errors.{DepthIsTold, IsMemory};
ghost use Rattle.ast_json_nodes.specs.code.JsonNodes.{IsFromNone, IsReadFrom, node_data};
ghost use Rattle.ast_json_nodes.specs.code.NodeReading.{IsInFile, IsOfNone, IsReadAs, node_json};
ghost use Rattle.graphql_ast_json.specs.code.WellFormed.{IfIllFormed, IfNotRead};
ghost use Rattle.ast_json_nodes.specs.declared.read.Unknown.TheVariants.{Refuse};

mod search;

use crate::ast_json::AstJson;
use ast_json_nodes::error::{AstJsonError, JsonPath, NodeLocation};
use ast_json_nodes::{JsonNode, NodeReader, Unknown, read_json};
use graphql_ast::name::Name;
use graphql_base::span::FileId;
use graphql_text::engine::SyntaxTree;
use graphql_text::ill_formed::{IllFormed, SideCondition};
use json::Scratch;
use parsed_json::parse_json;
use search::path_of;
use std::alloc::{AllocError, Global};
use std::fmt::{self, Display, Formatter, Write};
use thiserror::Error;

/// A side condition that a tree breaks, and a name.
///
/// The name is the one that breaks it, or else that of what breaks it, if it has one.
///
/// ```
/// let text = r#"{"kind":"EnumTypeExtension","name":{"kind":"Name","value":"E"}}"#;
/// let read = from_well_formed_ast_json_str::<EnumTypeExtension>(alloc, text, FileId::new(1));
/// if let Err(WellFormedError::IllFormed { broken, .. }) = read {
///     println!(rt; "{broken}")?; // an extension that adds nothing: `E`
/// }
/// ```
#[derive(Debug, Drop)]
pub struct BrokenCondition {
    pub condition: SideCondition,
    pub name: Option<Name>,
}

impl BrokenCondition {
    ghost use Rattle.graphql_text.specs.code.IllFormed.{flaw_of};
    ghost use Rattle.graphql_ast_json.specs.code.WellFormed.{told_flaw};

    /// What was found in a tree, without the tree.
    fn of(found: &IllFormed<'_>) -> Result<BrokenCondition, AllocError>
        ensures { IfOk result (λ broken. told_flaw broken ≡ flaw_of found.now) }
    {
        let name = match found.name {
            Some(name) => Some(name.clone()?),
            None => None,
        };
        Ok(BrokenCondition {
            condition: found.condition,
            name,
        })
    }
}

impl Display for BrokenCondition {
    fn fmt<W: Write>(&self, f: &mut Formatter<W>) -> fmt::Result {
        let found = IllFormed {
            condition: self.condition,
            name: self.name.as_ref(),
            around: None,
        };
        found.fmt(f)
    }
}

/// Why no well-formed syntax tree was made of JSON.
///
/// ```
/// match from_well_formed_ast_json_str::<Document>(alloc, r#"{"kind":"Document","definitions":[]}"#, FileId::new(1)) {
///     Ok(document) => print!(rt; "{document}")?,
///     Err(error) => println!(rt; "{error}")?, // at the root: a document without a definition
/// }
/// ```
#[derive(Debug, Drop, Error)]
pub enum WellFormedError {
    /// No tree was made of it, well formed or not.
    #[error("{0}")]
    NotRead(AstJsonError),
    /// The JSON is of a tree that isn't well formed. The first of its flaws in the order of print is at this path,
    /// in a node that tells this location.
    ///
    /// The path is that of what is told of the condition: of the node, as of an empty selection set, or of the text
    /// of a name.
    #[error("at {path}{location}: {broken}")]
    IllFormed {
        path: JsonPath,
        location: NodeLocation,
        broken: BrokenCondition,
    },
}

impl WellFormedError {
    ghost use Rattle.graphql_ast_json.specs.code.WellFormed.{IsMemoryRefused};

    /// Whether an allocation failed.
    pub fn is_memory(&self) -> bool
        ensures { IsTrue result ↔ IsMemoryRefused self.now }
    {
        match self {
            Self::NotRead(error) => error.is_memory(),
            Self::IllFormed { .. } => false,
        }
    }
}

impl From<AllocError> for WellFormedError {
    ghost use Rattle.ast_json_nodes.specs.declared.error.AstJsonError.TheVariants.{Memory};
    ghost use Rattle.graphql_ast_json.specs.declared.well_formed.WellFormedError.TheVariants.{NotRead};

    ghost from_gives = { λ _ error. error ≡ NotRead Memory };

    fn from(_error: AllocError) -> WellFormedError {
        WellFormedError::NotRead(AstJsonError::Memory)
    }
}

/// The tree that a node is of, if it is well formed.
///
/// `WellFormedError::NotRead` where `AstJson::read_ast_json` refuses the node, and `WellFormedError::IllFormed` exactly
/// where the node is of a tree that isn't well formed, unless an allocation fails.
pub fn read_well_formed_ast_json<T: AstJson + SyntaxTree + Drop>(
    node: NodeReader<'_>,
) -> Result<T, WellFormedError>
    ensures ok { IfOk result (λ value.
        IsReadAs T.is_json_of node.entry (T.AstJson.tree value)) }
    ensures stands { IfOk result (λ value. T.stands value (node_json node.entry)) }
    ensures file { IfOk result (λ value. IsInFile node.entry.source (T.location value)) }
    ensures well_formed { IfOk result (λ value.
        IsTrue (T.kind.obeys (T.SyntaxTree.tree value))) }
    ensures err { IfErr result (λ error. IfNotRead error (λ refusal.
        ¬ IsMemory refusal → IsOfNone T.is_json_of node.entry)) }
    ensures ill_formed { IfErr result (λ error. IfIllFormed error (λ flaw. (value : T)
        × IsReadAs T.is_json_of node.entry (T.AstJson.tree value)
        × (first_flaw (T.kind.flaws (T.SyntaxTree.tree value)) ≡ Some flaw))) }
{
    read_well_formed_json(JsonNode::of(node))
}

/// The same of JSON in either form.
pub fn read_well_formed_json<T: AstJson + SyntaxTree + Drop>(
    node: JsonNode<'_, '_>,
) -> Result<T, WellFormedError>
    ensures ok { IfOk result (λ value.
        IsReadFrom T.is_json_of node.entry (T.AstJson.tree value)) }
    ensures stands { IfOk result (λ value. T.stands value (node_data node.entry)) }
    ensures file { IfOk result (λ value. IsInFile node.entry.source (T.location value)) }
    ensures well_formed { IfOk result (λ value.
        IsTrue (T.kind.obeys (T.SyntaxTree.tree value))) }
    ensures err { IfErr result (λ error. IfNotRead error (λ refusal.
        ¬ IsMemory refusal → IsFromNone T.is_json_of node.entry)) }
    ensures ill_formed { IfErr result (λ error. IfIllFormed error (λ flaw. (value : T)
        × IsReadFrom T.is_json_of node.entry (T.AstJson.tree value)
        × (first_flaw (T.kind.flaws (T.SyntaxTree.tree value)) ≡ Some flaw))) }
{
    let tree = match T::read_json(node) {
        Ok(tree) => tree,
        Err(error) => return Err(WellFormedError::NotRead(error)),
    };
    match tree.find_ill_formed() {
        None => Ok(tree),
        Some(found) => {
            let broken = BrokenCondition::of(&found)?;
            let flawed = path_of(node, found.condition)?;
            Err(WellFormedError::IllFormed {
                path: flawed.path,
                location: NodeLocation(flawed.location),
                broken,
            })
        }
    }
}

/// The tree that a text of AST JSON is of, if it is well formed.
///
/// It is `read_well_formed_ast_json` of the JSON that the text is, with what is unknown refused.
///
/// ```
/// let text = r#"{"kind":"EnumTypeExtension","name":{"kind":"Name","value":"E"}}"#;
/// match from_well_formed_ast_json_str::<EnumTypeExtension>(alloc, text, FileId::new(1)) {
///     Err(error) => println!(rt; "{error}")?, // at the root: an extension that adds nothing: `E`
///     ..
/// }
/// ```
pub fn from_well_formed_ast_json_str<T: AstJson + SyntaxTree + Drop>(
    alloc: Global,
    text: &str,
    source: FileId,
) -> Result<T, WellFormedError>
    ensures ok { IfOk result (λ value. (json : Data)
        × (read text.now ≡ Some json) × T.is_json_of Refuse (T.AstJson.tree value) json) }
    ensures stands { IfOk result (λ value. (json : Data)
        × (read text.now ≡ Some json) × T.stands value json) }
    ensures file { IfOk result (λ value. IsInFile source (T.location value)) }
    ensures well_formed { IfOk result (λ value.
        IsTrue (T.kind.obeys (T.SyntaxTree.tree value))) }
    ensures err { IfErr result (λ error. IfNotRead error (λ refusal. ¬ IsMemory refusal
        → (json : Data) → read text.now ≡ Some json
        → (tree : T.Tree) → ¬ T.is_json_of Refuse tree json)) }
    ensures ill_formed { IfErr result (λ error. IfIllFormed error (λ flaw.
        (value : T) × (json : Data)
        × (read text.now ≡ Some json) × T.is_json_of Refuse (T.AstJson.tree value) json
        × (first_flaw (T.kind.flaws (T.SyntaxTree.tree value)) ≡ Some flaw))) }
    ensures depth { IfErr result (λ error. IfNotRead error (DepthIsTold text.now)) }
{
    if T::reads_parsed() {
        if let Some(value) = read_parsed(alloc, text, source)? {
            return Ok(value);
        }
    }
    read_otherwise(alloc, text, source)
}

/// The same of a text that is parsed, and none where it is not.
// The scratch lies in a frame of its own, so that the caller goes on without it, and a text is read otherwise with another.
#[inline(never)]
fn read_parsed<T: AstJson + SyntaxTree + Drop>(
    alloc: Global,
    text: &str,
    source: FileId,
) -> Result<Option<T>, WellFormedError>
    ensures parsed { IfOk result (λ found. is_some found ≡ is_some (read text.now)) }
    ensures ok { IfOk result (λ found. IfSome found (λ value. (json : Data)
        × (read text.now ≡ Some json) × T.is_json_of Refuse (T.AstJson.tree value) json)) }
    ensures stands { IfOk result (λ found. IfSome found (λ value. (json : Data)
        × (read text.now ≡ Some json) × T.stands value json)) }
    ensures file { IfOk result (λ found. IfSome found (λ value.
        IsInFile source (T.location value))) }
    ensures well_formed { IfOk result (λ found. IfSome found (λ value.
        IsTrue (T.kind.obeys (T.SyntaxTree.tree value)))) }
    ensures err { IfErr result (λ error. IfNotRead error (λ refusal. ¬ IsMemory refusal
        → (json : Data) → read text.now ≡ Some json
        → (tree : T.Tree) → ¬ T.is_json_of Refuse tree json)) }
    ensures ill_formed { IfErr result (λ error. IfIllFormed error (λ flaw.
        (value : T) × (json : Data)
        × (read text.now ≡ Some json) × T.is_json_of Refuse (T.AstJson.tree value) json
        × (first_flaw (T.kind.flaws (T.SyntaxTree.tree value)) ≡ Some flaw))) }
    ensures depth { IfErr result (λ error. IfNotRead error (DepthIsTold text.now)) }
{
    let mut scratch = Scratch::new(alloc);
    match parse_json(alloc, text, &mut scratch)? {
        Some(value) => {
            let node = JsonNode::parsed(alloc, &value, source, Unknown::Refuse);
            Ok(Some(read_well_formed_json(node)?))
        }
        None => Ok(None),
    }
}

/// The same by a value of `serde_json`. A text that was not parsed is no JSON: it is read again, for the error.
// It has a frame of its own, so that a text that is parsed is read without it.
#[inline(never)]
fn read_otherwise<T: AstJson + SyntaxTree + Drop>(
    alloc: Global,
    text: &str,
    source: FileId,
) -> Result<T, WellFormedError>
    ensures ok { IfOk result (λ value. (json : Data)
        × (read text.now ≡ Some json) × T.is_json_of Refuse (T.AstJson.tree value) json) }
    ensures stands { IfOk result (λ value. (json : Data)
        × (read text.now ≡ Some json) × T.stands value json) }
    ensures file { IfOk result (λ value. IsInFile source (T.location value)) }
    ensures well_formed { IfOk result (λ value.
        IsTrue (T.kind.obeys (T.SyntaxTree.tree value))) }
    ensures err { IfErr result (λ error. IfNotRead error (λ refusal. ¬ IsMemory refusal
        → (json : Data) → read text.now ≡ Some json
        → (tree : T.Tree) → ¬ T.is_json_of Refuse tree json)) }
    ensures ill_formed { IfErr result (λ error. IfIllFormed error (λ flaw.
        (value : T) × (json : Data)
        × (read text.now ≡ Some json) × T.is_json_of Refuse (T.AstJson.tree value) json
        × (first_flaw (T.kind.flaws (T.SyntaxTree.tree value)) ≡ Some flaw))) }
    ensures depth { IfErr result (λ error. IfNotRead error (DepthIsTold text.now)) }
{
    let json = match read_json(alloc, text) {
        Ok(json) => json,
        Err(error) => return Err(WellFormedError::NotRead(error)),
    };
    read_well_formed_ast_json(NodeReader {
        alloc,
        json: &json,
        source,
        unknown: Unknown::Refuse,
    })
}
