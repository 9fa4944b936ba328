//! JSON is read: a node's kind, the names of its members, and where it stands.
ghost use Rattle.std.specs.Prelude.{◌≡◌, ◌<◌, [], ◌++◌, IfOk, IfErr, IfSome, OnOk, OnSome, Some, None, IsTrue, codes, is_some, nat_eq, not, option_map};
ghost use Rattle.std.specs.Cmp.Lexicographic.{pointwise};
ghost use Rattle.std.specs.List.{position_from};
ghost use Rattle.json.specs.Value.{members_view as parsed_members};
ghost use Rattle.serde_json.specs.Data.{depth, no_members, object};
ghost use Rattle.serde_json.specs.Find.{get};
ghost use Rattle.serde_json.specs.View.{members_view, view};
ghost use Rattle.graphql_text.specs.grammar.Forms.{is_one_of};
ghost use Rattle.parsed_json.specs.AnyJson.{any_data, two_numbers};
ghost use Rattle.ast_json_nodes.specs.code.Errors.{IsMemory};
ghost use Rattle.ast_json_nodes.specs.code.JsonNodes.{has_other_names, member_names, node_data, type_of};
ghost use Rattle.ast_json_nodes.specs.code.NodeReading.{IsInFile, StandsAt, node_json, stretch_of, texts_of};
ghost use Rattle.ast_json_nodes.specs.code.ToldErrors.{HasUnknown, IsTold, IsToldOfNode, first_unknown};
ghost use Rattle.parsed_json.specs.ParsedJson.{parsed_data, with_members};
ghost use Rattle.ast_json_nodes.specs.nodes.Nodes.{HasOnly, IsLocated, IsLocation, IsNode, member_of, names_among, offset_of, stretch_in};

pub(crate) mod members;
pub(crate) mod text;

use crate::error::{AstJsonError, AstJsonProblem, JsonType};
use graphql_base::span::{FileId, SourceSpan};
use json::Value as Parsed;
use members::MAX_OFFSET;
use parsed_json::AnyJson;
use serde_json::{Map, Value as Json, put};
use std::alloc::{AllocError, Global};

/// What is done with a member that no node of the kind has, or that no location has.
///
/// ```
/// // `json` is {"kind":"IntValue","value":"4","extra":true}
/// let node = NodeReader { alloc, json: &json, source: FileId::new(1), unknown: Unknown::PassOver };
/// let value = Value::read_ast_json(node)?; // the value 4; an error with `Unknown::Refuse`
/// ```
#[derive(Clone, Copy, Debug, PartialEq, Eq)]
pub enum Unknown {
    /// The JSON is refused.
    Refuse,
    /// The member is passed over, whatever it is.
    PassOver,
}

/// JSON that is read, as a rule a node of a syntax tree, with what its reading needs.
///
/// ```
/// // `json` is {"kind":"Name","value":"id"}
/// let node = NodeReader { alloc, json: &json, source: FileId::new(1), unknown: Unknown::Refuse };
/// let name = Name::read_ast_json(node)?;
/// println!(rt; "{name}")?; // id
/// ```
#[derive(Clone, Copy)]
pub struct NodeReader<'j> {
    pub alloc: Global,
    pub json: &'j Json,
    /// The file that the locations of nodes are in.
    pub source: FileId,
    pub unknown: Unknown,
}

/// JSON that is read, as a rule a node of a syntax tree, in either form.
///
/// It is a value of `serde_json`, or one that `parse_json` made of a text, which is read in a fraction of the time. The
/// scratch of `parse_json` is `Scratch` of the kit's crate `json`: a program that calls it lists `json` in its line of
/// crates.txt.
///
/// ```
/// let mut scratch = Scratch::new(alloc);
/// if let Some(value) = parse_json(alloc, text, &mut scratch)? {
///     let node = JsonNode::parsed(alloc, &value, FileId::new(1), Unknown::PassOver);
///     let document = Document::read_json(node)?;
/// }
/// ```
#[derive(Clone, Copy)]
pub struct JsonNode<'j, 't> {
    pub alloc: Global,
    pub json: AnyJson<'j, 't>,
    pub source: FileId,
    pub unknown: Unknown,
}

/// Where the first of these names stands that is this one, if one is.
#[doc(hidden)]
pub fn index_of(names: &[&str], name: &str) -> Option<usize>
    ensures found { is_some result ≡ is_one_of (texts_of names.now) name.now }
    ensures first { result
        ≡ position_from (λ known. pointwise nat_eq known name.now) 0 (texts_of names.now) }
{
    for index in 0..names.len() {
        if names[index] == name {
            return Some(index);
        }
    }
    None
}

/// Whether this is one of the names.
#[doc(hidden)]
pub fn is_one_of(names: &[&str], name: &str) -> bool
    ensures { result ≡ is_one_of (texts_of names.now) name.now }
{
    index_of(names, name).is_some()
}

/// Whether this is one of the names, or of the others.
#[tactic(auto, using(crate::proofs::nodes::NamesAmong::one_of_steps))]
fn is_one_of_either(names: &[&str], others: &[&str], name: &str) -> bool
    ensures { result ≡ is_one_of (texts_of names.now ++ texts_of others.now) name.now }
{
    if is_one_of(names, name) {
        true
    } else {
        is_one_of(others, name)
    }
}

/// The first name of a member that is none of these.
fn unknown_name<'j>(
    members: &'j Map<String, Json>,
    names: &[&str],
    others: &[&str],
) -> Option<&'j str>
    ensures other { is_some result ≡ not (names_among (texts_of names.now ++ texts_of others.now)
        (members_view members.now.entries)) }
    ensures first { option_map (λ name. name.now) result
        ≡ first_unknown (texts_of names.now ++ texts_of others.now)
        (member_names (members_view members.now.entries)) }
{
    for (name, _) in members.iter() {
        if !is_one_of_either(names, others, name.as_str()) {
            return Some(name.as_str());
        }
    }
    None
}

/// Whether each member has one of these names.
fn have_only_names(members: &[(&str, Parsed<'_>)], names: &[&str], others: &[&str]) -> bool
    ensures { result ≡ names_among (texts_of names.now ++ texts_of others.now)
        (with_members (parsed_members members.now) no_members) }
{
    for (name, _) in members {
        if !is_one_of_either(names, others, name) {
            return false;
        }
    }
    true
}

/// The names of these members as an object has them, in order, each with null.
fn names_alone(
    alloc: Global,
    members: &[(&str, Parsed<'_>)],
) -> Result<Map<String, Json>, AllocError>
    ensures { IfOk result (λ names. member_names (members_view names.entries)
        ≡ member_names (with_members (parsed_members members.now) no_members)) }
{
    let mut names = Map::new(alloc);
    for (name, _) in members {
        put(&mut names, alloc, name, Json::Null)?;
    }
    Ok(names)
}

/// The offsets, start first, of a location of `serde_json` that has these two members alone: `end` comes first in the order
/// of names.
#[tactic(auto, using(crate::proofs::nodes::TwoOffsets::are_offsets))]
fn owned_offsets(members: &Map<String, Json>) -> Option<(u64, u64)>
    ensures { IfSome result (λ n. object (members_view members.now.entries)
        ≡ two_numbers (codes "start") n.0 (codes "end") n.1) }
{
    if members.len() != 2 {
        return None;
    }
    let (first, end) = members.first_key_value()?;
    let (last, start) = members.last_key_value()?;
    if first.as_str() == "end" && last.as_str() == "start" {
        Some((start.as_u64()?, end.as_u64()?))
    } else {
        None
    }
}

/// The type of JSON, for an error.
#[tactic(auto, using(crate::proofs::nodes::JsonTypes::type_by))]
pub(crate) fn type_of(json: AnyJson<'_, '_>) -> JsonType
    ensures { result ≡ type_of (any_data json.entry) }
{
    if json.is_null() {
        JsonType::Null
    } else if json.as_bool().is_some() {
        JsonType::Boolean
    } else if json.as_str().is_some() {
        JsonType::Text
    } else if json.as_items().is_some() {
        JsonType::Array
    } else if json.is_object() {
        JsonType::Object
    } else {
        JsonType::Number
    }
}

/// The member of this name. One that is null is the same as none.
#[doc(hidden)]
pub fn find_member<'j, 't>(json: AnyJson<'j, 't>, name: &str) -> Option<AnyJson<'j, 't>>
    ensures value { option_map any_data result ≡ member_of name.now (any_data json.entry) }
    ensures inside { IfSome result (λ v. depth (any_data v) < depth (any_data json.entry)) }
{
    match json.get(name) {
        Some(member) => { if member.is_null() { None } else { Some(member) } }
        None => None,
    }
}

impl<'j, 't> JsonNode<'j, 't> {
    /// The JSON of a reader.
    #[doc(hidden)]
    pub fn of(node: NodeReader<'j>) -> JsonNode<'j, 't>
        ensures json { node_data result ≡ node_json node.entry }
        ensures source { result.source ≡ node.entry.source }
        ensures unknown { result.unknown ≡ node.entry.unknown }
    {
        JsonNode {
            alloc: node.alloc,
            json: AnyJson::Owned(node.json),
            source: node.source,
            unknown: node.unknown,
        }
    }

    /// A value of `serde_json`.
    pub fn owned(
        alloc: Global,
        value: &'j Json,
        source: FileId,
        unknown: Unknown,
    ) -> JsonNode<'j, 't>
        ensures json { node_data result ≡ view value.now }
        ensures source { result.source ≡ source }
        ensures unknown { result.unknown ≡ unknown }
    {
        JsonNode {
            alloc,
            json: AnyJson::Owned(value),
            source,
            unknown,
        }
    }

    /// A value that was parsed from a text.
    pub fn parsed(
        alloc: Global,
        value: &'j Parsed<'t>,
        source: FileId,
        unknown: Unknown,
    ) -> JsonNode<'j, 't>
        ensures json { node_data result ≡ parsed_data value.now }
        ensures source { result.source ≡ source }
        ensures unknown { result.unknown ≡ unknown }
    {
        JsonNode {
            alloc,
            json: AnyJson::Parsed(value),
            source,
            unknown,
        }
    }

    /// A reader of this JSON, by the same rules.
    #[doc(hidden)]
    pub fn over<'v>(self, json: &'v Json) -> NodeReader<'v>
        ensures json { result.json ≡ json.entry }
        ensures source { result.source ≡ self.entry.source }
        ensures unknown { result.unknown ≡ self.entry.unknown }
    {
        NodeReader {
            alloc: self.alloc,
            json,
            source: self.source,
            unknown: self.unknown,
        }
    }

    /// That an object of `serde_json` has no other members than these. The error is of the first.
    fn check_owned_names(
        self,
        members: &Map<String, Json>,
        names: &[&str],
        others: &[&str],
        of: &str,
    ) -> Result<(), AstJsonError>
        ensures ok { OnOk result (IsTrue (not (has_other_names
            (texts_of names.now ++ texts_of others.now)
            (object (members_view members.now.entries))))) }
        ensures err { IfErr result (λ error. ¬ IsMemory error → IsTrue (has_other_names
            (texts_of names.now ++ texts_of others.now)
            (object (members_view members.now.entries)))) }
        ensures told { IfErr result (λ error. ¬ IsMemory error → IsTold self.entry []
            (HasUnknown (texts_of names.now ++ texts_of others.now) of.now
            (object (members_view members.now.entries))) error) }
    {
        match unknown_name(members, names, others) {
            Some(name) => Err(self.unknown(name, of)),
            None => Ok(()),
        }
    }

    /// The same of an object that was parsed. Where it has others, its names are put in order, for the error is of the first.
    #[tactic(auto, using(crate::proofs::nodes::MemberNames::among_of_same))]
    fn check_parsed_names(
        self,
        members: &[(&str, Parsed<'_>)],
        names: &[&str],
        others: &[&str],
        of: &str,
    ) -> Result<(), AstJsonError>
        ensures ok { OnOk result (IsTrue (not (has_other_names
            (texts_of names.now ++ texts_of others.now)
            (object (with_members (parsed_members members.now) no_members))))) }
        ensures err { IfErr result (λ error. ¬ IsMemory error → IsTrue (has_other_names
            (texts_of names.now ++ texts_of others.now)
            (object (with_members (parsed_members members.now) no_members)))) }
        ensures told { IfErr result (λ error. ¬ IsMemory error → IsTold self.entry []
            (HasUnknown (texts_of names.now ++ texts_of others.now) of.now
            (object (with_members (parsed_members members.now) no_members))) error) }
    {
        if have_only_names(members, names, others) {
            return Ok(());
        }
        let found = names_alone(self.alloc, members)?;
        self.check_owned_names(&found, names, others, of)
    }

    /// The same of the JSON of the reader, where it is an object.
    fn check_other_names(
        self,
        names: &[&str],
        others: &[&str],
        of: &str,
    ) -> Result<(), AstJsonError>
        ensures ok { OnOk result (IsTrue (not (has_other_names
            (texts_of names.now ++ texts_of others.now) (node_data self.entry)))) }
        ensures err { IfErr result (λ error. ¬ IsMemory error → IsTrue (has_other_names
            (texts_of names.now ++ texts_of others.now) (node_data self.entry))) }
        ensures told { IfErr result (λ error. ¬ IsMemory error → IsTold self.entry []
            (HasUnknown (texts_of names.now ++ texts_of others.now) of.now
            (node_data self.entry)) error) }
    {
        match self.json {
            AnyJson::Owned(json) => match json {
                Json::Object(members) => self.check_owned_names(members, names, others, of),
                _ => Ok(()),
            },
            AnyJson::Parsed(value) => match value {
                Parsed::Object(members) => {
                    self.check_parsed_names(members.as_slice(), names, others, of)
                }
                _ => Ok(()),
            },
        }
    }

    /// That the JSON is an object with no other members than these, unless others are passed over.
    fn check_names(self, names: &[&str], others: &[&str], of: &str) -> Result<(), AstJsonError>
        ensures ok { OnOk result
            (HasOnly self.entry.unknown (texts_of names.now ++ texts_of others.now)
            (node_data self.entry)) }
        ensures err { IfErr result (λ error. ¬ IsMemory error →
            ¬ HasOnly self.entry.unknown (texts_of names.now ++ texts_of others.now)
            (node_data self.entry)) }
        ensures told { IfErr result (λ error. ¬ IsMemory error → IsTold self.entry []
            (HasUnknown (texts_of names.now ++ texts_of others.now) of.now
            (node_data self.entry)) error) }
    {
        if !self.json.is_object() {
            return Err(self.wrong_type(self.json, JsonType::Object));
        }
        match self.unknown {
            Unknown::PassOver => Ok(()),
            Unknown::Refuse => self.check_other_names(names, others, of),
        }
    }

    /// An offset of a location.
    fn offset(self, name: &str) -> Result<u32, AstJsonError>
        ensures ok { IfOk result (λ n. offset_of (get name.now (node_data self.entry)) ≡ Some n) }
        ensures err { IfErr result (λ error. ¬ IsMemory error
            → offset_of (get name.now (node_data self.entry)) ≡ None) }
    {
        match self.json.get(name) {
            None => Err(self.missing(name, "location")),
            Some(member) => match member.as_u64() {
                Some(number) if number <= MAX_OFFSET => Ok(number as u32),
                _ => Err(self.within(name, self.problem(AstJsonProblem::WrongOffset))),
            },
        }
    }

    /// The offsets of a location that has these two members alone, as nearly each has: so they are not looked for by name.
    fn plain_offsets(self) -> Option<(u64, u64)>
        ensures { IfSome result (λ n. node_data self.entry
            ≡ two_numbers (codes "start") n.0 (codes "end") n.1) }
    {
        match self.json {
            AnyJson::Owned(json) => match json {
                Json::Object(members) => owned_offsets(members),
                _ => None,
            },
            AnyJson::Parsed(_) => match self.json.two_numbers("start", "end") {
                Some(offsets) => Some(offsets),
                None => match self.json.two_numbers("end", "start") {
                    Some((end, start)) => Some((start, end)),
                    None => None,
                },
            },
        }
    }

    /// The stretch of such a location, if that is one.
    fn plain_span(self) -> Option<SourceSpan>
        ensures is { OnSome result (IsLocation self.entry.unknown (node_data self.entry)) }
        ensures stands { IfSome result (λ span.
            Some (stretch_of span) ≡ stretch_in (node_data self.entry)) }
        ensures file { IfSome result (λ span. IsInFile self.entry.source (Some span)) }
    {
        let (start, end) = self.plain_offsets()?;
        if start <= MAX_OFFSET && end <= MAX_OFFSET {
            SourceSpan::new(self.source, start as u32, end as u32)
        } else {
            None
        }
    }

    /// The stretch of the source text that a location is.
    fn span(self) -> Result<SourceSpan, AstJsonError>
        ensures is { OnOk result (IsLocation self.entry.unknown (node_data self.entry)) }
        ensures ok { IfOk result (λ span.
            Some (stretch_of span) ≡ stretch_in (node_data self.entry)) }
        ensures file { IfOk result (λ span. IsInFile self.entry.source (Some span)) }
        ensures err { IfErr result (λ error. ¬ IsMemory error
            → ¬ IsLocation self.entry.unknown (node_data self.entry)) }
    {
        if let Some(span) = self.plain_span() {
            return Ok(span);
        }
        self.check_names(&["start", "end"], &[], "location")?;
        let start = self.offset("start")?;
        let end = self.offset("end")?;
        match SourceSpan::new(self.source, start, end) {
            Some(span) => Ok(span),
            None => Err(self.problem(AstJsonProblem::WrongOrder { start, end })),
        }
    }

    /// Where the node stands in the source text, if it tells.
    #[doc(hidden)]
    pub fn location(self) -> Result<Option<SourceSpan>, AstJsonError>
        ensures located { OnOk result (IsLocated self.entry.unknown (node_data self.entry)) }
        ensures stands { IfOk result (λ location. StandsAt location (node_data self.entry)) }
        ensures file { IfOk result (IsInFile self.entry.source) }
        ensures err { IfErr result (λ error. ¬ IsMemory error
            → ¬ IsLocated self.entry.unknown (node_data self.entry)) }
    {
        match find_member(self.json, "loc") {
            None => Ok(None),
            Some(json) => match (JsonNode { json, ..self }).span() {
                Ok(span) => Ok(Some(span)),
                Err(error) => Err(self.within("loc", error)),
            },
        }
    }

    /// That the JSON, whose location was read, is a node of this kind with no other members than these.
    #[doc(hidden)]
    pub fn check(self, kind: &str, names: &[&str]) -> Result<(), AstJsonError>
        requires { IsLocated self.unknown (node_data self) }
        ensures ok { OnOk result
            (IsNode self.entry.unknown kind.now (texts_of names.now) (node_data self.entry)) }
        ensures err { IfErr result (λ error. ¬ IsMemory error
            → ¬ IsNode self.entry.unknown kind.now (texts_of names.now) (node_data self.entry)) }
        ensures told { IfErr result (λ error. ¬ IsMemory error
            → IsToldOfNode self.entry kind.now (texts_of names.now) error) }
    {
        let found = self.text("kind")?;
        if found != kind {
            return Err(self.wrong_kind(found, kind));
        }
        self.check_names(&["kind", "loc"], names, kind)
    }
}
