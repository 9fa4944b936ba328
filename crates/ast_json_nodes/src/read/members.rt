//! Members of a node, and the errors that are told of them.
ghost use Rattle.std.specs.Prelude.{◌≡◌, ◌<◌, ◌+◌, ℕ, Bool, List, [], ◌∷◌, IfOk, IfErr, codes, Some, None, option_map, option_and_then};
ghost use Rattle.serde_json.specs.Data.{boolean, depth, items_depth, string};
ghost use Rattle.serde_json.specs.Find.{as_array, get};
ghost use Rattle.parsed_json.specs.AnyJson.{any_data, items_data};
ghost use Rattle.ast_json_nodes.specs.code.Errors.{IsMemory};
ghost use Rattle.ast_json_nodes.specs.code.JsonNodes.{node_data, told_kind};
ghost use Rattle.ast_json_nodes.specs.code.NodeReading.{IsInFile, IsTextNode, StandsAt, stretch_of};
ghost use Rattle.ast_json_nodes.specs.code.ToldErrors.{IsLocationOr, IsTold, IsToldFrom, IsToldOfMember, IsToldOfNodeOr, IsToldOfOptional, IsUnknownKind, IsUnknownMember, IsWithout, IsWrongText, IsWrongType};
ghost use Rattle.ast_json_nodes.specs.declared.error.JsonType.TheVariants.{Array, Boolean, Text};
ghost use Rattle.ast_json_nodes.specs.nodes.Nodes.{IsBoolean, IsFlag, IsLocated, OptionalMember, items_or_none, member_of, offset_of, stretch_in};

use crate::error::{AstJsonError, AstJsonProblem, JsonType};
use crate::read::{JsonNode, find_member, type_of};
use graphql_base::span::SourceSpan;
use parsed_json::{AnyItems, AnyJson};
use std::alloc::AllocError;

/// The greatest offset of a location.
pub(crate) const MAX_OFFSET: u64 = 4294967295;

/// The offset that a location tells in the member of this name, for an error.
fn told_offset(location: AnyJson<'_, '_>, name: &str) -> Option<u32>
    ensures { result ≡ offset_of (get name.now (any_data location.entry)) }
{
    let offset = location.get(name)?.as_u64()?;
    if offset <= MAX_OFFSET {
        Some(offset as u32)
    } else {
        None
    }
}

impl<'j, 't> JsonNode<'j, 't> {
    /// Where the node tells that it stands, for an error.
    #[doc(hidden)]
    pub fn told_location(self) -> Option<SourceSpan>
        ensures stands { StandsAt result (node_data self.entry) }
        ensures file { IsInFile self.entry.source result }
    {
        match find_member(self.json, "loc") {
            Some(location) => self.told_span(location),
            None => None,
        }
    }

    /// The stretch that a location tells, for an error.
    fn told_span(self, location: AnyJson<'j, 't>) -> Option<SourceSpan>
        ensures stands { option_map stretch_of result ≡ stretch_in (any_data location.entry) }
        ensures file { IsInFile self.entry.source result }
    {
        let start = told_offset(location, "start")?;
        let end = told_offset(location, "end")?;
        SourceSpan::new(self.source, start, end)
    }

    /// The kind that the node tells, for an error.
    #[doc(hidden)]
    pub fn kind(self) -> &'j str
        ensures { result.now ≡ told_kind (node_data self.entry) }
    {
        match self.json.get("kind") {
            Some(kind) => kind.as_str().unwrap_or("node"),
            None => "node",
        }
    }

    /// The error of a problem of this JSON.
    pub(crate) fn problem(self, problem: AstJsonProblem) -> AstJsonError
        ensures { IsTold self.entry [] (λ told. told ≡ problem) result }
    {
        AstJsonError::here(self.alloc, self.told_location(), problem)
    }

    /// The same, or out of memory.
    fn problem_or_memory(self, problem: Result<AstJsonProblem, AllocError>) -> AstJsonError
        ensures ok { IfOk problem (λ found. IsTold self.entry [] (λ told. told ≡ found) result) }
        ensures err { IfErr problem (λ _. IsMemory result) }
    {
        match problem {
            Ok(problem) => self.problem(problem),
            Err(_) => AstJsonError::Memory,
        }
    }

    /// The error of JSON that is of another type than the one that is wanted.
    #[doc(hidden)]
    pub fn wrong_type(self, json: AnyJson<'_, '_>, wanted: JsonType) -> AstJsonError
        ensures { IsTold self.entry [] (IsWrongType (any_data json.entry) wanted) result }
    {
        let found = type_of(json);
        self.problem(AstJsonProblem::WrongType { found, wanted })
    }

    /// The error, told from this node, which has the path in this member.
    #[doc(hidden)]
    pub fn within(self, name: &str, error: AstJsonError) -> AstJsonError
        ensures memory { IsMemory error → IsMemory result }
        ensures told { IsToldFrom name.now (IsLocationOr self.entry) error result }
    {
        error.in_member(self.alloc, name, self.told_location())
    }

    /// The error of a text that is the member of this name, and outside the syntax of what is wanted.
    #[doc(hidden)]
    pub fn wrong_text(self, name: &str, text: &str, wanted: &str) -> AstJsonError
        ensures { ¬ IsMemory result
            → IsTold self.entry name.now (IsWrongText text.now wanted.now) result }
    {
        let problem = AstJsonProblem::text(self.alloc, text, wanted);
        self.within(name, self.problem_or_memory(problem))
    }

    /// The error of a kind that isn't wanted here.
    #[doc(hidden)]
    pub fn wrong_kind(self, kind: &str, wanted: &str) -> AstJsonError
        ensures { ¬ IsMemory result
            → IsTold self.entry (codes "kind") (IsUnknownKind kind.now wanted.now) result }
    {
        let problem = AstJsonProblem::kind(self.alloc, kind, wanted);
        self.within("kind", self.problem_or_memory(problem))
    }

    /// The error of a member that none of these has.
    pub(crate) fn unknown(self, name: &str, of: &str) -> AstJsonError
        ensures { ¬ IsMemory result
            → IsTold self.entry [] (IsUnknownMember name.now of.now) result }
    {
        self.problem_or_memory(AstJsonProblem::unknown(self.alloc, name, of))
    }

    /// The error of JSON without a member that each of these has.
    #[doc(hidden)]
    pub fn missing(self, name: &str, of: &str) -> AstJsonError
        ensures { ¬ IsMemory result
            → IsTold self.entry [] (IsWithout name.now of.now (node_data self.entry)) result }
    {
        if self.json.is_object() {
            self.problem_or_memory(AstJsonProblem::missing(self.alloc, name, of))
        } else {
            self.wrong_type(self.json, JsonType::Object)
        }
    }

    /// The JSON of the member of this name, which the node must have.
    #[doc(hidden)]
    pub fn required(self, name: &str) -> Result<AnyJson<'j, 't>, AstJsonError>
        ensures ok { IfOk result (λ v.
            member_of name.now (node_data self.entry) ≡ Some (any_data v)) }
        ensures inside { IfOk result (λ v. depth (any_data v) < depth (node_data self.entry)) }
        ensures err { IfErr result (λ error. ¬ IsMemory error
            → member_of name.now (node_data self.entry) ≡ None) }
        ensures told { IfErr result (λ error. ¬ IsMemory error → IsTold self.entry []
            (IsWithout name.now (told_kind (node_data self.entry)) (node_data self.entry))
            error) }
    {
        match find_member(self.json, name) {
            Some(member) => Ok(member),
            None => Err(self.missing(name, self.kind())),
        }
    }

    /// The text that the member of this name is.
    #[doc(hidden)]
    pub fn text(self, name: &str) -> Result<&'j str, AstJsonError>
        ensures ok { IfOk result (λ text.
            member_of name.now (node_data self.entry) ≡ Some (string text.now)) }
        ensures err { IfErr result (λ error. ¬ IsMemory error
            → (text : List ℕ) → ¬ (member_of name.now (node_data self.entry)
            ≡ Some (string text))) }
        ensures told { IfErr result (λ error. ¬ IsMemory error
            → IsToldOfMember self.entry name.now Text error) }
    {
        match find_member(self.json, name) {
            None => Err(self.missing(name, self.kind())),
            Some(member) => match member.as_str() {
                Some(text) => Ok(text),
                None => Err(self.within(name, self.wrong_type(member, JsonType::Text))),
            },
        }
    }

    /// The text of a node of this kind that has one.
    #[doc(hidden)]
    pub fn text_of_kind(self, kind: &str) -> Result<&'j str, AstJsonError>
        requires { IsLocated self.unknown (node_data self) }
        ensures ok { IfOk result (λ text.
            IsTextNode self.entry.unknown kind.now text.now (node_data self.entry)) }
        ensures err { IfErr result (λ error. ¬ IsMemory error
            → (text : List ℕ) → ¬ IsTextNode self.entry.unknown kind.now text
            (node_data self.entry)) }
        ensures told { IfErr result (λ error. ¬ IsMemory error
            → IsToldOfNodeOr self.entry kind.now (codes "value" ∷ [])
            (IsToldOfMember self.entry (codes "value") Text error) error) }
    {
        self.check(kind, &["value"])?;
        self.text("value")
    }

    /// Whether the member of this name is true. One that isn't there is false.
    #[doc(hidden)]
    pub fn flag(self, name: &str) -> Result<bool, AstJsonError>
        ensures ok { IfOk result (λ is_so.
            IsFlag is_so (member_of name.now (node_data self.entry))) }
        ensures err { IfErr result (λ error. ¬ IsMemory error
            → (is_so : Bool) → ¬ IsFlag is_so (member_of name.now (node_data self.entry))) }
        ensures told { IfErr result (λ error. ¬ IsMemory error
            → IsToldOfOptional self.entry name.now Boolean error) }
    {
        match find_member(self.json, name) {
            None => Ok(false),
            Some(member) => match member.as_bool() {
                Some(is_so) => Ok(is_so),
                None => Err(self.within(name, self.wrong_type(member, JsonType::Boolean))),
            },
        }
    }

    /// The boolean that the member of this name is.
    #[doc(hidden)]
    pub fn boolean(self, name: &str) -> Result<bool, AstJsonError>
        ensures ok { IfOk result (λ is_true.
            member_of name.now (node_data self.entry) ≡ Some (boolean is_true)) }
        ensures err { IfErr result (λ error. ¬ IsMemory error
            → (is_true : Bool) → ¬ (member_of name.now (node_data self.entry)
            ≡ Some (boolean is_true))) }
        ensures told { IfErr result (λ error. ¬ IsMemory error
            → IsToldOfMember self.entry name.now Boolean error) }
    {
        match find_member(self.json, name) {
            None => Err(self.missing(name, self.kind())),
            Some(value) => match value.as_bool() {
                Some(is_true) => Ok(is_true),
                None => Err(self.within(name, self.wrong_type(value, JsonType::Boolean))),
            },
        }
    }

    /// That the member of this name is a boolean, if it is there.
    #[doc(hidden)]
    pub fn check_optional_boolean(self, name: &str) -> Result<(), AstJsonError>
        ensures ok { IfOk result (λ _.
            OptionalMember name.now (node_data self.entry) IsBoolean) }
        ensures err { IfErr result (λ error. ¬ IsMemory error
            → ¬ OptionalMember name.now (node_data self.entry) IsBoolean) }
        ensures told { IfErr result (λ error. ¬ IsMemory error
            → IsToldOfOptional self.entry name.now Boolean error) }
    {
        match find_member(self.json, name) {
            None => Ok(()),
            Some(found) => match found.as_bool() {
                Some(_) => Ok(()),
                None => Err(self.within(name, self.wrong_type(found, JsonType::Boolean))),
            },
        }
    }

    /// The items of the array that the member of this name is.
    #[doc(hidden)]
    pub fn items(self, name: &str) -> Result<AnyItems<'j, 't>, AstJsonError>
        ensures ok { IfOk result (λ items. option_and_then as_array
            (member_of name.now (node_data self.entry)) ≡ Some (items_data items)) }
        ensures inside { IfOk result (λ items.
            items_depth (items_data items) + 1 < depth (node_data self.entry)) }
        ensures err { IfErr result (λ error. ¬ IsMemory error
            → option_and_then as_array (member_of name.now (node_data self.entry)) ≡ None) }
        ensures told { IfErr result (λ error. ¬ IsMemory error
            → IsToldOfMember self.entry name.now Array error) }
    {
        let member = self.required(name)?;
        match member.as_items() {
            Some(items) => Ok(items),
            None => Err(self.within(name, self.wrong_type(member, JsonType::Array))),
        }
    }

    /// The same, and none where the member is not there.
    #[doc(hidden)]
    pub fn optional_items(self, name: &str) -> Result<AnyItems<'j, 't>, AstJsonError>
        ensures ok { IfOk result (λ items.
            items_or_none (member_of name.now (node_data self.entry)) ≡ Some
            (items_data items)) }
        ensures err { IfErr result (λ error. ¬ IsMemory error
            → items_or_none (member_of name.now (node_data self.entry)) ≡ None) }
        ensures told { IfErr result (λ error. ¬ IsMemory error
            → IsToldOfOptional self.entry name.now Array error) }
    {
        match find_member(self.json, name) {
            None => Ok(AnyItems::Owned(&[])),
            Some(member) => match member.as_items() {
                Some(items) => Ok(items),
                None => Err(self.within(name, self.wrong_type(member, JsonType::Array))),
            },
        }
    }
}
