//! Why JSON is of no syntax tree, and where in it.
ghost use Rattle.std.specs.Prelude.{◌≡◌, ◌↔◌, IsTrue};

use graphql_base::span::SourceSpan;
use std::alloc::{AllocError, AllocFailed, Global};
use std::fmt::{self, Display, Formatter, Write};
use thiserror::Error;

/// A type of JSON.
///
/// `Display` names it with its article.
///
/// ```
/// println!(rt; "{} or {}", JsonType::Null, JsonType::Text)?; // null or a string
/// ```
#[derive(Clone, Copy, Debug, Drop, PartialEq, Eq)]
pub enum JsonType {
    Null,
    Boolean,
    Number,
    Text,
    Array,
    Object,
}

impl Display for JsonType {
    fn fmt<W: Write>(&self, f: &mut Formatter<W>) -> fmt::Result {
        f.write_str(match self {
            JsonType::Null => "null",
            JsonType::Boolean => "a boolean",
            JsonType::Number => "a number",
            JsonType::Text => "a string",
            JsonType::Array => "an array",
            JsonType::Object => "an object",
        })
    }
}

/// How many characters of a text that was found an error tells.
const EXCERPT: usize = 60;

/// A text that was found: its first 60 characters.
///
/// `Display` writes it between backquotes, escaped.
///
/// ```
/// // `json` is {"kind":"Nmae","value":"a"}
/// if let Err(AstJsonError::Invalid { problem, .. }) = Name::from_ast_json(alloc, &json, FileId::new(1)) {
///     if let AstJsonProblem::UnknownKind { found, wanted } = problem {
///         println!(rt; "{found}, not {wanted}")?; // `Nmae`, not Name
///     }
/// }
/// ```
#[derive(Debug, Drop)]
pub struct Excerpt {
    text: String,
    is_cut: bool,
}

impl Excerpt {
    ghost use Rattle.std.specs.Prelude.{IfOk};
    ghost use Rattle.ast_json_nodes.specs.code.ToldErrors.{IsExcerptOf};

    fn new(alloc: Global, found: &str) -> Result<Excerpt, AllocError>
        ensures { IfOk result (IsExcerptOf found.now) }
    {
        let mut text = String::new(alloc);
        let mut count = 0usize;
        for character in found.chars() {
            if count == EXCERPT {
                return Ok(Excerpt { text, is_cut: true });
            }
            text.push(character)?;
            count += 1;
        }
        Ok(Excerpt {
            text,
            is_cut: false,
        })
    }
}

impl Display for Excerpt {
    fn fmt<W: Write>(&self, f: &mut Formatter<W>) -> fmt::Result {
        if self.text.is_empty() {
            return f.write_str("an empty text");
        }
        f.write_str("`")?;
        for character in self.text.chars() {
            write!(f, "{}", character.escape_debug())?;
        }
        f.write_str(if self.is_cut { "..`" } else { "`" })
    }
}

/// What is wrong with a part of the JSON.
///
/// ```
/// // `json` is {"kind":"IntValue"}
/// if let Err(AstJsonError::Invalid { problem, .. }) = Value::from_ast_json(alloc, &json, FileId::new(1)) {
///     println!(rt; "{problem}")?; // found no member `value`, which each IntValue has
/// }
/// ```
#[derive(Debug, Drop, Error)]
pub enum AstJsonProblem {
    /// A member or an item of another type.
    #[error("found {found} where {wanted} was wanted")]
    WrongType { found: JsonType, wanted: JsonType },
    /// A member that each node of this kind has. One that is null counts as missing.
    #[error("found no member `{name}`, which each {of} has")]
    MissingMember { name: String, of: String },
    /// A member that no node of this kind has.
    #[error("found a member {name}, which no {of} has")]
    UnknownMember { name: Excerpt, of: String },
    /// A kind other than the one that is wanted here, or than each of those.
    #[error("found the kind {found} where {wanted} was wanted")]
    UnknownKind { found: Excerpt, wanted: String },
    /// A text outside the syntax of what is wanted, as a name.
    #[error("found {found} where {wanted} was wanted")]
    WrongText { found: Excerpt, wanted: String },
    /// A number of a location that is no integer below 2^32.
    #[error("found a number that is no integer from 0 to 4294967295")]
    WrongOffset,
    /// A location that starts after its end.
    #[error("found a location from {start} to {end}, which starts after its end")]
    WrongOrder { start: u32, end: u32 },
}

/// A path within JSON, as `fields[0].value`. The root is the empty path.
///
/// ```
/// // `json` is {"kind":"ListValue","values":[{"kind":"IntValue","value":true}]}
/// if let Err(AstJsonError::Invalid { path, .. }) = Value::from_ast_json(alloc, &json, FileId::new(1)) {
///     println!(rt; "{}", path.as_str())?; // values[0].value
/// }
/// ```
#[derive(Debug, Drop)]
pub struct JsonPath {
    text: String,
}

impl JsonPath {
    ghost use Rattle.std.specs.Prelude.{[], IfOk};
    ghost use Rattle.ast_json_nodes.specs.code.Paths.{path_text, path_in, begins_with_name, item_name};

    #[doc(hidden)]
    pub fn root(alloc: Global) -> JsonPath
        ensures { path_text result ≡ [] }
    {
        JsonPath {
            text: String::new(alloc),
        }
    }

    /// The path, which is empty at the root.
    pub fn as_str(&self) -> &str
        ensures { result.now ≡ path_text self.now }
    {
        self.text.as_str()
    }

    /// Whether a `.` comes before the path, where a member does: it begins with the name of another.
    fn begins_with_name(&self) -> bool
        ensures { result ≡ begins_with_name (path_text self.now) }
    {
        match self.text.as_bytes().first() {
            None | Some(b'[') => false,
            Some(_) => true,
        }
    }

    /// The same path, told from the object that has it in this member.
    #[doc(hidden)]
    pub fn in_member(&self, alloc: Global, name: &str) -> Result<JsonPath, AllocError>
        ensures { IfOk result (λ path. path_text path ≡ path_in name.now (path_text self.now)) }
    {
        if self.begins_with_name() {
            let text = format!(in alloc; "{name}.{}", self.as_str())?;
            Ok(JsonPath { text })
        } else {
            let text = format!(in alloc; "{name}{}", self.as_str())?;
            Ok(JsonPath { text })
        }
    }

    /// The same path, told from the array that has it in this item.
    #[doc(hidden)]
    pub fn in_item(&self, alloc: Global, index: usize) -> Result<JsonPath, AllocError>
        ensures { IfOk result (λ path.
            path_text path ≡ path_in (item_name index) (path_text self.now)) }
    {
        let item = format!(in alloc; "[{index}]")?;
        self.in_member(alloc, item.as_str())
    }
}

impl Display for JsonPath {
    fn fmt<W: Write>(&self, f: &mut Formatter<W>) -> fmt::Result {
        if self.text.is_empty() {
            f.write_str("the root")
        } else {
            write!(f, "`{}`", self.as_str())
        }
    }
}

/// Why no syntax tree was made of JSON.
///
/// ```
/// let text = r#"{"kind":"IntValue","value":true}"#;
/// if let Err(error) = from_ast_json_str::<Value>(alloc, text, FileId::new(1)) {
///     println!(rt; "{error}")?; // at `value`: found a boolean where a string was wanted
/// }
/// ```
#[derive(Debug, Drop, Error)]
pub enum AstJsonError {
    /// Out of memory: an allocation failed, for the tree or for the error.
    #[error("out of memory")]
    Memory,
    /// The text is no JSON.
    #[error("not JSON: {0}")]
    NotJson(serde_json::Error),
    /// The nesting depth of arrays and objects of the text is above 127.
    #[error("arrays and objects stand in one another more than 127 deep")]
    TooDeep,
    /// The JSON is of no such tree, because of this problem at this path, in a node that tells this location.
    #[error("at {path}{location}: {problem}")]
    Invalid {
        path: JsonPath,
        location: NodeLocation,
        problem: AstJsonProblem,
    },
}

/// The source location of the innermost node that has the problem and a location, if there is one.
///
/// `Display` writes its offsets, and nothing where there is none.
///
/// ```
/// let span = SourceSpan::new(FileId::new(1), 4, 9).context("start is after end")?;
/// println!(rt; "at `value`{}", NodeLocation(Some(span)))?; // at `value`, in a node from 4 to 9
/// ```
#[derive(Clone, Copy, Debug, PartialEq, Eq)]
pub struct NodeLocation(pub Option<SourceSpan>);

impl Display for NodeLocation {
    fn fmt<W: Write>(&self, f: &mut Formatter<W>) -> fmt::Result {
        match self.0 {
            Some(span) => write!(f, ", in a node from {} to {}", span.start(), span.end()),
            None => Ok(()),
        }
    }
}

impl AstJsonError {
    ghost use Rattle.std.specs.Prelude.{[]};
    ghost use Rattle.std.specs.Option.{option_or};
    ghost use Rattle.ast_json_nodes.specs.code.Errors.{IsMemory};
    ghost use Rattle.ast_json_nodes.specs.code.Paths.{item_name, path_text};
    ghost use Rattle.ast_json_nodes.specs.code.ToldErrors.{IsInvalidAnd, IsToldFrom};

    /// Whether an allocation failed.
    pub fn is_memory(&self) -> bool
        ensures { IsTrue result ↔ IsMemory self.now }
    {
        matches!(self, Self::Memory)
    }

    /// A problem of the JSON itself that is read.
    pub(crate) fn here(
        alloc: Global,
        location: Option<SourceSpan>,
        problem: AstJsonProblem,
    ) -> AstJsonError
        ensures { IsInvalidAnd (λ told told_location told_problem. (path_text told ≡ [])
            × (told_location.0 ≡ location) × (told_problem ≡ problem)) result }
    {
        AstJsonError::Invalid {
            path: JsonPath::root(alloc),
            location: NodeLocation(location),
            problem,
        }
    }

    /// The error, told from the object that has the path in this member and perhaps tells its own location.
    #[doc(hidden)]
    pub fn in_member(self, alloc: Global, name: &str, outer: Option<SourceSpan>) -> AstJsonError
        ensures memory { IsMemory self → IsMemory result }
        ensures told { IsToldFrom name.now
            (λ location told. told.0 ≡ option_or location.0 outer) self result }
    {
        match self {
            AstJsonError::Invalid {
                path,
                location,
                problem,
            } => match path.in_member(alloc, name) {
                Ok(path) => AstJsonError::Invalid {
                    path,
                    location: NodeLocation(location.0.or(outer)),
                    problem,
                },
                Err(_) => AstJsonError::Memory,
            },
            other => other,
        }
    }

    /// The error, told from the array that has the path in this item.
    #[doc(hidden)]
    pub fn in_item(self, alloc: Global, index: usize) -> AstJsonError
        ensures memory { IsMemory self → IsMemory result }
        ensures told { IsToldFrom (item_name index)
            (λ location told. told ≡ location) self result }
    {
        match self {
            AstJsonError::Invalid {
                path,
                location,
                problem,
            } => match path.in_item(alloc, index) {
                Ok(path) => AstJsonError::Invalid {
                    path,
                    location,
                    problem,
                },
                Err(_) => AstJsonError::Memory,
            },
            other => other,
        }
    }
}

impl AstJsonProblem {
    ghost use Rattle.std.specs.Prelude.{IfOk};
    ghost use Rattle.ast_json_nodes.specs.code.ToldErrors.{IsMissing, IsUnknownKind, IsUnknownMember, IsWrongText};

    /// A member that is missing in each of these.
    pub(crate) fn missing(alloc: Global, name: &str, of: &str) -> Result<AstJsonProblem, AllocError>
        ensures { IfOk result (IsMissing name.now of.now) }
    {
        Ok(AstJsonProblem::MissingMember {
            name: String::from_str(alloc, name)?,
            of: String::from_str(alloc, of)?,
        })
    }

    /// A member that none of these has.
    pub(crate) fn unknown(alloc: Global, name: &str, of: &str) -> Result<AstJsonProblem, AllocError>
        ensures { IfOk result (IsUnknownMember name.now of.now) }
    {
        Ok(AstJsonProblem::UnknownMember {
            name: Excerpt::new(alloc, name)?,
            of: String::from_str(alloc, of)?,
        })
    }

    /// A kind that is not wanted here.
    pub(crate) fn kind(
        alloc: Global,
        found: &str,
        wanted: &str,
    ) -> Result<AstJsonProblem, AllocError>
        ensures { IfOk result (IsUnknownKind found.now wanted.now) }
    {
        Ok(AstJsonProblem::UnknownKind {
            found: Excerpt::new(alloc, found)?,
            wanted: String::from_str(alloc, wanted)?,
        })
    }

    /// A text outside the syntax of what is wanted.
    pub(crate) fn text(
        alloc: Global,
        found: &str,
        wanted: &str,
    ) -> Result<AstJsonProblem, AllocError>
        ensures { IfOk result (IsWrongText found.now wanted.now) }
    {
        Ok(AstJsonProblem::WrongText {
            found: Excerpt::new(alloc, found)?,
            wanted: String::from_str(alloc, wanted)?,
        })
    }
}

impl From<AllocError> for AstJsonError {
    ghost use Rattle.ast_json_nodes.specs.code.Errors.{IsMemory};

    ghost from_gives = { λ _ error. IsMemory error };

    fn from(_error: AllocError) -> AstJsonError {
        AstJsonError::Memory
    }
}

impl<T: Drop> From<AllocFailed<T>> for AstJsonError {
    ghost use Rattle.ast_json_nodes.specs.code.Errors.{IsMemory};

    ghost from_gives = { λ _ error. IsMemory error };

    fn from(_error: AllocFailed<T>) -> AstJsonError {
        AstJsonError::Memory
    }
}
