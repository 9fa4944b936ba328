//! Cases as they stand on the lines of a group, in JSON.
use serde::Deserialize;
use serde_json::Value as Json;
use std::alloc::Global;
use std::fmt;
use std::fmt::{Display, Formatter, Write};

/// A case: it has either `print` or `json`.
#[derive(Drop, Deserialize)]
#[serde(deny_unknown_fields)]
pub struct Case {
    /// The group, and the rule in plain words, as `string/line-feed/one-line`. No two cases have the same.
    pub name: String,
    /// The kind of trees, as `ScalarTypeDefinition`: one of the table in `kinds.rt`.
    pub kind: String,
    #[serde(default)]
    pub print: Option<PrintCase>,
    #[serde(default)]
    pub json: Option<JsonCase>,
}

/// A tree, a layout, and what is wanted of its print.
#[derive(Drop, Deserialize)]
#[serde(deny_unknown_fields)]
pub struct PrintCase {
    /// AST JSON; or, for what is deeper than JSON is read, `{"nested_lists":N}`, N lists in one another, or
    /// `{"nested_fields":N}`, a query of N selection sets in one another.
    pub tree: Json,
    /// The prefix of each level, or none for one line.
    pub prefix: Option<String>,
    /// The starting level.
    pub level: usize,
    pub well_formed: bool,
    /// Why it isn't well formed, or none where it is.
    #[serde(default)]
    pub flaw: Option<Flaw>,
    /// The text, or none where the level overflows.
    pub text: Option<String>,
}

/// Why a tree isn't well formed: its first flaw in the order of print.
#[derive(Drop, Deserialize)]
#[serde(deny_unknown_fields)]
pub struct Flaw {
    /// The side condition that is broken, in the words of its display.
    pub condition: String,
    /// The name that breaks it, or else that of what breaks it, or none where that has no name.
    pub name: Option<String>,
}

impl Display for Flaw {
    fn fmt<W: Write>(&self, f: &mut Formatter<W>) -> fmt::Result {
        match &self.name {
            Some(name) => write!(f, "{}: `{name}`", self.condition),
            None => write!(f, "{}", self.condition),
        }
    }
}

/// JSON that is read, and what is wanted of that.
#[derive(Drop, Deserialize)]
#[serde(deny_unknown_fields)]
pub struct JsonCase {
    pub json: Json,
    /// Whether the reading passes over what is unknown.
    #[serde(default)]
    pub pass_over: bool,
    /// The JSON that the tree is written as, where that isn't the one that is read.
    #[serde(default)]
    pub written: Option<Json>,
    /// The text of the error, or none where a tree is read.
    pub error: Option<String>,
}

impl Case {
    /// Whether the name begins with the group, and a `/`.
    pub fn is_of_group(&self, group: &str) -> bool {
        match self.name.as_str().split_once('/') {
            Some((first, rule)) => first == group && !rule.is_empty(),
            None => false,
        }
    }
}

/// The case on a line.
pub fn read_case(alloc: Global, line: &str) -> Result<Case, serde_json::Error> {
    serde_json::from_str(alloc, line)
}
