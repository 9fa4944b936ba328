//! Cases as they stand on the lines of a file, in JSON.
use serde::Deserialize;
use serde_json::Value as Json;
use std::alloc::Global;

/// A document, and what is made of it, each in AST JSON.
#[derive(Drop, Deserialize)]
#[serde(deny_unknown_fields)]
pub struct Case {
    pub document: Json,
    /// Each field `a` has the name `z`.
    pub renamed: Json,
    /// Each selection set has `__typename`.
    pub added: Json,
    /// No directive `@a` is left.
    pub removed: Json,
    /// 1 stands in the place of `$a`, and `[$a]` in that of `$b`.
    pub replaced: Json,
    /// The definitions stand in order of kind and name.
    pub sorted: Json,
    /// The document, and behind it the same in order.
    pub joined: Json,
    /// The document, with a location at each node.
    pub located: Json,
    /// Another document, of operations and fragments.
    pub executable: Json,
    /// Each operation of it with the fragments that it reaches.
    pub separated: Vec<Json>,
}

/// The case on a line.
pub fn read_case(alloc: Global, line: &str) -> Result<Case, serde_json::Error> {
    serde_json::from_str(alloc, line)
}
