//! Cases as they stand on the lines of a file, in JSON.
use serde::Deserialize;
use serde_json::Value as Json;
use std::alloc::Global;

/// A document, and what comes of walks over it. In the texts a space stands behind each word.
#[derive(Drop, Deserialize)]
#[serde(deny_unknown_fields)]
pub struct Case {
    /// AST JSON.
    pub document: Json,
    /// The kinds of the nodes, in order.
    pub nodes: String,
    /// The calls before nodes and behind them, as `+Field` and `-Field`.
    pub calls: String,
    /// The same, where what is within fields is passed over.
    pub skipped: String,
    /// The variables that are used.
    pub variables: String,
}

/// The case on a line.
pub fn read_case(alloc: Global, line: &str) -> Result<Case, serde_json::Error> {
    serde_json::from_str(alloc, line)
}
