//! What is said of JSON that is of no document, or of one that isn't well formed: what is wrong, and where.
use graphql_ast::ast::Document;
use graphql_ast::document::SourceFile;
use graphql_ast_json::error::NodeLocation;
use graphql_ast_json::{AstJsonError, Offsets};
use graphql_flaws::{FindFlaws, FoundFlaw};
use std::alloc::{AllocError, Global};

/// Where a node begins in the text that its location speaks of, as ` in a.graphql:3:1`, if that text is known and has
/// the location. Else its offsets, if it has some.
fn location_text(
    alloc: Global,
    location: NodeLocation,
    source: Option<&SourceFile>,
) -> Result<String, AllocError> {
    if let (NodeLocation(Some(span)), Some(file)) = (location, source) {
        if let Some(start) = Offsets::Utf16.byte_offset(file.text.as_str(), span.start()) {
            if let Some(found) = file.line_column(start as usize) {
                let (line, column) = (found.line, found.column);
                return format!(in alloc; " in {}:{line}:{column}", file.path);
            }
        }
    }
    format!(in alloc; "{location}")
}

/// What is said of JSON that is of no document.
pub(crate) fn problem(
    alloc: Global,
    error: AstJsonError,
    source: Option<&SourceFile>,
) -> Result<String, AllocError> {
    match error {
        AstJsonError::Invalid {
            path,
            location,
            problem,
        } => {
            let location = location_text(alloc, location, source)?;
            format!(in alloc; "at {path}{location}: {problem}")
        }
        other => format!(in alloc; "{other}"),
    }
}

/// What is said of a flaw.
fn flaw_text(
    alloc: Global,
    flaw: &FoundFlaw<'_>,
    source: Option<&SourceFile>,
) -> Result<String, AllocError> {
    let location = location_text(alloc, NodeLocation(flaw.found.location()), source)?;
    format!(in alloc; "at {}{location}: {}", flaw.path, flaw.found)
}

/// What is said of each flaw of a document, in the order of print.
pub(crate) fn flaws(
    alloc: Global,
    document: &Document,
    source: Option<&SourceFile>,
) -> Result<Vec<String>, AllocError> {
    let mut messages = Vec::new(alloc);
    for flaw in &document.flaws(alloc)? {
        messages.push(flaw_text(alloc, flaw, source)?)?;
    }
    Ok(messages)
}
