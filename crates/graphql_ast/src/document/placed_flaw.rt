//! What is wrong with a document, and where in its sources.
ghost use Rattle.std.specs.Prelude.{IfSome};
ghost use Rattle.std.specs.Option.{option_map};
ghost use Rattle.graphql_text.specs.code.IllFormed.{IsFirstFlaw, location_of};
ghost use Rattle.graphql_ast.specs.AstTrees.{document_tree};
ghost use Rattle.graphql_ast.specs.Documents.{document_kind};
ghost use Rattle.graphql_ast.specs.LinesAndColumns.{IsPositionOf, IsSourcePosition, found_of};

use crate::document::Document;
use crate::document::lines_and_columns::LineColumn;
use graphql_base::span::SourceSpan;
use graphql_text::ill_formed::IllFormed;
use std::error::Error;
use std::fmt::{self, Display, Formatter, Write};

/// A position in a source file, for messages: the path of the file, and a position in its text.
///
/// ```
/// if let Some(position) = document.source_position(span) {
///     println!(rt; "{position}")?; // a.graphql:3:1
/// }
/// ```
#[derive(Clone, Copy, Debug, PartialEq, Eq)]
pub struct SourcePosition<'a> {
    /// The path of the source file.
    pub path: &'a str,
    /// The position in its text.
    pub position: LineColumn,
}

impl Display for SourcePosition<'_> {
    fn fmt<W: Write>(&self, f: &mut Formatter<W>) -> fmt::Result {
        let LineColumn { line, column } = self.position;
        write!(f, "{}:{line}:{column}", self.path)
    }
}

/// What is wrong with a document, and where in its sources.
///
/// `Display` tells it in one line, and without the position where it isn't known.
///
/// ```
/// if let Some(flaw) = document.find_placed_flaw() {
///     println!(rt; "{flaw}")?; // a.graphql:3:1: an extension that adds nothing: `A`
/// }
/// ```
#[derive(Clone, Copy, Debug)]
pub struct PlacedFlaw<'a> {
    /// What is wrong.
    pub found: IllFormed<'a>,
    /// Where its location begins, if it has one, in a source text that the document has.
    pub position: Option<SourcePosition<'a>>,
}

impl Display for PlacedFlaw<'_> {
    fn fmt<W: Write>(&self, f: &mut Formatter<W>) -> fmt::Result {
        match self.position {
            Some(position) => write!(f, "{position}: {}", self.found),
            None => write!(f, "{}", self.found),
        }
    }
}

impl Error for PlacedFlaw<'_> {}

impl Document {
    /// The path of the source file in which a span stands, and the position at which the span begins.
    ///
    /// `None` exactly where `line_column` returns `None`.
    ///
    /// ```
    /// let position = document.source_position(node.location()?)?; // a.graphql:3:1
    /// ```
    pub fn source_position(&self, span: SourceSpan) -> Option<SourcePosition<'_>>
        ensures { IsSourcePosition self.now.sources.entries span result }
    {
        let file = self.source_file(span.file_id())?;
        let position = file.line_column(span.start() as usize)?;
        Some(SourcePosition {
            path: file.path.as_str(),
            position,
        })
    }

    /// The first flaw of the document, in the order of print, and where it stands in its sources. `None` exactly if the
    /// document is well formed. It allocates no memory.
    ///
    /// ```
    /// if let Some(flaw) = document.find_placed_flaw() {
    ///     println!(rt; "{flaw}")?; // a.graphql:3:1: an extension that adds nothing: `A`
    /// }
    /// ```
    pub fn find_placed_flaw(&self) -> Option<PlacedFlaw<'_>>
        ensures flaw { IsFirstFlaw (document_kind.flaws (document_tree self.now))
            (option_map found_of result) }
        ensures position { IfSome result (λ flaw.
            IsPositionOf self.now.sources.entries (location_of flaw.found) flaw.position) }
    {
        let found = self.find_ill_formed()?;
        let position = match found.location() {
            Some(span) => self.source_position(span),
            None => None,
        };
        Some(PlacedFlaw { found, position })
    }
}
