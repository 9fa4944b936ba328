//! Texts that may be shared, with their source locations.
ghost use Rattle.std.specs.Prelude.{◌≡◌, ◌↔◌, IfOk, IsTrue, IsUtf8, None, Some, string_bytes};
ghost use Rattle.graphql_base.specs.Span.{IsBuiltIn};

use crate::location::Location;
use crate::node::{Node, is_built_in};
use crate::shared_text::SharedText;
use crate::span::SourceSpan;
use std::alloc::{AllocError, Global};
use std::fmt::{self, Debug, Display, Formatter, Write};

/// A text that several trees may share, and optionally its source location: what a `Node` is for a sized value.
///
/// A clone shares the text and keeps the location. Equality and hash are those of the text alone.
///
/// ```
/// let mut scalar = ScalarTypeDefinition::new(alloc, name!(DateTime));
/// scalar.description = Some(NodeStr::new_str(alloc, "An RFC 3339 time")?);
/// println!(rt; "{}", scalar.serialize().no_indent())?; // "An RFC 3339 time" scalar DateTime
/// ```
#[derive(Drop)]
#[derive_where(PartialEq, Eq, Hash)]
pub struct NodeStr {
    text: SharedText,
    #[derive_where(skip)]
    location: Location,
    pub ghost valid: { ∥ IsUtf8 text ∥₁ },
}

impl NodeStr {
    ghost use Rattle.graphql_base.specs.Node.{node_at, node_str_text, node_str_location, IsNodeStrAt};

    /// A copy of the text, with no location. `AllocError` where memory is refused.
    ///
    /// ```
    /// NodeStr::new_str(alloc, "The shop")?.as_str() // "The shop"
    /// ```
    pub fn new_str(alloc: Global, text: &str) -> Result<NodeStr, AllocError>
        ensures { IfOk result (IsNodeStrAt None text.now) }
    {
        NodeStr::at(alloc, text, None)
    }

    /// A copy of the text, which stands at `span` in a source text. `AllocError` where memory is refused.
    ///
    /// ```
    /// NodeStr::new_str_parsed(alloc, "The shop", span)?.location() // Some(span)
    /// ```
    pub fn new_str_parsed(
        alloc: Global,
        text: &str,
        span: SourceSpan,
    ) -> Result<NodeStr, AllocError>
        ensures { IfOk result (IsNodeStrAt (Some span) text.now) }
    {
        NodeStr::at(alloc, text, Some(span))
    }

    fn at(alloc: Global, text: &str, location: Option<SourceSpan>) -> Result<NodeStr, AllocError>
        ensures { IfOk result (IsNodeStrAt location text.now) }
    {
        Ok(NodeStr {
            text: SharedText::new(alloc, text)?,
            location: Location::new(location),
        })
    }

    /// A node of a value, at this text's location if it has one. `AllocError` where memory is refused; the
    /// value is dropped then.
    pub fn same_location<U: Drop>(&self, alloc: Global, value: U) -> Result<Node<U>, AllocError>
        ensures { IfOk result (λ node. node ≡ node_at (node_str_location self.now) value) }
    {
        Node::new_at(alloc, value, self.location())
    }

    /// The text.
    pub fn as_str(&self) -> &str
        ensures { result.now ≡ node_str_text self.now }
    {
        self.text.as_str()
    }

    /// A copy of the text. `AllocError` where memory is refused.
    pub fn to_text(&self, alloc: Global) -> Result<String, AllocError>
        ensures { IfOk result (λ text. string_bytes text ≡ node_str_text self.now) }
    {
        String::from_str(alloc, self.as_str())
    }

    /// The source location of the text.
    pub fn location(&self) -> Option<SourceSpan>
        ensures { result ≡ node_str_location self.now }
    {
        self.location.get()
    }

    /// Whether the text stands in `FileId::BUILT_IN`: there is a location, and that is its file.
    pub fn is_built_in(&self) -> bool
        ensures { IsTrue result ↔ IsBuiltIn (node_str_location self.now) }
    {
        is_built_in(self.location())
    }
}

impl Clone for NodeStr {
    ghost is_clone = { λ node copy. copy ≡ node };

    fn clone(&self) -> Result<NodeStr, AllocError> {
        Ok(NodeStr {
            text: self.text.clone()?,
            location: Location::new(self.location()),
        })
    }
}

impl Display for NodeStr {
    ghost use Rattle.graphql_base.specs.Node.{node_str_text};

    ghost output = { λ node. Some (node_str_text node) };

    fn fmt<W: Write>(&self, f: &mut Formatter<W>) -> fmt::Result {
        f.pad(self.as_str())
    }
}

impl Debug for NodeStr {
    fn fmt<W: Write>(&self, f: &mut Formatter<W>) -> fmt::Result {
        self.text.fmt(f)
    }
}
