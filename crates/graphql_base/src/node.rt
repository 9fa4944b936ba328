//! Values and texts that may be shared, with their source locations.
ghost use Rattle.std.specs.Prelude.{◌≡◌, ◌⊎◌, ◌↔◌, IfOk, IfSome, IsTrue, None, Some};
ghost use Rattle.graphql_base.specs.Span.{IsBuiltIn};

use crate::location::Location;
pub use crate::node_str::NodeStr;
use crate::shared::Shared;
use crate::span::{FileId, SourceSpan};
use std::alloc::{AllocError, Global};
use std::fmt::{self, Debug, Display, Formatter, Write};
use std::ops::Deref;

/// Whether there is a location and its file is `FileId::BUILT_IN`.
pub(crate) fn is_built_in(location: Option<SourceSpan>) -> bool
    ensures { IsTrue result ↔ IsBuiltIn location }
{
    match location {
        Some(span) => span.file_id() == FileId::BUILT_IN,
        None => false,
    }
}

/// A part of a tree: a value that several nodes may share, and optionally its source location.
///
/// A clone shares the value and keeps the location. A change through `make_mut` or `get_mut` is seen in
/// that node alone. Equality and hash are those of the value alone.
///
/// ```
/// let first = Node::new(alloc, 1)?;
/// let mut second = first.clone()?;
/// *second.make_mut()? = 2; // `first` still has 1
/// ```
#[derive(Drop)]
#[derive_where(PartialEq, Eq, Hash; T)]
pub struct Node<T> {
    value: Shared<T>,
    #[derive_where(skip)]
    location: Location,
}

impl<T: Drop> Node<T> {
    ghost use Rattle.graphql_base.specs.Node.{node_at};

    /// A node of this value, with no location. `AllocError` where memory is refused; the value is dropped
    /// then.
    ///
    /// ```
    /// Node::new(alloc, name!(id))? // a node of the name id
    /// ```
    pub fn new(alloc: Global, value: T) -> Result<Node<T>, AllocError>
        ensures { IfOk result (λ node. node ≡ node_at None value) }
    {
        Node::new_at(alloc, value, None)
    }

    /// A node of this value, which stands at `span` in a source text. `AllocError` where memory is refused;
    /// the value is dropped then.
    ///
    /// ```
    /// Node::new_parsed(alloc, name!(id), span)?.location() // Some(span)
    /// ```
    pub fn new_parsed(alloc: Global, value: T, span: SourceSpan) -> Result<Node<T>, AllocError>
        ensures { IfOk result (λ node. node ≡ node_at (Some span) value) }
    {
        Node::new_at(alloc, value, Some(span))
    }

    /// A node of this value, with this location or none. `AllocError` where memory is refused; the value is dropped
    /// then.
    ///
    /// ```
    /// Node::new_at(alloc, name!(id), node.location())? // where that node stands
    /// ```
    pub fn new_at(
        alloc: Global,
        value: T,
        location: Option<SourceSpan>,
    ) -> Result<Node<T>, AllocError>
        ensures { IfOk result (λ node. node ≡ node_at location value) }
    {
        Ok(Node {
            value: Shared::new(alloc, value)?,
            location: Location::new(location),
        })
    }
}

impl<T> Node<T> {
    ghost use Rattle.graphql_base.specs.Node.{node_at, node_location};

    /// A node of another value, at this node's location if it has one. `AllocError` where memory is refused;
    /// the value is dropped then.
    pub fn same_location<U: Drop>(&self, alloc: Global, value: U) -> Result<Node<U>, AllocError>
        ensures { IfOk result (λ node. node ≡ node_at (node_location self.now) value) }
    {
        Node::new_at(alloc, value, self.location())
    }

    /// The source location of the value.
    pub fn location(&self) -> Option<SourceSpan>
        ensures { result ≡ node_location self.now }
    {
        self.location.get()
    }

    /// Whether the node stands in `FileId::BUILT_IN`: there is a location, and that is its file.
    pub fn is_built_in(&self) -> bool
        ensures { IsTrue result ↔ IsBuiltIn (node_location self.now) }
    {
        is_built_in(self.location())
    }
}

impl<T> Node<T> {
    ghost use Rattle.std.specs.Borrow.{sem};
    ghost use Rattle.graphql_base.specs.Node.{node_value};
    ghost use Rattle.graphql_base.specs.NodeLoans.{LendsValue, LendsValueOrClone};

    /// The value, to write to, and `None` where another node shares it. A node just made shares its value
    /// with none.
    ///
    /// What is written is seen in this node alone, and the location stays. In which cases it returns `None` is no part
    /// of the contract.
    pub fn get_mut(&mut self) -> Option<&mut T>
        ensures* writes_back { sem 𝓛 (LendsValue T.row self.entry result) }
        ensures value { IfSome result (λ value. value.now ≡ node_value self.old) }
    {
        self.value.get_mut()
    }

    /// The value, to write to. Where another node shares it, this node first takes a clone of its own.
    ///
    /// What is written is seen in this node alone, and the location stays. `AllocError` where the clone is
    /// refused: the node then has its old value and location. The contract says of that value that it is
    /// the old one or a clone of it, as it says of what is lent; where a clone equals its source, both are
    /// the old value.
    pub fn make_mut(&mut self) -> Result<&mut T, AllocError>
    where
        T: Clone,
        ensures* writes_back { sem 𝓛 (LendsValueOrClone T.row T.is_clone self.entry result) }
        ensures value { IfOk result (λ value.
            (value.now ≡ node_value self.old) ⊎ T.is_clone (node_value self.old) value.now) }
    {
        self.value.make_mut()
    }
}

impl<T> Deref for Node<T> {
    type Target = T;

    ghost use Rattle.graphql_base.specs.Node.{node_value};

    ghost deref_gives = { λ node value. value ≡ node_value node };

    fn deref(&self) -> &T
        ensures { result.now ≡ node_value self.now }
    {
        self.value.get()
    }
}

impl<T> AsRef<T> for Node<T> {
    ghost use Rattle.graphql_base.specs.Node.{node_value};

    fn as_ref(&self) -> &T
        ensures { result.now ≡ node_value self.now }
    {
        self.value.get()
    }
}

impl<T: Drop> Clone for Node<T> {
    ghost is_clone = { λ node copy. copy ≡ node };

    fn clone(&self) -> Result<Node<T>, AllocError> {
        Ok(Node {
            value: self.value.clone()?,
            location: Location::new(self.location()),
        })
    }
}

impl<T: Display> Display for Node<T> {
    ghost use Rattle.graphql_base.specs.Node.{node_value};

    ghost output = { λ node. T.output (node_value node) };

    ghost styled_output = { λ node style. T.styled_output (node_value node) style };

    fn fmt<W: Write>(&self, f: &mut Formatter<W>) -> fmt::Result {
        self.value.get().fmt(f)
    }
}

impl<T: Debug> Debug for Node<T> {
    fn fmt<W: Write>(&self, f: &mut Formatter<W>) -> fmt::Result {
        Debug::fmt(self.value.get(), f)
    }
}
