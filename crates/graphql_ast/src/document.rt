//! Documents, and the source texts that they were read from.
ghost use Rattle.std.specs.Prelude.{◌≡◌, [], None, OnErr, OnOk};
ghost use Rattle.indexmap.specs.IndexMap.{IsEmpty};
ghost use Rattle.graphql_base.specs.Node.{node_at};
ghost use Rattle.graphql_ast.specs.DocumentChanges.{Appends, IsUnchanged};

pub(crate) mod lines_and_columns;
pub(crate) mod look_ups;
pub(crate) mod placed_flaw;
pub(crate) mod print;

use crate::definition::Definition;
use graphql_base::node::Node;
use graphql_base::span::FileId;
use indexmap::IndexMap;
use std::alloc::{AllocError, Global};

/// A source text that nodes of a document may stand in.
///
/// Two are equal if and only if their paths and their texts are.
///
/// ```
/// let file = SourceFile {
///     path: String::from_str(alloc, "a.graphql")?,
///     text: String::from_str(alloc, "scalar Date")?,
/// };
/// document.sources.insert(FileId::new(1), file)?;
/// ```
#[derive(Clone, PartialEq, Eq, Debug, Drop)]
pub struct SourceFile {
    /// Where the text was found, for messages.
    pub path: String,
    /// The text itself.
    pub text: String,
}

/// A document (`Document`, section 2.2): definitions, and the source texts that they come from.
///
/// Equality and hash ignore source locations and source texts. A clone has the same source texts, and shares the
/// definitions' nodes.
///
/// ```
/// let mut document = Document::new(alloc);
/// document.push(alloc, ScalarTypeDefinition::new(alloc, name!(Date)))?;
/// document.push(alloc, ScalarTypeDefinition::new(alloc, name!(Url)))?;
/// println!(rt; "{}", document.serialize().no_indent())?; // scalar Date scalar Url
/// ```
#[derive(Clone, Drop)]
#[derive_where(PartialEq, Eq, Hash, Debug)]
pub struct Document {
    /// The source texts that the locations of nodes speak of. They are neither compared nor printed.
    #[derive_where(skip(EqHashOrd))]
    pub sources: IndexMap<FileId, SourceFile>,
    /// The definitions, in order. A document without one isn't well formed.
    pub definitions: Vec<Definition>,
}

impl Document {
    /// A document without sources and definitions. It allocates no memory.
    pub fn new(alloc: Global) -> Document
        ensures sources { IsEmpty result.sources }
        ensures definitions { result.definitions.items ≡ [] }
    {
        Document {
            sources: IndexMap::new(alloc),
            definitions: Vec::new(alloc),
        }
    }

    /// Appends a definition: a struct such as `OperationDefinition`, which a node without a location is made of.
    /// `AllocError` if an allocation fails: the struct is dropped then, and the document is as it was.
    ///
    /// ```
    /// document.push(alloc, ObjectTypeDefinition::new(alloc, name!(Query)))?;
    /// ```
    pub fn push<T: Drop>(&mut self, alloc: Global, definition: T) -> Result<(), AllocError>
    where
        Definition: From<Node<T>>,
        ensures ok { OnOk result (Appends
            (⟦<Definition as From<Node<T>>>⟧.from_gives (node_at None definition))
            self.old self.new) }
        ensures err { OnErr result (IsUnchanged self.old self.new) }
    {
        let node = Node::new(alloc, definition)?;
        self.push_node(node)
    }

    /// Appends a definition, or a node of a struct such as `OperationDefinition`. `AllocError` if an allocation fails:
    /// the node is dropped then, and the document is as it was.
    ///
    /// ```
    /// document.push_node(operation.clone())?; // a node that another document has too
    /// ```
    pub fn push_node<N: Into<Definition>>(&mut self, node: N) -> Result<(), AllocError>
        ensures ok { OnOk result (Appends (N.converts node) self.old self.new) }
        ensures err { OnErr result (IsUnchanged self.old self.new) }
    {
        self.definitions.push(node.into())?;
        Ok(())
    }
}
