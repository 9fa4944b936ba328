//! Walks over definitions and documents.
ghost use Rattle.std.specs.Prelude.{List};
ghost use Rattle.graphql_ast.specs.AstTrees.{definition_tree, document_tree};
ghost use Rattle.graphql_ast.specs.Definitions.{DefinitionTree};
ghost use Rattle.graphql_visit.specs.Readings.{Reads};
ghost use Rattle.graphql_visit.specs.Visits.{nodes_of, one};
ghost use Rattle.graphql_visit.specs.Walks.{Walks};
ghost use Rattle.graphql_visit.specs.kinds.Documents.{definition_visited, document_visited};

use crate::node_ref::NodeRef;
use crate::reader::{Reader, read};
use crate::visitor::{Ended, Visitor};
use crate::walked::{Walked, walk, walk_all};
use graphql_ast::ast::{Definition, Document};

impl Walked for Definition {
    ghost Tree = { DefinitionTree };

    ghost tree = { definition_tree };

    ghost visited = { definition_visited };

    fn node_ref(&self) -> NodeRef<'_> {
        match self {
            Definition::OperationDefinition(node) => node.node_ref(),
            Definition::FragmentDefinition(node) => node.node_ref(),
            Definition::DirectiveDefinition(node) => node.node_ref(),
            Definition::SchemaDefinition(node) => node.node_ref(),
            Definition::ScalarTypeDefinition(node) => node.node_ref(),
            Definition::ObjectTypeDefinition(node) => node.node_ref(),
            Definition::InterfaceTypeDefinition(node) => node.node_ref(),
            Definition::UnionTypeDefinition(node) => node.node_ref(),
            Definition::EnumTypeDefinition(node) => node.node_ref(),
            Definition::InputObjectTypeDefinition(node) => node.node_ref(),
            Definition::SchemaExtension(node) => node.node_ref(),
            Definition::ScalarTypeExtension(node) => node.node_ref(),
            Definition::ObjectTypeExtension(node) => node.node_ref(),
            Definition::InterfaceTypeExtension(node) => node.node_ref(),
            Definition::UnionTypeExtension(node) => node.node_ref(),
            Definition::EnumTypeExtension(node) => node.node_ref(),
            Definition::InputObjectTypeExtension(node) => node.node_ref(),
        }
    }

    fn walk_within<V: Visitor>(&self, visitor: &mut V) -> Result<(), Ended<V::Error>> {
        match self {
            Definition::OperationDefinition(node) => node.walk_within(visitor),
            Definition::FragmentDefinition(node) => node.walk_within(visitor),
            Definition::DirectiveDefinition(node) => node.walk_within(visitor),
            Definition::SchemaDefinition(node) => node.walk_within(visitor),
            Definition::ScalarTypeDefinition(node) => node.walk_within(visitor),
            Definition::ObjectTypeDefinition(node) => node.walk_within(visitor),
            Definition::InterfaceTypeDefinition(node) => node.walk_within(visitor),
            Definition::UnionTypeDefinition(node) => node.walk_within(visitor),
            Definition::EnumTypeDefinition(node) => node.walk_within(visitor),
            Definition::InputObjectTypeDefinition(node) => node.walk_within(visitor),
            Definition::SchemaExtension(node) => node.walk_within(visitor),
            Definition::ScalarTypeExtension(node) => node.walk_within(visitor),
            Definition::ObjectTypeExtension(node) => node.walk_within(visitor),
            Definition::InterfaceTypeExtension(node) => node.walk_within(visitor),
            Definition::UnionTypeExtension(node) => node.walk_within(visitor),
            Definition::EnumTypeExtension(node) => node.walk_within(visitor),
            Definition::InputObjectTypeExtension(node) => node.walk_within(visitor),
        }
    }
}

impl Walked for Document {
    ghost Tree = { List DefinitionTree };

    ghost tree = { document_tree };

    ghost visited = { document_visited };

    fn node_ref(&self) -> NodeRef<'_> {
        NodeRef::Document(self)
    }

    #[tactic(auto, using(crate::proofs::Steps::walk_steps))]
    fn walk_within<V: Visitor>(&self, visitor: &mut V) -> Result<(), Ended<V::Error>> {
        walk_all(&self.definitions, visitor)
    }
}

/// Walks over a document: each node once, in the order of the source text. `Ended` tells how the walk ended before: that a
/// call stopped it, or the error of a call that failed. No call comes behind that one.
///
/// ```
/// match walk_document(&document, &mut visitor) {
///     Ok(()) => {}                  // each node came
///     Err(Ended::Stopped) => {}     // the visitor wanted no more
///     Err(Ended::Failed(error)) => return Err(error),
/// }
/// ```
pub fn walk_document<V: Visitor>(
    document: &Document,
    visitor: &mut V,
) -> Result<(), Ended<V::Error>>
    ensures { Walks V.enters V.leaves (one document_visited (document_tree document.now))
        visitor.old result visitor.new }
{
    walk(document, visitor)
}

/// Reads each node of a document once, in the order of the source text. The error is that of the first call that failed:
/// no call comes behind it.
///
/// ```
/// read_document(&document, &mut reader)?;
/// ```
pub fn read_document<R: Reader>(document: &Document, reader: &mut R) -> Result<(), R::Error>
    ensures { Reads R.reads (nodes_of (one document_visited (document_tree document.now)))
        reader.old result reader.new }
{
    read(document, reader)
}
