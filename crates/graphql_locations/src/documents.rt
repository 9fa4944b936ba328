//! Definitions and documents without locations.
ghost use Rattle.std.specs.Prelude.{◌≡◌, [], IfOk, List};
ghost use Rattle.indexmap.specs.IndexMap.{IsEmpty};
ghost use Rattle.graphql_ast.specs.AstTrees.{definition_tree, document_tree};
ghost use Rattle.graphql_ast.specs.Definitions.{DefinitionTree};
ghost use Rattle.graphql_locations.specs.kinds.Documents.{definition_locations, document_locations};

use crate::located::Located;
use graphql_ast::ast::{Definition, Document};
use std::alloc::{AllocError, Global};

impl Located for Definition {
    ghost Tree = { DefinitionTree };

    ghost tree = { definition_tree };

    ghost locations = { definition_locations };

    fn without_locations(&self, alloc: Global) -> Result<Definition, AllocError> {
        match self {
            Definition::OperationDefinition(node) => Ok(Definition::OperationDefinition(
                node.without_locations(alloc)?,
            )),
            Definition::FragmentDefinition(node) => Ok(Definition::FragmentDefinition(
                node.without_locations(alloc)?,
            )),
            Definition::DirectiveDefinition(node) => Ok(Definition::DirectiveDefinition(
                node.without_locations(alloc)?,
            )),
            Definition::SchemaDefinition(node) => Ok(Definition::SchemaDefinition(
                node.without_locations(alloc)?,
            )),
            Definition::ScalarTypeDefinition(node) => Ok(Definition::ScalarTypeDefinition(
                node.without_locations(alloc)?,
            )),
            Definition::ObjectTypeDefinition(node) => Ok(Definition::ObjectTypeDefinition(
                node.without_locations(alloc)?,
            )),
            Definition::InterfaceTypeDefinition(node) => Ok(Definition::InterfaceTypeDefinition(
                node.without_locations(alloc)?,
            )),
            Definition::UnionTypeDefinition(node) => Ok(Definition::UnionTypeDefinition(
                node.without_locations(alloc)?,
            )),
            Definition::EnumTypeDefinition(node) => Ok(Definition::EnumTypeDefinition(
                node.without_locations(alloc)?,
            )),
            Definition::InputObjectTypeDefinition(node) => Ok(Definition::InputObjectTypeDefinition(
                node.without_locations(alloc)?,
            )),
            Definition::SchemaExtension(node) => Ok(Definition::SchemaExtension(
                node.without_locations(alloc)?,
            )),
            Definition::ScalarTypeExtension(node) => Ok(Definition::ScalarTypeExtension(
                node.without_locations(alloc)?,
            )),
            Definition::ObjectTypeExtension(node) => Ok(Definition::ObjectTypeExtension(
                node.without_locations(alloc)?,
            )),
            Definition::InterfaceTypeExtension(node) => Ok(Definition::InterfaceTypeExtension(
                node.without_locations(alloc)?,
            )),
            Definition::UnionTypeExtension(node) => Ok(Definition::UnionTypeExtension(
                node.without_locations(alloc)?,
            )),
            Definition::EnumTypeExtension(node) => Ok(Definition::EnumTypeExtension(
                node.without_locations(alloc)?,
            )),
            Definition::InputObjectTypeExtension(node) => Ok(Definition::InputObjectTypeExtension(
                node.without_locations(alloc)?,
            )),
        }
    }
}

impl Located for Document {
    ghost Tree = { List DefinitionTree };

    ghost tree = { document_tree };

    ghost locations = { document_locations };

    fn without_locations(&self, alloc: Global) -> Result<Document, AllocError> {
        strip_locations(alloc, self)
    }
}

/// Makes another document with the same tree, in which no name, text or node has a location, and which has no sources. This
/// document stays as it is. Each node of the new one is its own: a node that stands in this document more than once is made
/// each time. Texts of names are shared with this document where they are shared already. `AllocError` if an
/// allocation fails.
///
/// ```
/// let plain = strip_locations(alloc, &document)?;
/// plain == document // true: equality looks at no location
/// ```
pub fn strip_locations(alloc: Global, document: &Document) -> Result<Document, AllocError>
    ensures tree { IfOk result (λ made. document_tree made ≡ document_tree document.now) }
    ensures locations { IfOk result (λ made. document_locations made ≡ []) }
    ensures sources { IfOk result (λ made. IsEmpty made.sources) }
{
    Ok(Document {
        definitions: document.definitions.without_locations(alloc)?,
        ..Document::new(alloc)
    })
}
