//! Trees of documents.
use super::executable::{anonymous_query, described_query, query_with_directive};
use graphql_ast::ast::{Document, ObjectTypeDefinition, OperationDefinition};
use graphql_ast::name;
use std::alloc::{AllocError, Global};

/// The document of `type A` and an operation.
fn type_and(alloc: Global, operation: OperationDefinition) -> Result<Document, AllocError> {
    let mut document = Document::new(alloc);
    document.push(alloc, ObjectTypeDefinition::new(alloc, name!(A)))?;
    document.push(alloc, operation)?;
    Ok(document)
}

/// `type A` and `query { a }`
pub(super) fn type_and_query(alloc: Global) -> Result<Document, AllocError> {
    type_and(alloc, anonymous_query(alloc)?)
}

/// `type A` and `"D" query { a }`
pub(super) fn type_and_described_query(alloc: Global) -> Result<Document, AllocError> {
    type_and(alloc, described_query(alloc)?)
}

/// `query @dir { field }`
pub(super) fn document_with_directive(alloc: Global) -> Result<Document, AllocError> {
    let mut document = Document::new(alloc);
    document.push(alloc, query_with_directive(alloc)?)?;
    Ok(document)
}
