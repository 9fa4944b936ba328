//! Definitions as such, and documents.
use crate::executable::{fragment_definition, operation_definition};
use crate::parts::{FILE, node};
use crate::type_extensions::{
    enum_type_extension, input_object_type_extension, interface_type_extension,
    object_type_extension, scalar_type_extension, schema_extension, union_type_extension,
};
use crate::types::{
    enum_type_definition, input_object_type_definition, interface_type_definition,
    object_type_definition, scalar_type_definition, schema_definition, union_type_definition,
};
use crate::values::directive_definition;
use graphql_ast::Node;
use graphql_ast::ast::{Definition, Document, SourceFile};
use graphql_ast::span::FileId;
use std::alloc::{AllocError, Global};

/// How many variants a definition has.
pub const VARIANTS: usize = 17;

/// The definition in a node.
fn defined<T: Drop>(alloc: Global, made: Result<T, AllocError>) -> Result<Definition, AllocError>
where
    Definition: From<Node<T>>,
{
    Ok(Definition::from(node(alloc, made?)?))
}

/// The definition of that variant, in the order of the variants of `Definition`: an operation first, and from 16 on the extension of an input object type.
pub fn definition(alloc: Global, variant: usize) -> Result<Definition, AllocError> {
    match variant {
        0 => defined(alloc, operation_definition(alloc)),
        1 => defined(alloc, fragment_definition(alloc)),
        2 => defined(alloc, directive_definition(alloc)),
        3 => defined(alloc, schema_definition(alloc)),
        4 => defined(alloc, scalar_type_definition(alloc)),
        5 => defined(alloc, object_type_definition(alloc)),
        6 => defined(alloc, interface_type_definition(alloc)),
        7 => defined(alloc, union_type_definition(alloc)),
        8 => defined(alloc, enum_type_definition(alloc)),
        9 => defined(alloc, input_object_type_definition(alloc)),
        10 => defined(alloc, schema_extension(alloc)),
        11 => defined(alloc, scalar_type_extension(alloc)),
        12 => defined(alloc, object_type_extension(alloc)),
        13 => defined(alloc, interface_type_extension(alloc)),
        14 => defined(alloc, union_type_extension(alloc)),
        15 => defined(alloc, enum_type_extension(alloc)),
        _ => defined(alloc, input_object_type_extension(alloc)),
    }
}

/// The file that the nodes of all trees stand in.
pub fn source_file(alloc: Global) -> Result<SourceFile, AllocError> {
    Ok(SourceFile {
        path: String::from_str(alloc, "a.graphql")?,
        text: String::from_str(alloc, "a text")?,
    })
}

/// A document with its source, and with a definition of each variant, in order.
pub fn document(alloc: Global) -> Result<Document, AllocError> {
    let mut document = Document::new(alloc);
    document
        .sources
        .insert(FileId::new(FILE), source_file(alloc)?)?;
    for variant in 0..VARIANTS {
        document.definitions.push(definition(alloc, variant)?)?;
    }
    Ok(document)
}
