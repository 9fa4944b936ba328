//! The documents of the tests.
use graphql_ast::ast::{
    Document, Field, FragmentDefinition, FragmentSpread, OperationDefinition, OperationType,
    ScalarTypeDefinition, Selection,
};
use graphql_ast::serialize::Serialize;
use graphql_ast::{Name, name};
use std::alloc::{AllocError, Global};
use std::process::Abort;

/// `{ a ...NAME }`
fn set(alloc: Global, spread: Name) -> Result<Vec<Selection>, AllocError> {
    Ok(vec![in alloc;
        Selection::field(alloc, Field::new(alloc, name!(a)))?,
        Selection::fragment_spread(alloc, FragmentSpread::new(alloc, spread))?,
    ]?)
}

/// `fragment NAME on T { a ...SPREAD }`
fn fragment(alloc: Global, name: Name, spread: Name) -> Result<FragmentDefinition, AllocError> {
    Ok(FragmentDefinition {
        selection_set: set(alloc, spread)?,
        ..FragmentDefinition::new(alloc, name, name!(T))
    })
}

/// `query NAME { a ...SPREAD }`
fn query(alloc: Global, name: Name, spread: Name) -> Result<OperationDefinition, AllocError> {
    Ok(OperationDefinition {
        name: Some(name),
        selection_set: set(alloc, spread)?,
        ..OperationDefinition::new(alloc, OperationType::Query)
    })
}

/// Three fragments that reach one another in a ring, the last of them first, one that reaches itself, one that spreads a
/// fragment that isn't there, two queries among them, and a type.
pub(crate) fn document(alloc: Global) -> Result<Document, AllocError> {
    let mut document = Document::new(alloc);
    document.push(alloc, fragment(alloc, name!(C), name!(A))?)?;
    document.push(alloc, query(alloc, name!(Ring), name!(A))?)?;
    document.push(alloc, fragment(alloc, name!(B), name!(C))?)?;
    document.push(alloc, fragment(alloc, name!(A), name!(B))?)?;
    document.push(alloc, ScalarTypeDefinition::new(alloc, name!(S)))?;
    document.push(alloc, fragment(alloc, name!(Itself), name!(Itself))?)?;
    document.push(alloc, query(alloc, name!(Once), name!(Lost))?)?;
    document.push(alloc, fragment(alloc, name!(Lost), name!(Nowhere))?)?;
    Ok(document)
}

pub(crate) fn check_text(rt: &impl Abort, alloc: Global, document: &Document, wanted: &str) {
    let text = Serialize::new(document).no_indent().to_text(alloc);
    assert_eq!(rt; text.expect(rt, "memory").as_str(), wanted);
}
