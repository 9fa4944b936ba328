//! Stores documents by their texts. The contract says that a text that is stored is read as the document that was
//! handed over, and as no other.
#![tactic(auto)]

ghost use Rattle.std.specs.Prelude.{◌≡◌, ◌↔◌, [], IfOk, IsErrOf, OnErr, OnOk, false, string_bytes};
ghost use Rattle.graphql_ast.specs.AstTrees.{document_tree};
ghost use Rattle.graphql_ast.specs.Documents.{document_kind};
ghost use Rattle.graphql_ast.specs.Reading.{ReadsAlone};
ghost use Rattle.store_example.specs.Stores.{IsTooDeep, Stores};
ghost use Rattle.store_example.specs.declared.StoreError.TheVariants.{Memory};

use anyhow::Result;
use graphql_ast::ast::{Document, Field, OperationDefinition, OperationType, Selection};
use graphql_ast::serialize::PrintError;
use graphql_ast::{Name, name};
use std::alloc::{AllocError, AllocFailed, Global};
use thiserror::Error;

/// Why a document was not stored.
#[derive(Debug, Drop, Error)]
enum StoreError {
    /// It has no definition, or one that no text is read as.
    #[error("the document is not well formed")]
    NotWellFormed,
    /// Its groups stand too deep in one another to be counted.
    #[error("the document is nested too deep")]
    TooDeep,
    /// Memory was refused.
    #[error("out of memory")]
    Memory,
}

impl<T: Drop> From<AllocFailed<T>> for StoreError {
    ghost from_gives = { λ _ error. error ≡ Memory };

    fn from(_failed: AllocFailed<T>) -> StoreError {
        StoreError::Memory
    }
}

/// The texts of the documents that were stored, in order.
#[derive(Drop)]
struct Store {
    texts: Vec<String>,
}

/// The document on one line, as a text that is read as this document and as no other.
fn line_of(alloc: Global, document: &Document) -> Result<String, StoreError>
    ensures read { IfOk result (λ text.
        ReadsAlone document_kind (string_bytes text) (document_tree document.now)) }
    ensures refused { IsErrOf result StoreError.NotWellFormed ↔
        (document_kind.obeys (document_tree document.now) ≡ false) }
    ensures too_deep { IsErrOf result StoreError.TooDeep ↔ IsTooDeep (document_tree document.now) }
{
    if !document.is_well_formed() {
        return Err(StoreError::NotWellFormed);
    }
    match document.serialize().no_indent().to_text(alloc) {
        Ok(text) => Ok(text),
        Err(PrintError::LevelOverflow) => Err(StoreError::TooDeep),
        Err(_) => Err(StoreError::Memory),
    }
}

impl Store {
    fn new(alloc: Global) -> Store
        ensures { result.texts.items ≡ [] }
    {
        Store {
            texts: Vec::new(alloc),
        }
    }

    /// Stores the text of a document. Where that is refused, the store stays as it was.
    fn store(&mut self, alloc: Global, document: &Document) -> Result<(), StoreError>
        ensures stored { OnOk result
            (Stores (document_tree document.now) self.old.texts.items self.new.texts.items) }
        ensures kept { OnErr result (self.new.texts.items ≡ self.old.texts.items) }

        // Each error but `Memory` comes exactly for these documents.
        ensures refused { IsErrOf result StoreError.NotWellFormed ↔
            (document_kind.obeys (document_tree document.now) ≡ false) }
        ensures too_deep { IsErrOf result StoreError.TooDeep
            ↔ IsTooDeep (document_tree document.now) }
    {
        let text = line_of(alloc, document)?;
        self.texts.push(text)?;
        Ok(())
    }
}

/// A document of one query, for one field.
fn query(alloc: Global, name: Option<Name>, field: Name) -> Result<Document, AllocError> {
    let operation = OperationDefinition {
        name,
        selection_set: vec![in alloc; Selection::field(alloc, Field::new(alloc, field))?]?,
        ..OperationDefinition::new(alloc, OperationType::Query)
    };
    let mut document = Document::new(alloc);
    document.push(alloc, operation)?;
    Ok(document)
}

fn main(rt: HostRuntime) -> Result<()> {
    let alloc = rt.alloc();
    let mut store = Store::new(alloc);
    store.store(alloc, &query(alloc, None, name!(products))?)?;
    store.store(alloc, &query(alloc, Some(name!(Shops)), name!(shops))?)?;

    // A document without a definition: no text is read as that.
    if let Err(error) = store.store(alloc, &Document::new(alloc)) {
        println!(rt; "{error}")?;
    }
    store.store(alloc, &query(alloc, Some(name!(Carts)), name!(carts))?)?;
    for text in &store.texts {
        println!(rt; "{text}")?;
    }
    Ok(())
}
