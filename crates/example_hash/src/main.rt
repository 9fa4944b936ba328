//! The SHA-256 of a document: of its text on one line, hashed while it is printed. Documents that differ in locations or
//! in the layout of their sources alone have one hash.
#![tactic(auto)]

mod hashing;

ghost use Rattle.std.specs.Prelude.{◌≡◌, IfOk, IsTrue};
ghost use Rattle.sha2.specs.Sha256.{sha256};
ghost use Rattle.graphql_ast.specs.AstTrees.{document_tree};
ghost use Rattle.graphql_ast.specs.Documents.{document_kind};
ghost use Rattle.example_hash.specs.Lines.{line_of};

use crate::hashing::HashingSink;
use anyhow::Result;
use graphql_ast::ast::{Document, Field, OperationDefinition, OperationType, Selection};
use graphql_ast::serialize::PrintError;
use graphql_ast::{Name, name};
use std::alloc::{AllocError, Global};
use std::io::Write;

/// The text of a document on one line, and its SHA-256. No other well-formed document has that text.
#[tactic(auto, using(crate::proofs::LinesApart::tells_apart))]
fn hash(alloc: Global, document: &Document) -> Result<(Vec<u8>, [u8; 32]), PrintError>
    ensures text { IfOk result (λ hashed. hashed.0.items ≡ line_of (document_tree document.now)) }
    ensures hash { IfOk result (λ hashed.
        hashed.1 ≡ sha256 (line_of (document_tree document.now))) }
    ensures alone { (other : document_kind.Tree) →
        IsTrue (document_kind.obeys (document_tree document.now)) →
        IsTrue (document_kind.obeys other) →
        line_of other ≡ line_of (document_tree document.now) →
        other ≡ document_tree document.now }
{
    let mut sink = HashingSink::new(alloc);
    document.serialize().no_indent().print_to(&mut sink)?;
    Ok(sink.finish())
}

/// A document of one query, for one field.
fn query(alloc: Global, field: Name) -> Result<Document, AllocError> {
    let operation = OperationDefinition {
        selection_set: vec![in alloc; Selection::field(alloc, Field::new(alloc, field))?]?,
        ..OperationDefinition::new(alloc, OperationType::Query)
    };
    let mut document = Document::new(alloc);
    document.push(alloc, operation)?;
    Ok(document)
}

fn main(rt: HostRuntime) -> Result<()> {
    let alloc = rt.alloc();
    let (text, digest) = hash(alloc, &query(alloc, name!(shop))?)?;
    rt.stdout().write_all(&text)?;
    print!(rt; "  ")?;
    for byte in digest {
        print!(rt; "{byte:02x}")?;
    }
    println!(rt; "")?;
    Ok(())
}
