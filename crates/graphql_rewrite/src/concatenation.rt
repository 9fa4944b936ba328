//! Documents one behind another.
ghost use Rattle.std.specs.Prelude.{◌≡◌, IfOk};
ghost use Rattle.std.specs.List.{flat_map};
ghost use Rattle.graphql_ast.specs.AstTrees.{document_tree};
ghost use Rattle.graphql_rewrite.specs.Concatenations.{joined_sources};

use graphql_ast::ast::Document;
use std::alloc::{AllocError, Global};

/// The document of all definitions of these, those of the first one before those of the next. Of sources with one file id
/// the last stays, so nodes keep their texts where the documents were read with file ids of their own. `AllocError` if
/// an allocation fails; the documents are dropped then.
///
/// ```
/// concat(alloc, vec![in alloc; schema, query]?)?
/// ```
#[tactic(auto, using(crate::proofs::Concatenated::trees_of))]
pub fn concat(alloc: Global, documents: Vec<Document>) -> Result<Document, AllocError>
    ensures definitions { IfOk result (λ all. all.definitions.items
        ≡ flat_map (λ document. document.definitions.items) documents.items) }
    ensures tree { IfOk result (λ all.
        document_tree all ≡ flat_map document_tree documents.items) }
    ensures sources { IfOk result (λ all. all.sources.entries ≡ joined_sources documents.items) }
{
    let mut all = Document::new(alloc);
    for document in documents {
        let mut document = document;
        all.sources.append(&mut document.sources)?;
        all.definitions.append(&mut document.definitions)?;
    }
    Ok(all)
}
