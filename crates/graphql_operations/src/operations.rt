//! Operations, each with the fragments that it reaches.
ghost use Rattle.std.specs.Prelude.{◌≡◌, ◌+◌, ◌<◌, ◌++◌, ◌∷◌, [], IfOk, cond, drop, length, map, take};
ghost use Rattle.graphql_ast.specs.AstTrees.{definition_tree, definition_trees, document_tree};
ghost use Rattle.graphql_ast.specs.Sources.{document_sources};
ghost use Rattle.graphql_operations.specs.Operations.{HaveSources, between, is_operation, separated};

use crate::fragments::{reached_from, with_definition, with_fragments};
use crate::spreads::fragment_spreads;
use graphql_ast::ast::{Definition, Document};
use graphql_rewrite::with_definitions;
use std::alloc::{AllocError, Global};

/// The definitions behind one.
fn behind(definitions: &[Definition], index: usize) -> &[Definition]
    requires { index < length definitions.now }
    ensures { result.now ≡ drop (index + 1) definitions.now }
{
    &definitions[index + 1..]
}

/// The operation at an index, between the fragments that it reaches.
fn between(
    alloc: Global,
    definitions: &[Definition],
    index: usize,
    operation: &Definition,
) -> Result<Vec<Definition>, AllocError>
    requires { index < length definitions.now }
    ensures { IfOk result (λ all. definition_trees all.items
        ≡ between (definition_trees definitions.now)
        (definition_trees (take index definitions.now)) (definition_tree operation.now)
        (definition_trees (drop (index + 1) definitions.now))) }
{
    let spreads = fragment_spreads(alloc, operation)?;
    let names = reached_from(alloc, definitions, spreads)?;
    let before = with_fragments(Vec::new(alloc), &definitions[..index], &names)?;
    let so_far = with_definition(before, operation)?;
    with_fragments(so_far, behind(definitions, index), &names)
}

/// Whether it is an operation.
fn is_operation(definition: &Definition) -> bool
    ensures { result ≡ is_operation (definition_tree definition.now).name }
{
    matches!(definition, Definition::OperationDefinition(_))
}

/// Adds the document of a definition, if it is an operation.
#[tactic(auto, using(crate::proofs::Separated::sources_more))]
fn with_operation(
    alloc: Global,
    documents: Vec<Document>,
    document: &Document,
    index: usize,
    definition: &Definition,
) -> Result<Vec<Document>, AllocError>
    requires { index < length document.now.definitions.items }
    ensures trees { IfOk result (λ more. map document_tree more.items
        ≡ map document_tree documents.items
        ++ cond (is_operation (definition_tree definition.now).name)
        (between (document_tree document.now)
        (definition_trees (take index document.now.definitions.items))
        (definition_tree definition.now)
        (definition_trees (drop (index + 1) document.now.definitions.items)) ∷ []) []) }
    ensures sources { IfOk result (λ more.
        HaveSources (document_sources document.now) documents.items →
        HaveSources (document_sources document.now) more.items) }
{
    let mut documents = documents;
    if is_operation(definition) {
        let definitions = between(alloc, &document.definitions, index, definition)?;
        documents.push(with_definitions(document, definitions)?)?;
    }
    Ok(documents)
}

/// A document for each operation, in order: the operation and the fragments that it reaches, as they stand in the document,
/// and nothing else. Each has the sources of the document, and shares its nodes. `AllocError` if an allocation fails.
///
/// ```
/// for document in separate_operations(alloc, &document)? { .. }
/// ```
#[tactic(auto, using(crate::proofs::Separated::separated_steps, crate::proofs::Separated::no_sources))]
pub fn separate_operations(alloc: Global, document: &Document) -> Result<Vec<Document>, AllocError>
    ensures trees { IfOk result (λ documents. map document_tree documents.items
        ≡ separated (document_tree document.now)) }
    ensures sources { IfOk result (λ documents.
        HaveSources (document_sources document.now) documents.items) }
{
    let mut documents = Vec::new(alloc);
    for (index, definition) in document.definitions.iter().enumerate() {
        documents = with_operation(alloc, documents, document, index, definition)?;
    }
    Ok(documents)
}
