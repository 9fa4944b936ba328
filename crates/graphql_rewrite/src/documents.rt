//! Definitions and documents are rebuilt.
ghost use Rattle.std.specs.Prelude.{◌≡◌, IfOk, List, map};
ghost use Rattle.graphql_ast.specs.AstTrees.{definition_tree, definition_trees, document_tree};
ghost use Rattle.graphql_ast.specs.DefinitionQueries.{definition_location};
ghost use Rattle.graphql_ast.specs.Definitions.{DefinitionTree};
ghost use Rattle.graphql_ast.specs.Sources.{document_sources};
ghost use Rattle.graphql_rewrite.specs.Kept.{document_kept, located};
ghost use Rattle.graphql_rewrite.specs.Outcomes.{outcome};
ghost use Rattle.graphql_rewrite.specs.kinds.Documents.{rewritten_definition, rewritten_document};

use crate::rebuild::{Rebuild, rebuild_node};
use crate::rewriter::{Rebuilt, Rewriter};
use crate::shared_lists::keep;
use graphql_ast::ast::{Definition, Document};
use std::alloc::{AllocError, Global};

impl Rebuild for Definition {
    ghost Tree = { DefinitionTree };

    ghost tree = { definition_tree };

    ghost rewritten = { rewritten_definition };

    ghost kept = { λ definition. located (definition_location definition) };

    fn rebuild<R: Rewriter>(&self, alloc: Global, rewriter: &R) -> Rebuilt<Definition> {
        match self {
            Definition::OperationDefinition(node) => match rebuild_node(alloc, rewriter, node)? {
                Some(made) => Ok(Some(Definition::OperationDefinition(made))),
                None => Ok(None),
            },
            Definition::FragmentDefinition(node) => match rebuild_node(alloc, rewriter, node)? {
                Some(made) => Ok(Some(Definition::FragmentDefinition(made))),
                None => Ok(None),
            },
            Definition::DirectiveDefinition(node) => match rebuild_node(alloc, rewriter, node)? {
                Some(made) => Ok(Some(Definition::DirectiveDefinition(made))),
                None => Ok(None),
            },
            Definition::SchemaDefinition(node) => match rebuild_node(alloc, rewriter, node)? {
                Some(made) => Ok(Some(Definition::SchemaDefinition(made))),
                None => Ok(None),
            },
            Definition::ScalarTypeDefinition(node) => match rebuild_node(alloc, rewriter, node)? {
                Some(made) => Ok(Some(Definition::ScalarTypeDefinition(made))),
                None => Ok(None),
            },
            Definition::ObjectTypeDefinition(node) => match rebuild_node(alloc, rewriter, node)? {
                Some(made) => Ok(Some(Definition::ObjectTypeDefinition(made))),
                None => Ok(None),
            },
            Definition::InterfaceTypeDefinition(node) => match rebuild_node(
                alloc, rewriter, node,
            )? {
                Some(made) => Ok(Some(Definition::InterfaceTypeDefinition(made))),
                None => Ok(None),
            },
            Definition::UnionTypeDefinition(node) => match rebuild_node(alloc, rewriter, node)? {
                Some(made) => Ok(Some(Definition::UnionTypeDefinition(made))),
                None => Ok(None),
            },
            Definition::EnumTypeDefinition(node) => match rebuild_node(alloc, rewriter, node)? {
                Some(made) => Ok(Some(Definition::EnumTypeDefinition(made))),
                None => Ok(None),
            },
            Definition::InputObjectTypeDefinition(node) => match rebuild_node(
                alloc, rewriter, node,
            )? {
                Some(made) => Ok(Some(Definition::InputObjectTypeDefinition(made))),
                None => Ok(None),
            },
            Definition::SchemaExtension(node) => match rebuild_node(alloc, rewriter, node)? {
                Some(made) => Ok(Some(Definition::SchemaExtension(made))),
                None => Ok(None),
            },
            Definition::ScalarTypeExtension(node) => match rebuild_node(alloc, rewriter, node)? {
                Some(made) => Ok(Some(Definition::ScalarTypeExtension(made))),
                None => Ok(None),
            },
            Definition::ObjectTypeExtension(node) => match rebuild_node(alloc, rewriter, node)? {
                Some(made) => Ok(Some(Definition::ObjectTypeExtension(made))),
                None => Ok(None),
            },
            Definition::InterfaceTypeExtension(node) => match rebuild_node(alloc, rewriter, node)? {
                Some(made) => Ok(Some(Definition::InterfaceTypeExtension(made))),
                None => Ok(None),
            },
            Definition::UnionTypeExtension(node) => match rebuild_node(alloc, rewriter, node)? {
                Some(made) => Ok(Some(Definition::UnionTypeExtension(made))),
                None => Ok(None),
            },
            Definition::EnumTypeExtension(node) => match rebuild_node(alloc, rewriter, node)? {
                Some(made) => Ok(Some(Definition::EnumTypeExtension(made))),
                None => Ok(None),
            },
            Definition::InputObjectTypeExtension(node) => match rebuild_node(
                alloc, rewriter, node,
            )? {
                Some(made) => Ok(Some(Definition::InputObjectTypeExtension(made))),
                None => Ok(None),
            },
        }
    }
}

#[tactic(auto, using(crate::proofs::Lists::made_steps, crate::proofs::Lists::stay_steps))]
fn rebuild_definitions<R: Rewriter>(
    alloc: Global,
    rewriter: &R,
    definitions: &[Definition],
) -> Rebuilt<Vec<Definition>>
    ensures trees { IfOk result (λ made.
        outcome (λ made. definition_trees made.items) (definition_trees definitions.now) made
        ≡ rewritten_document (R.rewriting rewriter.now) (definition_trees definitions.now)) }
    ensures locations { IfOk result (λ made.
        outcome (λ made. map definition_location made.items)
        (map definition_location definitions.now) made
        ≡ map definition_location definitions.now) }
{
    let mut made = None;
    for (index, definition) in definitions.iter().enumerate() {
        let changed = definition.rebuild(alloc, rewriter)?;
        made = keep(alloc, made, definitions, index, changed)?;
    }
    Ok(made)
}

/// A document of these definitions, with the sources of another one. `AllocError` if an allocation fails; the
/// definitions are dropped then.
///
/// ```
/// with_definitions(&document, vec![in alloc; first]?)?
/// ```
pub fn with_definitions(
    document: &Document,
    definitions: Vec<Definition>,
) -> Result<Document, AllocError>
    ensures definitions { IfOk result (λ made. made.definitions.items ≡ definitions.items) }
    ensures sources { IfOk result (λ made.
        document_sources made ≡ document_sources document.now) }
{
    Ok(Document {
        sources: document.sources.clone()?,
        definitions,
    })
}

impl Rebuild for Document {
    ghost Tree = { List DefinitionTree };

    ghost tree = { document_tree };

    ghost rewritten = { rewritten_document };

    ghost kept = { document_kept };

    fn rebuild<R: Rewriter>(&self, alloc: Global, rewriter: &R) -> Rebuilt<Document> {
        match rebuild_definitions(alloc, rewriter, &self.definitions)? {
            Some(definitions) => Ok(Some(with_definitions(self, definitions)?)),
            None => Ok(None),
        }
    }
}

/// Makes another document, in which each value, list of arguments, list of directives, field and selection set is rewritten,
/// the inner ones first, and `None` where nothing changes: only the rewriter allocates memory then. What doesn't
/// change is shared with this document, which stays as it is. Nodes keep their locations, and the sources are those of this
/// document. `AllocError` if an allocation fails.
///
/// ```
/// let document = match rebuild_document(alloc, &rewriter, &document)? {
///     Some(made) => made,
///     None => document, // nothing to change
/// };
/// ```
pub fn rebuild_document<R: Rewriter>(
    alloc: Global,
    rewriter: &R,
    document: &Document,
) -> Rebuilt<Document>
    ensures tree { IfOk result (λ made. outcome document_tree (document_tree document.now) made
        ≡ rewritten_document (R.rewriting rewriter.now) (document_tree document.now)) }
    ensures kept { IfOk result (λ made.
        outcome document_kept (document_kept document.now) made ≡ document_kept document.now) }
{
    document.rebuild(alloc, rewriter)
}
