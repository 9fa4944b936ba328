//! What holds of definitions, documents and source files as they are compared and cloned.
ghost use Rattle.std.specs.Prelude.{◌≡◌};
ghost use Rattle.graphql_text.specs.trees.Comparisons.{◌&◌, ClonesKeep, IsComparedBy};
ghost use Rattle.graphql_ast.specs.AstTrees.{document_tree};
ghost use Rattle.graphql_ast.specs.Sources.{document_sources, file_texts};
ghost use Rattle.graphql_ast.specs.declared.document.SourceFile.{SourceFile};

use crate::definition::Definition;
use crate::document::{Document, SourceFile};

/// Two source files are equal exactly if their paths and their texts are.
pub fn source_files_compare_by_text()
    ensures { IsComparedBy ⟦<SourceFile as PartialEq>⟧.eq file_texts }
{}

/// A clone of a definition has the very node. That of a document has the very definitions, in order, and the same
/// sources: their ids, paths and texts.
pub fn clones_are_the_same()
    ensures definitions { ClonesKeep ⟦<Definition as Clone>⟧.is_clone (λ it. it) }
    ensures documents { ClonesKeep ⟦<Document as Clone>⟧.is_clone (λ it. document_sources it
        & it.definitions.items & document_tree it) }
    ensures source_files { (a b : SourceFile) → ⟦<SourceFile as Clone>⟧.is_clone a b →
        file_texts b ≡ file_texts a }
{}
