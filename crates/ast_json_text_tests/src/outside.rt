//! A kind of another crate, which has `to_ast_json` alone.
ghost use Rattle.std.specs.Prelude.{List, None, ⊤};
ghost use Rattle.graphql_ast.specs.AstTrees.{document_tree};
ghost use Rattle.graphql_ast.specs.Definitions.{DefinitionTree};
ghost use Rattle.graphql_ast_json.specs.kinds.DocumentJson.{IsDocument};
ghost use Rattle.graphql_ast_json.specs.lemmas.DocumentNodes.{document_laws};
ghost use Rattle.graphql_ast_json.specs.lemmas.Leaves.{json_laws};

use graphql_ast::ast::Document;
use graphql_ast_json::{AstJson, AstJsonError, NodeReader};
use serde_json::Value as Json;
use std::alloc::{AllocError, Global};

/// A document.
#[derive(Drop)]
pub(crate) struct Outside {
    pub(crate) document: Document,
}

impl AstJson for Outside {
    ghost Tree = { List DefinitionTree };

    ghost tree = { λ outside. document_tree outside.document };

    ghost is_json_of = { IsDocument };

    ghost location = { λ _. None };

    ghost stands = { λ _ _. ⊤ };

    ghost laws = { json_laws document_laws };

    fn read_ast_json(node: NodeReader<'_>) -> Result<Outside, AstJsonError> {
        match Document::read_ast_json(node) {
            Ok(document) => Ok(Outside { document }),
            Err(error) => Err(error),
        }
    }

    fn to_ast_json(&self, alloc: Global) -> Result<Json, AllocError> {
        self.document.to_ast_json(alloc)
    }
}
