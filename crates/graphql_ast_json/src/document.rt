//! Documents in AST JSON.
ghost use Rattle.std.specs.Prelude.{List};
ghost use Rattle.graphql_ast.specs.AstTrees.{document_tree};
ghost use Rattle.graphql_ast.specs.Definitions.{DefinitionTree};
ghost use Rattle.graphql_ast_json.specs.kinds.DocumentJson.{IsDocument};
ghost use Rattle.graphql_ast_json.specs.lemmas.DocumentNodes.{document_laws};

use crate::ast_json::AstNode;
use crate::members::required_list;
use crate::write::NodeWriter;
use ast_json_nodes::JsonNode;
use ast_json_nodes::error::AstJsonError;
use graphql_ast::ast::{Definition, Document};
use serde_json::Value as Json;
use std::alloc::AllocError;

/// The document that is read has no sources: the caller knows the text that the locations speak of.
impl AstNode for Document {
    ghost Tree = { List DefinitionTree };

    ghost tree = { document_tree };

    ghost is_node = { IsDocument };

    ghost laws = { document_laws };

    fn read_json_node(node: JsonNode<'_, '_>) -> Result<Document, AstJsonError> {
        node.check("Document", &["definitions"])?;
        let definitions = required_list::<Definition>(node, "definitions")?;
        let mut document = Document::new(node.alloc);
        document.definitions = definitions;
        Ok(document)
    }

    fn write_node(&self, mut node: NodeWriter) -> Result<Json, AllocError> {
        node.begin("Document")?;
        node.put_list::<Definition>("definitions", &self.definitions)?;
        Ok(node.into_json())
    }
}
