//! A kind of another crate that reads parsed JSON itself, and what a reading of a text calls of it.
ghost use Rattle.std.specs.Prelude.{List, None, ⊤};
ghost use Rattle.graphql_ast.specs.AstTrees.{document_tree};
ghost use Rattle.graphql_ast.specs.Definitions.{DefinitionTree};
ghost use Rattle.graphql_ast_json.specs.kinds.DocumentJson.{IsDocument};
ghost use Rattle.graphql_ast_json.specs.lemmas.DocumentNodes.{document_laws};
ghost use Rattle.graphql_ast_json.specs.lemmas.Leaves.{json_laws};

use crate::checks::{check_case, check_equal};
use crate::outside::Outside;
use graphql_ast::ast::{Definition, DirectiveList, Document, Selection};
use graphql_ast::name::Name;
use graphql_ast_json::{AstJson, AstJsonError, JsonNode, NodeReader, from_ast_json_str};
use graphql_base::node::{Node, NodeStr};
use graphql_base::span::FileId;
use serde_json::Value as Json;
use std::alloc::{AllocError, Global};
use std::process::Abort;

/// A document, which is read of JSON in either form. Of a value of `serde_json` by itself it answers that memory was refused.
#[derive(Drop)]
struct Direct {
    document: Document,
}

impl AstJson for Direct {
    ghost Tree = { List DefinitionTree };

    ghost tree = { λ direct. document_tree direct.document };

    ghost is_json_of = { IsDocument };

    ghost location = { λ _. None };

    ghost stands = { λ _ _. ⊤ };

    ghost laws = { json_laws document_laws };

    fn read_ast_json(_node: NodeReader<'_>) -> Result<Direct, AstJsonError> {
        Err(AstJsonError::Memory)
    }

    fn read_json(node: JsonNode<'_, '_>) -> Result<Direct, AstJsonError> {
        match Document::read_json(node) {
            Ok(document) => Ok(Direct { document }),
            Err(error) => Err(error),
        }
    }

    fn reads_parsed() -> bool {
        true
    }

    fn to_ast_json(&self, alloc: Global) -> Result<Json, AllocError> {
        self.document.to_ast_json(alloc)
    }
}

/// Texts of JSON, with what is told of each.
const TEXTS: [(&str, &str); 3] = [
    (
        r#"{"kind":"Document","definitions":[
        {"kind":"ScalarTypeDefinition","name":{"kind":"Name","value":"\u0041"}}]}"#,
        "scalar A\n",
    ),
    (
        r#"{"kind":"Document","definitions":[1]}"#,
        "at `definitions[0]`: found a number where an object was wanted",
    ),
    (
        r#"{"kind":"Document","definitions":[],"a":0}"#,
        "at the root: found a member `a`, which no Document has",
    ),
];

fn check_told(rt: &impl Abort, alloc: Global, text: &str, wanted: &str) {
    let told = match from_ast_json_str::<Direct>(alloc, text, FileId::new(1)) {
        Ok(direct) => format!(in alloc; "{}", direct.document),
        Err(error) => format!(in alloc; "{error}"),
    };
    check_equal(rt, told.expect(rt, "memory").as_str(), wanted);
}

/// Kinds, and whether each reads parsed JSON.
fn check_kinds(rt: &impl Abort) {
    for (kind, reads, wanted) in [
        ("document", Document::reads_parsed(), true),
        ("node of a document", Node::<Document>::reads_parsed(), true),
        ("definition", Definition::reads_parsed(), true),
        ("selection", Selection::reads_parsed(), true),
        ("directives", DirectiveList::reads_parsed(), true),
        ("name", Name::reads_parsed(), true),
        ("text", NodeStr::reads_parsed(), true),
        ("kind of another crate", Outside::reads_parsed(), false),
    ] {
        check_case(rt, kind, reads, wanted);
    }
}

/// A text of a kind that reads parsed JSON is read by its `read_json`, as it is parsed. So are those of the kinds of this repository,
/// and not of all of other crates.
#[test]
fn kinds_that_read_parsed_json_are_read_by_themselves(rt: HostRuntime) {
    for (text, wanted) in TEXTS {
        check_told(&rt, rt.alloc(), text, wanted);
    }
    check_kinds(&rt);
}
