//! Each call that writes AST JSON or reads it, for the extension of a scalar type: it is whole, or refused memory.
use graphql_ast::ast::ScalarTypeExtension;
use graphql_ast_json::{
    AstJson, AstJsonError, AstNode, JsonNode, NodeReader, Unknown, WellFormedError,
    from_ast_json_str, from_well_formed_ast_json_str, is_too_deep, parse_json,
    read_well_formed_ast_json, read_well_formed_json,
};
use graphql_base::span::{FileId, SourceSpan};
use json::{Scratch, Value as Parsed};
use parsed_json::owned_json;
use serde_json::Value as Json;
use std::alloc::Global;
use std::process::Abort;
use worked_trees::refused::Refused;
use worked_trees::type_extensions::scalar_type_extension;

fn check_read(
    rt: &impl Abort,
    refused: &mut Refused,
    answer: Result<ScalarTypeExtension, AstJsonError>,
    wanted: &ScalarTypeExtension,
) {
    match answer {
        Ok(read) => assert!(rt; read == *wanted),
        Err(error) => {
            assert!(rt; error.is_memory());
            refused.add();
        }
    }
}

fn check_well_formed(
    rt: &impl Abort,
    refused: &mut Refused,
    answer: Result<ScalarTypeExtension, WellFormedError>,
    wanted: &ScalarTypeExtension,
) {
    match answer {
        Ok(read) => assert!(rt; read == *wanted),
        Err(error) => {
            assert!(rt; error.is_memory());
            refused.add();
        }
    }
}

fn check_parsed(
    rt: &impl Abort,
    alloc: Global,
    refused: &mut Refused,
    (value, json): (&Parsed<'_>, &Json),
    wanted: &ScalarTypeExtension,
) {
    let node = JsonNode::parsed(alloc, value, FileId::new(1), Unknown::Refuse);
    check_read(rt, refused, ScalarTypeExtension::read_json(node), wanted);
    check_well_formed(rt, refused, read_well_formed_json(node), wanted);
    if let Some(owned) = refused.made(owned_json(alloc, value)) {
        assert!(rt; owned == *json);
    }
}

fn check_text(
    rt: &impl Abort,
    alloc: Global,
    refused: &mut Refused,
    (text, json): (&str, &Json),
    wanted: &ScalarTypeExtension,
) {
    let source = FileId::new(1);
    check_read(rt, refused, from_ast_json_str(alloc, text, source), wanted);
    let answer = from_well_formed_ast_json_str(alloc, text, source);
    check_well_formed(rt, refused, answer, wanted);
    if let Some(is_deep) = refused.made(is_too_deep(alloc, text)) {
        assert!(rt; !is_deep);
    }
    let mut scratch = Scratch::new(alloc);
    if let Some(parsed) = refused.made(parse_json(alloc, text, &mut scratch)) {
        let value = parsed.expect(rt, "JSON");
        check_parsed(rt, alloc, refused, (&value, json), wanted);
    }
}

pub(crate) fn check_all(rt: &impl Abort, alloc: Global, refused: &mut Refused) {
    let Some(tree) = refused.made(scalar_type_extension(alloc)) else {
        return;
    };
    let span = SourceSpan::new(FileId::new(1), 0, 1);
    let Some(json) = refused.made(tree.to_ast_json_at(alloc, span)) else {
        return;
    };
    let node = NodeReader {
        alloc,
        json: &json,
        source: FileId::new(1),
        unknown: Unknown::Refuse,
    };
    check_read(rt, refused, ScalarTypeExtension::read_ast_json(node), &tree);
    check_well_formed(rt, refused, read_well_formed_ast_json(node), &tree);
    if let Some(text) = refused.made(json.to_string(alloc)) {
        check_text(rt, alloc, refused, (text.as_str(), &json), &tree);
    }
}
