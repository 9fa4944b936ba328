//! Errors of texts, and of memory. Those of JSON are cases of the golden program.
use crate::checks::{check_case, check_equal};
use graphql_ast_json::{AstJsonError, from_ast_json_str, is_too_deep};
use graphql_base::span::FileId;
use graphql_values::value::Value;
use serde_json::Value as Json;
use std::alloc::{AllocError, Global};
use std::process::Abort;

const TOO_DEEP: &str = "arrays and objects stand in one another more than 127 deep";

const NO_OBJECT: &str = "at the root: found an array where an object was wanted";

/// Parts of a text, each with how often it comes, and what is said of the text.
type Row = (&'static [(&'static str, usize)], &'static str);

/// Of JSON.
const JSON: [Row; 9] = [
    (&[("[", 127), ("]", 127)], NO_OBJECT),
    (&[("[", 128)], TOO_DEEP),
    (&[("{\"a\":", 128)], TOO_DEEP),
    (&[("[\"\\\"]\",", 1), ("[", 127)], TOO_DEEP),
    (&[("[\n\"]\",\n", 1), ("[", 127)], TOO_DEEP),
    (&[("[\"\\\\\",", 1), ("[", 127)], TOO_DEEP),
    (&[(" ", 5000), ("[", 128)], TOO_DEEP),
    (&[("[", 128), ("nothing", 1)], TOO_DEEP),
    (&[("[[],{},", 1), ("[", 127), ("]", 200)], TOO_DEEP),
];

/// Texts that are no JSON, of which is said what `serde_json` says of them.
const NO_JSON: [&[(&str, usize)]; 16] = [
    &[("{\"kind\": nothing}", 1)],
    &[("[", 127)],
    &[("{\"a\":", 127)],
    &[("nothing", 1), ("[", 128)],
    &[("[1e999,", 1), ("[", 127)],
    &[("{\"a\"", 1), ("[", 128)],
    &[("[}", 1), ("[", 128)],
    &[("[]", 1), ("[", 128)],
    &[("\"", 1), ("[", 128)],
    &[("\"\\\"", 1), ("[", 128)],
    &[("{\n  \"a\": 1,\n  b", 1), ("[", 128)],
    &[(" ", 5000)],
    &[],
    &[("[", 1), ("[],", 200)],
    &[("[", 1), ("{},", 200)],
    &[("]", 200)],
];

/// The text of these parts.
pub(crate) fn text_of(alloc: Global, parts: &[(&str, usize)]) -> Result<String, AllocError> {
    let mut text = String::new(alloc);
    for (part, count) in parts {
        text.push_str(part.repeat(alloc, *count)?.as_str())?;
    }
    Ok(text)
}

/// What is said of a text that is of no value.
fn refusal(rt: &impl Abort, alloc: Global, text: &str) -> String {
    match from_ast_json_str::<Value>(alloc, text, FileId::new(1)) {
        Ok(_) => panic!(rt; "no value"),
        Err(error) => format!(in alloc; "{error}").expect(rt, "memory"),
    }
}

/// What is said of a text that is of no value, and whether it is too deep.
fn check_said(rt: &impl Abort, alloc: Global, text: &str, wanted: &str) {
    let said = refusal(rt, alloc, text);
    check_case(rt, text, said.as_str(), wanted);
    let is_deep = is_too_deep(alloc, text).expect(rt, "memory");
    check_case(rt, text, is_deep, wanted == TOO_DEEP);
}

fn check_json(rt: &impl Abort, alloc: Global, parts: &[(&str, usize)], wanted: &str) {
    let text = text_of(alloc, parts).expect(rt, "memory");
    check_said(rt, alloc, text.as_str(), wanted);
}

/// What `serde_json` says of a text that is no JSON.
fn no_json(rt: &impl Abort, alloc: Global, text: &str) -> String {
    let Err(error) = Json::from_str(alloc, text) else {
        panic!(rt; "{text} is no JSON");
    };
    format!(in alloc; "not JSON: {error}").expect(rt, "memory")
}

fn check_no_json(rt: &impl Abort, alloc: Global, parts: &[(&str, usize)]) {
    let text = text_of(alloc, parts).expect(rt, "memory");
    let wanted = no_json(rt, alloc, text.as_str());
    check_said(rt, alloc, text.as_str(), wanted.as_str());
    check_case(rt, &text, wanted.as_str() == TOO_DEEP, false);
}

fn check_memory(rt: &impl Abort, alloc: Global) {
    let error = AstJsonError::Memory;
    check_equal(rt, error.is_memory(), true);
    let said = format!(in alloc; "{error}").expect(rt, "memory");
    check_equal(rt, said.as_str(), "out of memory");
}

/// JSON that is too deep, texts that are no JSON, and refused memory.
#[test]
fn texts_and_memory_are_named(rt: HostRuntime) {
    for (parts, wanted) in JSON {
        check_json(&rt, rt.alloc(), parts, wanted);
    }
    for parts in NO_JSON {
        check_no_json(&rt, rt.alloc(), parts);
    }
    check_memory(&rt, rt.alloc());
}
