//! Calls that meet a refused growth, wherever it comes: the answer is the refusal, or that of an undisturbed call.
//! `rt try --test --fail-alloc N` refuses the Nth growth of each test.
mod each_kind;

use crate::calls::check_all;
use crate::checks::check_equal;
use crate::each_kind::{check_parts, check_selections};
use crate::samples::{DEFINITION, ILL_FORMED, PRINTED};
use graphql_ast::ast::Document;
use graphql_ast_json::{
    AstJson, WellFormedError, from_ast_json_str, from_well_formed_ast_json_str,
};
use graphql_base::span::FileId;
use graphql_text::engine::PrintError;
use graphql_values::directive_definition::DirectiveDefinition;
use std::alloc::Global;
use std::process::Abort;
use worked_trees::refused::Refused;

/// What is said of a text that is of no document. Nothing, where memory was refused.
fn refusal(rt: &impl Abort, alloc: Global, text: &str) -> Option<String> {
    match from_ast_json_str::<Document>(alloc, text, FileId::new(1)) {
        Ok(_) => panic!(rt; "no document"),
        Err(error) => {
            if error.is_memory() {
                None
            } else {
                format!(in alloc; "{error}").ok()
            }
        }
    }
}

/// Allocations: 53.
#[test]
fn a_definition_is_read_or_memory_was_refused(rt: HostRuntime) {
    let alloc = rt.alloc();
    match from_ast_json_str::<DirectiveDefinition>(alloc, DEFINITION, FileId::new(1)) {
        Ok(definition) => match definition.serialize().no_indent().to_text(alloc) {
            Ok(text) => check_equal(&rt, text.as_str(), PRINTED),
            Err(error) => check_equal(&rt, error, PrintError::Memory),
        },
        Err(error) => assert!(rt; error.is_memory()),
    }
}

/// Allocations: 175.
#[test]
fn a_definition_is_written_or_memory_was_refused(rt: HostRuntime) {
    let alloc = rt.alloc();
    let source = FileId::new(1);
    let Ok(definition) = from_ast_json_str::<DirectiveDefinition>(alloc, DEFINITION, source) else {
        return;
    };
    let Ok(json) = definition.to_ast_json(alloc) else {
        return;
    };
    match DirectiveDefinition::from_ast_json(alloc, &json, source) {
        Ok(again) => assert!(rt; again == definition),
        Err(error) => assert!(rt; error.is_memory()),
    }
}

/// An unknown member; a text that is no JSON, which has an escape and is read three times; and a flaw.
/// Allocations: 43.
#[test]
fn what_is_wrong_is_told_or_memory_was_refused(rt: HostRuntime) {
    let alloc = rt.alloc();
    for (text, wanted) in [
        (
            r#"{"kind":"Document","definitions":[],"b":[{}],"\u0061":1}"#,
            "at the root: found a member `a`, which no Document has",
        ),
        (
            r#"{"kind":"\u0044ocument","definitions":[}"#,
            "not JSON: invalid JSON at line 1 column 40",
        ),
    ] {
        if let Some(said) = refusal(&rt, alloc, text) {
            check_equal(&rt, said.as_str(), wanted);
        }
    }
    match from_well_formed_ast_json_str::<Document>(alloc, ILL_FORMED, FileId::new(1)) {
        Ok(_) => panic!(rt; "ill formed"),
        Err(WellFormedError::IllFormed { path, .. }) => {
            check_equal(&rt, path.as_str(), "definitions[0]");
        }
        Err(error) => assert!(rt; error.is_memory()),
    }
}

/// Allocations: 1907.
#[test]
fn calls_are_whole_or_memory_was_refused(rt: HostRuntime) {
    let mut refused = Refused::none();
    check_all(&rt, rt.alloc(), &mut refused);
    check_parts(&rt, rt.alloc(), &mut refused);
    check_selections(&rt, rt.alloc(), &mut refused);
    assert!(rt; refused.calls <= 1);
}
