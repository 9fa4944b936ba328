//! Calls that meet a refused growth, wherever it comes: the answer is the refusal, or that of an undisturbed call.
//! `rt try --test --fail-alloc N` refuses the Nth growth of each test.
use crate::checks::check_equal;
use crate::samples::{ILL_FORMED, NO_JSON, QUERY};
use graphql_ast_calls::{Status, check_json, print_json, print_value_json, write_json};
use std::alloc::Global;
use std::process::Abort;

/// That a call told that memory was refused.
fn check_refused(rt: &impl Abort, status: Status, needed: usize) {
    check_equal(rt, status, Status::OutOfMemory);
    check_equal(rt, needed, 13);
}

/// That a call has this answer, with this text at the front of its buffer, or told that memory was refused.
fn check_told(
    rt: &impl Abort,
    out: &[u8],
    (status, needed): (Status, usize),
    (answer, text): (Status, &str),
) {
    if status == answer {
        check_equal(rt, needed, text.len());
        assert!(rt; out.starts_with(text.as_bytes()), "{text}");
    } else {
        check_refused(rt, status, needed);
    }
}

fn check_printed(rt: &impl Abort, alloc: Global, json: &[u8], wanted: (Status, &str)) {
    let mut out = [b'#'; 100];
    let mut needed = 0usize;
    let status = print_json(alloc, json, true, b"  ", 0, false, &mut out, &mut needed);
    check_told(rt, &out, (status, needed), wanted);
}

fn check_checked(rt: &impl Abort, alloc: Global, json: &[u8], wanted: (Status, &str)) {
    let mut out = [b'#'; 100];
    let mut needed = 0usize;
    let status = check_json(alloc, json, false, &mut out, &mut needed);
    check_told(rt, &out, (status, needed), wanted);
}

fn check_written(rt: &impl Abort, alloc: Global, json: &[u8], wanted: (Status, &str)) {
    let mut out = [b'#'; 1000];
    let mut needed = 0usize;
    let status = write_json(alloc, json, false, &mut out, &mut needed);
    check_told(rt, &out, (status, needed), wanted);
}

/// `QUERY` as it is written.
const QUERY_WRITTEN: &str =
    "{\"definitions\":[{\"directives\":[],\"kind\":\"OperationDefinition\",\"operation\":\"query\",\"selectionSet\":{\"kind\":\"SelectionSet\",\"selections\":[{\"arguments\":[],\"directives\":[],\"kind\":\"Field\",\"name\":{\"kind\":\"Name\",\"value\":\"a\"}}]},\"variableDefinitions\":[]}],\"kind\":\"Document\"}";

/// `ILL_FORMED` as it is written.
const ILL_FORMED_WRITTEN: &str =
    "{\"definitions\":[{\"directives\":[],\"kind\":\"ScalarTypeDefinition\",\"name\":{\"kind\":\"Name\",\"value\":\"A\"}},{\"directives\":[],\"kind\":\"FragmentDefinition\",\"name\":{\"kind\":\"Name\",\"value\":\"on\"},\"selectionSet\":{\"kind\":\"SelectionSet\",\"selections\":[{\"arguments\":[],\"directives\":[],\"kind\":\"Field\",\"name\":{\"kind\":\"Name\",\"value\":\"a\"}}]},\"typeCondition\":{\"kind\":\"NamedType\",\"name\":{\"kind\":\"Name\",\"value\":\"T\"}}}],\"kind\":\"Document\"}";

/// What is said of `ILL_FORMED`.
const FLAW: &str = "at `definitions[1].name.value`: a fragment named `on`: `on`";

fn check_query(rt: &impl Abort, alloc: Global) {
    let json = QUERY.as_bytes();
    check_printed(rt, alloc, json, (Status::Done, "{\n  a\n}\n"));
    check_checked(rt, alloc, json, (Status::Done, ""));
    check_written(rt, alloc, json, (Status::Done, QUERY_WRITTEN));
}

fn check_ill_formed(rt: &impl Abort, alloc: Global) {
    let json = ILL_FORMED.as_bytes();
    check_printed(rt, alloc, json, (Status::IllFormed, FLAW));
    check_checked(rt, alloc, json, (Status::IllFormed, FLAW));
    check_written(rt, alloc, json, (Status::Done, ILL_FORMED_WRITTEN));
}

/// Allocations: 126.
#[test]
fn a_call_answers_or_memory_was_refused(rt: HostRuntime) {
    check_query(&rt, rt.alloc());
    check_ill_formed(&rt, rt.alloc());
}

/// An enum value, whose name takes memory.
const VALUE: &str = "{\"kind\":\"EnumValue\",\"value\":\"NameOfTwentyFourLetters_\"}";

/// Allocations: 5.
#[test]
fn a_value_is_printed_or_memory_was_refused(rt: HostRuntime) {
    let alloc = rt.alloc();
    let mut out = [b'#'; 100];
    let mut needed = 0usize;
    let json = VALUE.as_bytes();
    let status = print_value_json(alloc, json, true, b"  ", 0, false, &mut out, &mut needed);
    if status == Status::Done {
        check_equal(&rt, out.starts_with(b"NameOfTwentyFourLetters_#"), true);
        check_equal(&rt, needed, 24);
    } else {
        check_refused(&rt, status, needed);
    }
}

/// The bytes are read twice: what isn't parsed is read again for the error.
/// Allocations: 33.
#[test]
fn bytes_that_are_no_json_are_told_or_memory_was_refused(rt: HostRuntime) {
    let json = NO_JSON.as_bytes();
    let wanted = (
        Status::NotJson,
        "not JSON: invalid JSON at line 1 column 40",
    );
    check_printed(&rt, rt.alloc(), json, wanted);
    check_checked(&rt, rt.alloc(), json, wanted);
    check_written(&rt, rt.alloc(), json, wanted);
}
