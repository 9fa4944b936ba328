//! A worked tree of each kind: its text, in memory and as a sink takes it, is that of the value of `serde_json` that it is
//! written as.
use crate::sinks::check_sinks;
use crate::strings::check_strings;
use ast_json_text::{
    AsAstJson, WriteAstJson, send_ast_json, to_ast_json_text, to_ast_json_text_by_value,
};
use graphql_ast::ast::{Definition, Document};
use graphql_ast::serialize::{send_text, text_of};
use graphql_ast::sink::{TextSink, VecSink};
use std::alloc::{AllocError, Global};
use std::ops::Range;
use std::process::Abort;
use worked_trees::definitions::{VARIANTS, definition};
use worked_trees::executable::{
    field, fragment_spread, inline_fragment, inline_selection, spread_selection,
    variable_definition,
};
use worked_trees::refused::Refused;
use worked_trees::types::{enum_value_definition, field_definition};
use worked_trees::values::{
    argument, directive, directive_list, input_value_definition, type_reference, value,
};

/// What is sent is the text; or memory for it was refused, a fault, before which a beginning was sent.
fn check_sent<T: WriteAstJson>(
    rt: &impl Abort,
    alloc: Global,
    refused: &mut Refused,
    tree: &T,
    wanted: &str,
) {
    let mut sink = VecSink::new(alloc);
    if send_ast_json(tree, &mut sink).is_ok() {
        assert_eq!(rt; sink.faults(), 0);
        assert!(rt; sink.bytes() == wanted.as_bytes());
    } else {
        refused.add();
        assert_eq!(rt; sink.faults(), 1);
        assert!(rt; wanted.as_bytes().starts_with(sink.bytes()));
    }
}

/// The text of the JSON is that of its value; or one of the calls is refused memory.
pub(crate) fn check_text<T: WriteAstJson + Drop>(
    rt: &impl Abort,
    alloc: Global,
    refused: &mut Refused,
    tree: &T,
) {
    let Some(json) = refused.made(tree.to_ast_json(alloc)) else {
        return;
    };
    let Some(wanted) = refused.made(json.to_string(alloc)) else {
        return;
    };
    if let Some(text) = refused.made(to_ast_json_text(alloc, tree)) {
        assert!(rt; text.as_str() == wanted.as_str(), "{text}");
    }
    check_sent(rt, alloc, refused, tree, wanted.as_str());
}

/// The same of a tree that is made first.
fn check<T: WriteAstJson + Drop>(
    rt: &impl Abort,
    alloc: Global,
    refused: &mut Refused,
    made: Result<T, AllocError>,
) {
    if let Some(tree) = refused.made(made) {
        check_text(rt, alloc, refused, &tree);
    }
}

/// The text, what is sent, and the text by the value are the same of what is written, as by the calls of this crate.
pub(crate) fn check_written(rt: &impl Abort, alloc: Global, refused: &mut Refused) {
    let Some(tree) = refused.made(value(alloc)) else {
        return;
    };
    let written = AsAstJson { tree: &tree };
    let Some(whole) = refused.made(text_of(alloc, &written)) else {
        return;
    };
    if let Some(text) = refused.made(to_ast_json_text_by_value(alloc, &tree)) {
        assert!(rt; text.as_str() == whole.as_str(), "{text}");
    }
    let mut sink = VecSink::new(alloc);
    if send_text(&written, &mut sink).is_ok() {
        assert!(rt; sink.bytes() == whole.as_bytes());
    } else {
        refused.add();
    }
}

pub(crate) fn check_parts(rt: &impl Abort, alloc: Global, refused: &mut Refused) {
    check(rt, alloc, refused, value(alloc));
    check(rt, alloc, refused, type_reference(alloc));
    check(rt, alloc, refused, argument(alloc));
    check(rt, alloc, refused, directive(alloc));
    check(rt, alloc, refused, directive_list(alloc));
    check(rt, alloc, refused, input_value_definition(alloc));
    check(rt, alloc, refused, variable_definition(alloc));
    check(rt, alloc, refused, field_definition(alloc));
    check(rt, alloc, refused, enum_value_definition(alloc));
}

pub(crate) fn check_selections(rt: &impl Abort, alloc: Global, refused: &mut Refused) {
    check(rt, alloc, refused, fragment_spread(alloc));
    check(rt, alloc, refused, spread_selection(alloc));
    check(rt, alloc, refused, inline_fragment(alloc));
    check(rt, alloc, refused, inline_selection(alloc));
    check(rt, alloc, refused, field(alloc));
}

/// The document of one definition.
fn document(alloc: Global, definition: Definition) -> Result<Document, AllocError> {
    let mut document = Document::new(alloc);
    document.push_node(definition)?;
    Ok(document)
}

/// The definitions of these variants, each in a document.
pub(crate) fn check_documents(
    rt: &impl Abort,
    alloc: Global,
    refused: &mut Refused,
    variants: Range<usize>,
) {
    for variant in variants {
        if let Some(definition) = refused.made(definition(alloc, variant)) {
            check(rt, alloc, refused, document(alloc, definition));
        }
    }
}

/// Memory is ample, so each call has to be whole.
#[test]
fn each_kind_is_written_as_its_value_is(rt: HostRuntime) {
    let mut refused = Refused::none();
    check_written(&rt, rt.alloc(), &mut refused);
    check_parts(&rt, rt.alloc(), &mut refused);
    check_selections(&rt, rt.alloc(), &mut refused);
    check_documents(&rt, rt.alloc(), &mut refused, 0..VARIANTS);
    assert!(rt; refused.calls == 0);
    check_strings(&rt, rt.alloc());
    check_sinks(&rt, rt.alloc());
}
