//! A worked tree of each kind, as AST JSON and from it.
use crate::calls::check_all;
use crate::checks::check_equal;
use graphql_ast::ast::{Definition, Document};
use graphql_ast_json::AstJson;
use graphql_base::span::FileId;
use std::alloc::{AllocError, Global};
use std::ops::Range;
use std::process::Abort;
use worked_trees::definitions::{VARIANTS, definition};
use worked_trees::executable::{
    field, fragment_spread, inline_fragment, inline_selection, spread_selection,
    variable_definition,
};
use worked_trees::refused::Refused;
use worked_trees::types::{enum_value_definition, field_definition};
use worked_trees::values::{
    argument, directive, directive_list, input_value_definition, type_reference, value,
};

/// The tree is written, and what is written is read as it; or the one or the other is refused memory.
fn check<T: AstJson + PartialEq + Drop>(
    rt: &impl Abort,
    alloc: Global,
    refused: &mut Refused,
    made: Result<T, AllocError>,
) {
    let Some(tree) = refused.made(made) else {
        return;
    };
    let Some(json) = refused.made(tree.to_ast_json(alloc)) else {
        return;
    };
    match T::from_ast_json(alloc, &json, FileId::new(1)) {
        Ok(again) => assert!(rt; again == tree),
        Err(error) => {
            assert!(rt; error.is_memory());
            refused.add();
        }
    }
}

pub(crate) fn check_parts(rt: &impl Abort, alloc: Global, refused: &mut Refused) {
    check(rt, alloc, refused, value(alloc));
    check(rt, alloc, refused, type_reference(alloc));
    check(rt, alloc, refused, argument(alloc));
    check(rt, alloc, refused, directive(alloc));
    check(rt, alloc, refused, directive_list(alloc));
    check(rt, alloc, refused, input_value_definition(alloc));
    check(rt, alloc, refused, variable_definition(alloc));
    check(rt, alloc, refused, field_definition(alloc));
    check(rt, alloc, refused, enum_value_definition(alloc));
}

pub(crate) fn check_selections(rt: &impl Abort, alloc: Global, refused: &mut Refused) {
    check(rt, alloc, refused, fragment_spread(alloc));
    check(rt, alloc, refused, spread_selection(alloc));
    check(rt, alloc, refused, inline_fragment(alloc));
    check(rt, alloc, refused, inline_selection(alloc));
    check(rt, alloc, refused, field(alloc));
}

/// The document of one definition.
fn document(alloc: Global, definition: Definition) -> Result<Document, AllocError> {
    let mut document = Document::new(alloc);
    document.push_node(definition)?;
    Ok(document)
}

/// The definitions of these variants, each in a document.
pub(crate) fn check_documents(
    rt: &impl Abort,
    alloc: Global,
    refused: &mut Refused,
    variants: Range<usize>,
) {
    for variant in variants {
        if let Some(definition) = refused.made(definition(alloc, variant)) {
            check(rt, alloc, refused, document(alloc, definition));
        }
    }
}

/// Memory is ample, so each call has to be whole: of each kind, and each of an extension.
#[test]
fn calls_of_each_kind_are_whole(rt: HostRuntime) {
    let mut refused = Refused::none();
    check_all(&rt, rt.alloc(), &mut refused);
    check_parts(&rt, rt.alloc(), &mut refused);
    check_selections(&rt, rt.alloc(), &mut refused);
    check_documents(&rt, rt.alloc(), &mut refused, 0..VARIANTS);
    check_equal(&rt, refused.calls, 0);
}
