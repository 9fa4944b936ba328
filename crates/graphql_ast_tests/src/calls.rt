//! Calls that make, copy and lend what trees are made of: each is whole, or refused memory, and what it was refused for stays as it was.
use crate::checks::check_equal;
use graphql_ast::ast::{
    Argument, Definition, Document, Field, FloatValue, IntValue, LiteralError, Selection,
    SourceFile, Type,
};
use graphql_ast::name::{InvalidNameError, Name, NameError};
use graphql_ast::node::{Node, NodeStr};
use graphql_ast::span::FileId;
use std::alloc::{AllocError, Global};
use std::process::Abort;
use std::rc::RcStr;
use worked_trees::definitions::source_file;
use worked_trees::executable::{field, field_selection, inline_selection, spread_selection};
use worked_trees::parts::{FILE, description, located, node};
use worked_trees::refused::Refused;
use worked_trees::types::scalar_type_definition;
use worked_trees::values::{argument, type_reference};

fn check_clone<T: Clone + PartialEq + Drop>(rt: &impl Abort, refused: &mut Refused, original: &T) {
    if let Some(copy) = refused.made(original.clone()) {
        assert!(rt; copy == *original);
    }
}

/// A clone of a name that has a location.
fn check_copy(rt: &impl Abort, copy: &Name, name: &Name, text: &str) {
    check_equal(rt, copy.location().is_some(), true);
    check_equal(rt, copy.location(), name.location());
    check_equal(rt, copy.as_str(), text);
}

/// A name that is at offset 0, as its clone is.
fn check_name(rt: &impl Abort, refused: &mut Refused, made: Result<Name, AllocError>, text: &str) {
    if let Some(name) = refused.made(made) {
        let name = located(name);
        check_clone::<Name>(rt, refused, &name);
        if let Some(copy) = refused.made(name.clone()) {
            check_copy(rt, &copy, &name, text);
        }
        check_equal(rt, name.as_str(), text);
    }
}

const LONG: &str = "aaaaaaaaaaaaaaaaaaaaaaaa";

fn check_names(rt: &impl Abort, alloc: Global, refused: &mut Refused) {
    check_name(rt, refused, Name::new_unchecked(alloc, "abc"), "abc");
    check_name(rt, refused, Name::compact_unchecked(alloc, "abc"), "abc");
    check_name(rt, refused, Name::compact_unchecked(alloc, LONG), LONG);
}

fn check_error(rt: &impl Abort, refused: &mut Refused, error: InvalidNameError) {
    check_equal(rt, error.name.as_str(), "1nvalid");
    check_clone::<InvalidNameError>(rt, refused, &error);
    check_clone::<NameError>(rt, refused, &NameError::Invalid(error));
}

fn check_no_name(rt: &impl Abort, alloc: Global, refused: &mut Refused) {
    let Some(text) = refused.made(RcStr::from_str(alloc, "1nvalid")) else {
        return;
    };
    match Name::new_shared(alloc, text) {
        Ok(_) => assert!(rt; false, "no name"),
        Err(NameError::Memory) => refused.add(),
        Err(NameError::Invalid(error)) => check_error(rt, refused, error),
    }
}

/// A number of more than 30 bytes takes memory.
const INT: &str = "-100000000000000000000000000002";

const FLOAT: &str = "1.50000000000000000000000000002";

fn check_int(rt: &impl Abort, alloc: Global, refused: &mut Refused) {
    match IntValue::new(alloc, INT) {
        Ok(int) => check_clone::<IntValue>(rt, refused, &int),
        Err(error) => {
            check_equal(rt, error.is_memory(), true);
            refused.add();
        }
    }
}

fn check_float(rt: &impl Abort, alloc: Global, refused: &mut Refused) {
    match FloatValue::new(alloc, FLOAT) {
        Ok(float) => check_clone::<FloatValue>(rt, refused, &float),
        Err(error) => {
            check_equal(rt, error.is_memory(), true);
            refused.add();
        }
    }
}

fn check_no_number(rt: &impl Abort, alloc: Global, refused: &mut Refused) {
    match IntValue::new(alloc, "01") {
        Ok(int) => assert!(rt; false, "{int}"),
        Err(LiteralError::Memory) => refused.add(),
        Err(error) => check_clone::<LiteralError>(rt, refused, &error),
    }
}

/// Takes the alias out of the field; or nothing, if the field is shared and memory for another was refused.
fn take_alias(refused: &mut Refused, node: &mut Node<Field>) -> bool {
    match node.make_mut() {
        Ok(field) => {
            field.alias = None;
            true
        }
        Err(AllocError) => {
            refused.add();
            false
        }
    }
}

/// What is written to the second of two nodes that share a field stays in it.
fn check_written(
    rt: &impl Abort,
    refused: &mut Refused,
    first: &Node<Field>,
    second: &mut Node<Field>,
    before: &Field,
) {
    let is_taken = take_alias(refused, second);
    check_equal(rt, **first == *before, true);
    check_equal(rt, second.alias.is_none(), is_taken);
    check_equal(rt, second.location(), first.location());
    check_equal(rt, is_taken || **second == *before, true);
    check_equal(rt, second.get_mut().is_some(), is_taken);
}

/// A field that two nodes share.
fn check_nodes(rt: &impl Abort, alloc: Global, refused: &mut Refused) {
    let (Some(shared), Some(before)) = (refused.made(field(alloc)), refused.made(field(alloc)))
    else {
        return;
    };
    let Some(first) = refused.made(node(alloc, shared)) else {
        return;
    };
    check_clone::<Node<Field>>(rt, refused, &first);
    if let Some(mut second) = refused.made(first.clone()) {
        check_written(rt, refused, &first, &mut second, &before);
    }
}

fn check_text(rt: &impl Abort, refused: &mut Refused, text: &NodeStr) {
    check_clone::<NodeStr>(rt, refused, text);
    if let Some(copy) = refused.made(text.clone()) {
        check_equal(rt, copy.location().is_some(), true);
        check_equal(rt, copy.location(), text.location());
    }
}

fn check_description(rt: &impl Abort, alloc: Global, refused: &mut Refused) {
    if let Some(made) = refused.made(description(alloc)) {
        if let Some(text) = made {
            check_text(rt, refused, &text);
        }
    }
}

fn check_parts(rt: &impl Abort, alloc: Global, refused: &mut Refused) {
    if let Some(ty) = refused.made(type_reference(alloc)) {
        check_clone::<Type>(rt, refused, &ty);
    }
    if let Some(argument) = refused.made(argument(alloc)) {
        check_clone::<Argument>(rt, refused, &argument);
    }
}

fn check_source_file(rt: &impl Abort, alloc: Global, refused: &mut Refused) {
    if let Some(file) = refused.made(source_file(alloc)) {
        check_clone::<SourceFile>(rt, refused, &file);
        check_equal(
            rt,
            (file.path.as_str(), file.text.as_str()),
            ("a.graphql", "a text"),
        );
    }
}

/// Takes the last directive out of the selection; or nothing, if the loan of its directives was refused memory.
fn take_directive(refused: &mut Refused, selection: &mut Selection) -> bool {
    let is_lent = match selection.directives_mut() {
        Ok(directives) => directives.pop().is_some(),
        Err(AllocError) => false,
    };
    if !is_lent {
        refused.add();
    }
    is_lent
}

/// Directives are lent by one of two selections that share them, to be taken out; or both stay.
fn check_lent(
    rt: &impl Abort,
    refused: &mut Refused,
    made: Result<Selection, AllocError>,
    same: Result<Selection, AllocError>,
) {
    let (Some(first), Some(before)) = (refused.made(made), refused.made(same)) else {
        return;
    };
    if let Some(mut second) = refused.made(first.clone()) {
        let is_lent = take_directive(refused, &mut second);
        check_equal(rt, first == before, true);
        check_equal(rt, second == before, !is_lent);
        check_equal(rt, second.directives().is_empty(), is_lent);
    }
}

/// A document with a source, and with a scalar type as its only definition.
fn small_document(alloc: Global) -> Result<Document, AllocError> {
    let mut document = Document::new(alloc);
    document
        .sources
        .insert(FileId::new(FILE), source_file(alloc)?)?;
    let scalar = node(alloc, scalar_type_definition(alloc)?)?;
    document.definitions.push(Definition::from(scalar))?;
    Ok(document)
}

fn check_pushed_struct(
    rt: &impl Abort,
    alloc: Global,
    refused: &mut Refused,
    document: &mut Document,
    before: &Document,
) {
    if let Some(scalar) = refused.made(scalar_type_definition(alloc)) {
        let answer = document.push(alloc, scalar);
        check_last(rt, refused, answer, document, before);
    }
}

/// Into a document that is empty.
fn check_pushed_node(
    rt: &impl Abort,
    alloc: Global,
    refused: &mut Refused,
    document: &mut Document,
) {
    if let Some(scalar) = refused.made(scalar_type_definition(alloc)) {
        if let Some(node) = refused.made(node(alloc, scalar)) {
            let answer = document.push_node(node);
            let empty = Document::new(alloc);
            check_last(rt, refused, answer, document, &empty);
        }
    }
}

fn check_pushed(rt: &impl Abort, alloc: Global, refused: &mut Refused) {
    let (Some(mut document), Some(before)) = (
        refused.made(small_document(alloc)),
        refused.made(small_document(alloc)),
    ) else {
        return;
    };
    check_pushed_struct(rt, alloc, refused, &mut document, &before);
    document.definitions = Vec::new(alloc);
    check_pushed_node(rt, alloc, refused, &mut document);
}

/// A definition was pushed, and is taken out again; or none was.
fn check_last(
    rt: &impl Abort,
    refused: &mut Refused,
    answer: Result<(), AllocError>,
    document: &mut Document,
    before: &Document,
) {
    if refused.made(answer).is_some() {
        let pushed = document.definitions.pop();
        let words = pushed.as_ref().map(|pushed| pushed.kind_name());
        check_equal(rt, words, Some("scalar"));
    }
    check_equal(rt, *document == *before, true);
}

fn check_selections(rt: &impl Abort, alloc: Global, refused: &mut Refused) {
    check_lent(rt, refused, field_selection(alloc), field_selection(alloc));
    check_lent(
        rt,
        refused,
        spread_selection(alloc),
        spread_selection(alloc),
    );
    check_lent(
        rt,
        refused,
        inline_selection(alloc),
        inline_selection(alloc),
    );
}

fn check_names_and_numbers(rt: &impl Abort, alloc: Global, refused: &mut Refused) {
    check_names(rt, alloc, refused);
    check_no_name(rt, alloc, refused);
    check_int(rt, alloc, refused);
    check_float(rt, alloc, refused);
    check_no_number(rt, alloc, refused);
}

pub(crate) fn check_all(rt: &impl Abort, alloc: Global, refused: &mut Refused) {
    check_names_and_numbers(rt, alloc, refused);
    check_nodes(rt, alloc, refused);
    check_description(rt, alloc, refused);
    check_parts(rt, alloc, refused);
    check_source_file(rt, alloc, refused);
    check_selections(rt, alloc, refused);
    check_pushed(rt, alloc, refused);
}

/// Memory is ample, so each call has to be whole.
#[test]
fn calls_are_whole(rt: HostRuntime) {
    let mut refused = Refused::none();
    check_all(&rt, rt.alloc(), &mut refused);
    check_equal(&rt, refused.calls, 0);
}
