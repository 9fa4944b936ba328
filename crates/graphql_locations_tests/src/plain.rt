//! What is made.
use crate::checks::check_equal;
use graphql_ast::ast::{Document, Value};
use graphql_ast::node::NodeStr;
use graphql_ast::span::{FileId, SourceSpan};
use graphql_ast::{Name, name, value};
use graphql_ast_json::AstJson;
use graphql_locations::{Located, strip_locations};
use std::alloc::{AllocError, Global};
use std::process::Abort;
use worked_trees::definitions::document;
use worked_trees::parts::{FILE, located, node};

/// How many of its nodes, names and descriptions have a location, as its AST JSON tells.
fn located_parts<T: AstJson>(rt: &impl Abort, alloc: Global, tree: &T) -> usize {
    let json = tree.to_ast_json(alloc).expect(rt, "memory");
    let text = json.to_string(alloc).expect(rt, "memory");
    text.as_str().matches("\"loc\":").count()
}

/// Those of the document of all definitions, counted by hand: 198 in the definitions, and 115 in the extensions.
const OF_DOCUMENT: usize = 313;

/// `[$v, {z: E}, "s"]`, of which each part has a location.
fn list(alloc: Global) -> Result<Value, AllocError> {
    let member = (
        located(name!(z)),
        node(alloc, Value::Enum(located(name!(E))))?,
    );
    let items = vec![in alloc;
        node(alloc, Value::Variable(located(name!(v))))?,
        node(alloc, Value::Object(vec![in alloc; member]?))?,
        node(alloc, value!(in alloc; "s")?)?,
    ]?;
    Ok(Value::List(items))
}

/// Of the list AST JSON has no location for the name that an enum value is: four nodes and two names have one.
const OF_LIST: usize = 6;

/// What was made is the tree that has so many locations, without them. The tree keeps its own.
fn check_made<T: AstJson + PartialEq>(
    rt: &impl Abort,
    alloc: Global,
    tree: &T,
    made: &T,
    count: usize,
) {
    check_equal(rt, located_parts(rt, alloc, made), 0);
    check_equal(rt, *made == *tree, true);
    check_equal(rt, located_parts(rt, alloc, tree), count);
}

fn check_document(rt: &impl Abort, alloc: Global) {
    let document = document(alloc).expect(rt, "memory");
    let copy = document.clone().expect(rt, "memory");
    check_equal(rt, located_parts(rt, alloc, &document), OF_DOCUMENT);
    let made = strip_locations(alloc, &document).expect(rt, "memory");
    check_made(rt, alloc, &document, &made, OF_DOCUMENT);
    check_equal(rt, document == copy, true);
    check_sources(rt, &document, &made);
}

/// The document keeps its source, and what was made has none.
fn check_sources(rt: &impl Abort, document: &Document, made: &Document) {
    check_equal(rt, made.sources.is_empty(), true);
    let source = document.sources.get(&FileId::new(FILE));
    check_equal(rt, source.is_some(), true);
}

fn check_list(rt: &impl Abort, alloc: Global) {
    let list = list(alloc).expect(rt, "memory");
    check_equal(rt, located_parts(rt, alloc, &list), OF_LIST);
    let made = list.without_locations(alloc).expect(rt, "memory");
    check_made(rt, alloc, &list, &made, OF_LIST);
}

fn check_empty(rt: &impl Abort, alloc: Global) {
    let made = strip_locations(alloc, &Document::new(alloc)).expect(rt, "memory");
    check_equal(rt, made.definitions.is_empty(), true);
    check_equal(rt, made.sources.is_empty(), true);
}

/// Of the document of all definitions, of values in values, and of an empty document, which stays empty.
#[test]
fn nothing_has_a_location_and_all_else_stays(rt: HostRuntime) {
    check_document(&rt, rt.alloc());
    check_list(&rt, rt.alloc());
    check_empty(&rt, rt.alloc());
}

/// Both names are kept in the same way.
fn check_form(rt: &impl Abort, made: &Name, name: &Name) {
    let is_static = name.as_static_str().is_some();
    check_equal(rt, made.as_static_str().is_some(), is_static);
    let is_in_place = name.short_text().is_some();
    check_equal(rt, made.short_text().is_some(), is_in_place);
}

fn check_name(rt: &impl Abort, alloc: Global, name: Name) {
    let text = name.as_str();
    check_equal(rt, name.location().is_some(), true);
    let made = name.without_locations(alloc).expect(rt, "memory");
    check_equal(rt, (made.as_str(), made.location()), (text, None));
    check_form(rt, &made, &name);
}

fn check_names(rt: &impl Abort, alloc: Global) {
    check_name(rt, alloc, located(name!(abc)));
    let shared = Name::new(alloc, "abc").expect(rt, "a name");
    check_name(rt, alloc, located(shared));
    let in_place = Name::compact(alloc, "abc").expect(rt, "a name");
    check_name(rt, alloc, located(in_place));
}

fn check_enum_value(rt: &impl Abort, alloc: Global) {
    let value = Value::Enum(located(name!(E)));
    let made = value.without_locations(alloc).expect(rt, "memory");
    match &made {
        Value::Enum(name) => check_equal(rt, name.location(), None),
        _ => assert!(rt; false, "another value"),
    }
}

fn check_text(rt: &impl Abort, alloc: Global) {
    let span = SourceSpan::new(FileId::new(5), 0, 3).expect(rt, "a span");
    let text = NodeStr::new_str_parsed(alloc, "été", span).expect(rt, "memory");
    let made = text.without_locations(alloc).expect(rt, "memory");
    check_equal(rt, (made.as_str(), made.location()), ("été", None));
}

#[test]
fn texts_keep_their_forms(rt: HostRuntime) {
    check_names(&rt, rt.alloc());
    check_enum_value(&rt, rt.alloc());
    check_text(&rt, rt.alloc());
}
