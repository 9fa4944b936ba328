//! The fragments that are reached.
use crate::samples::document;
use graphql_ast::Name;
use graphql_ast::ast::Definition;
use graphql_operations::{fragment_spreads, fragments_reached};
use std::process::Abort;

pub(crate) fn check_names(rt: &impl Abort, found: &[Definition], wanted: &[&str]) {
    assert_eq!(rt; found.len(), wanted.len());
    for index in 0..found.len() {
        assert_eq!(rt; found[index].name().map(Name::as_str), Some(wanted[index]));
    }
}

pub(crate) fn check_spreads(rt: &impl Abort, names: &[Name]) {
    let wanted = ["A", "A", "C", "B", "Itself", "Lost", "Nowhere"];
    assert_eq!(rt; names.len(), wanted.len());
    for (name, wanted) in names.iter().zip(wanted) {
        assert_eq!(rt; name.as_str(), wanted);
    }
}

#[test]
fn fragments_are_reached_in_the_order_of_the_document(rt: HostRuntime) {
    let alloc = rt.alloc();
    let document = document(alloc).expect(&rt, "memory");
    let ring = document.definitions.get(1).expect(&rt, "a query");
    let found = fragments_reached(alloc, &document, ring).expect(&rt, "memory");
    check_names(&rt, &found, &["C", "B", "A"]);
    let itself = document.definitions.get(5).expect(&rt, "a fragment");
    let found = fragments_reached(alloc, &document, itself).expect(&rt, "memory");
    check_names(&rt, &found, &["Itself"]);
    let scalar = document.definitions.get(4).expect(&rt, "a type");
    let found = fragments_reached(alloc, &document, scalar).expect(&rt, "memory");
    check_names(&rt, &found, &[]);
}

#[test]
fn spreads_are_told_as_often_as_they_stand(rt: HostRuntime) {
    let alloc = rt.alloc();
    let document = document(alloc).expect(&rt, "memory");
    let names = fragment_spreads(alloc, &document).expect(&rt, "memory");
    check_spreads(&rt, &names);
}
