//! The variables of nodes.
use crate::samples::document;
use graphql_ast::Name;
use graphql_visit::used_variables;
use std::process::Abort;

pub(crate) fn check_names(rt: &impl Abort, names: &[Name], wanted: &[&str]) {
    assert_eq!(rt; names.len(), wanted.len());
    for index in 0..names.len() {
        assert_eq!(rt; names[index].as_str(), wanted[index]);
    }
}

#[test]
fn variables_are_told_in_order_as_often_as_they_are_used(rt: HostRuntime) {
    let alloc = rt.alloc();
    let document = document(alloc).expect(&rt, "memory");
    let names = used_variables(alloc, &document).expect(&rt, "memory");
    check_names(&rt, &names, &["w", "v", "v", "w"]);
    let scalar = document.definitions.get(1).expect(&rt, "a scalar type");
    let none = used_variables(alloc, scalar).expect(&rt, "memory");
    check_names(&rt, &none, &[]);
}
