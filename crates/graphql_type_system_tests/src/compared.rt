//! How trees that differ in locations compare and hash.
use crate::checks::check_equal;
use crate::samples::{field, object};
use graphql_base::name;
use graphql_base::node::Node;
use graphql_base::span::{FileId, SourceSpan};
use graphql_type_system::field_definition::FieldDefinition;
use graphql_type_system::object_type::ObjectTypeDefinition;
use graphql_values::directive::Directive;
use graphql_values::directive_list::DirectiveList;
use std::alloc::Global;
use std::collections::HashSet;
use std::process::Abort;

/// A field at a location.
fn placed_fields(rt: &impl Abort, alloc: Global) -> Vec<Node<FieldDefinition>> {
    let span = SourceSpan::new(FileId::new(7), 3, 4).expect(rt, "in order");
    let field = field(alloc).expect(rt, "memory");
    let node = Node::new_parsed(alloc, field, span).expect(rt, "memory");
    check_equal(rt, node.location().is_some(), true);
    vec![in alloc; node].expect(rt, "memory")
}

/// One type is found where the other is a key, unless it has other directives.
fn check_found(
    rt: &impl Abort,
    alloc: Global,
    one: ObjectTypeDefinition,
    mut other: ObjectTypeDefinition,
) {
    let mut seen = HashSet::new(alloc);
    check_equal(rt, seen.insert(one).is_ok(), true);
    check_equal(rt, seen.contains(&other), true);
    let directives = DirectiveList::of(alloc, Directive::new(alloc, name!(e)));
    other.directives = directives.expect(rt, "memory");
    check_equal(rt, seen.contains(&other), false);
}

#[test]
fn locations_are_not_compared(rt: HostRuntime) {
    let alloc = rt.alloc();
    let one = object(alloc).expect(&rt, "memory");
    let mut other = one.clone().expect(&rt, "memory");
    other.fields = placed_fields(&rt, alloc);
    check_equal(&rt, one == other, true);
    check_found(&rt, alloc, one, other);
}
