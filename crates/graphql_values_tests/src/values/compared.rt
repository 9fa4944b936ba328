//! Equality and hashes of trees, which leave locations out. Clones keep these.
use super::directive_definition::definition;
use super::value::{list, object};
use crate::checks::check_equal;
use crate::samples::number;
use graphql_base::name;
use graphql_base::node::Node;
use graphql_base::span::{FileId, SourceSpan};
use graphql_checks::trees::check_cloned;
use graphql_values::argument::Argument;
use graphql_values::directive::Directive;
use graphql_values::directive_definition::DirectiveDefinition;
use graphql_values::ty;
use graphql_values::types::{NamedType, Type};
use graphql_values::value::Value;
use std::alloc::{AllocError, Global};
use std::collections::HashSet;
use std::process::Abort;

/// A name that stands in a file.
fn name_in(file: u64) -> NamedType {
    match SourceSpan::new(FileId::new(file), 1, 4) {
        Some(span) => name!(Foo).with_location(span),
        None => name!(Foo),
    }
}

/// `@a(x: 1)` with its argument at a place in a file.
fn placed(alloc: Global, file: u64) -> Result<Directive, AllocError> {
    let mut directive = Directive::new(alloc, name!(a));
    let argument = Argument::new(name!(x), number(alloc, 1)?);
    let node = Node::new_at(alloc, argument, SourceSpan::new(FileId::new(file), 3, 7))?;
    directive.arguments.push(node)?;
    Ok(directive)
}

/// A tree, one that it is equal to, as to a clone, and one that it isn't.
fn check_compared<T: Clone + PartialEq + Drop>(rt: &impl Abort, tree: &T, same: &T, other: &T) {
    check_equal(rt, (*tree == *same, *tree != *other), (true, true));
    check_cloned(tree).expect(rt, "a clone");
}

/// The location of the name is kept.
fn check_type_clone(rt: &impl Abort, ty: &Type) {
    let copy = ty.clone().expect(rt, "memory");
    let location = copy.inner_named_type().location();
    check_equal(rt, location.is_some(), true);
    check_equal(rt, location, name_in(7).location());
}

fn check_types(rt: &impl Abort, alloc: Global) {
    let ty = Type::NonNullNamed(name_in(7)).list(alloc);
    let ty = ty.expect(rt, "memory");
    let same = ty!(in alloc; [Foo!]).expect(rt, "memory");
    let other = ty!(in alloc; [Foo]).expect(rt, "memory");
    check_compared(rt, &ty, &same, &other);
    check_type_clone(rt, &ty);
}

/// The location of the first item is kept.
fn check_list_clone(rt: &impl Abort, list: &Value) {
    let copy = list.clone().expect(rt, "memory");
    let first = copy.as_list().and_then(|items| items.first());
    let location = first.and_then(|node| node.location());
    check_equal(rt, location, SourceSpan::new(FileId::new(7), 3, 4));
}

#[test]
fn types_and_values(rt: HostRuntime) {
    let alloc = rt.alloc();
    check_types(&rt, alloc);
    let value = object(alloc, 1).expect(&rt, "memory");
    let same = object(alloc, 2).expect(&rt, "memory");
    let list = list(alloc, 7).expect(&rt, "memory");
    check_compared(&rt, &value, &same, &list);
    check_list_clone(&rt, &list);
}

/// The location of the first argument is kept.
fn check_directive_clone(rt: &impl Abort, directive: &Directive) {
    let copy = directive.clone().expect(rt, "memory");
    let location = copy.arguments.first().and_then(|node| node.location());
    check_equal(rt, location, SourceSpan::new(FileId::new(7), 3, 7));
}

fn check_directives(rt: &impl Abort, alloc: Global) {
    let here = placed(alloc, 7).expect(rt, "memory");
    let there = placed(alloc, 2).expect(rt, "memory");
    check_compared(rt, &here, &there, &Directive::new(alloc, name!(a)));
    check_directive_clone(rt, &here);
    let mut set = HashSet::new(alloc);
    set.insert(here).expect(rt, "memory");
    check_equal(rt, set.contains(&there), true);
}

fn repeatable(alloc: Global) -> Result<DirectiveDefinition, AllocError> {
    let mut definition = definition(alloc)?;
    definition.repeatable = true;
    Ok(definition)
}

fn check_definitions(rt: &impl Abort, alloc: Global) {
    let tree = definition(alloc).expect(rt, "memory");
    let same = definition(alloc).expect(rt, "memory");
    let other = repeatable(alloc).expect(rt, "memory");
    check_compared(rt, &tree, &same, &other);
    let mut set = HashSet::new(alloc);
    set.insert(tree).expect(rt, "memory");
    check_equal(rt, set.contains(&same), true);
}

#[test]
fn directives_and_definitions(rt: HostRuntime) {
    check_directives(&rt, rt.alloc());
    check_definitions(&rt, rt.alloc());
}
