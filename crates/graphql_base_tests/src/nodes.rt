//! Worked nodes.
use crate::checks::{check_equal, check_made, check_text};
use graphql_base::name;
use graphql_base::node::{Node, NodeStr};
use graphql_base::span::{FileId, SourceSpan};
use std::alloc::{AllocError, Global};
use std::collections::HashSet;
use std::process::Abort;

fn span_in(rt: &impl Abort, file: u64) -> SourceSpan {
    SourceSpan::new(FileId::new(file), 10, 13).expect(rt, "in order")
}

fn text_at(alloc: Global, text: &str, location: Option<SourceSpan>) -> Result<NodeStr, AllocError> {
    match location {
        Some(span) => NodeStr::new_str_parsed(alloc, text, span),
        None => NodeStr::new_str(alloc, text),
    }
}

fn check_number(rt: &impl Abort, node: &Node<u8>, value: u8, location: Option<SourceSpan>) {
    check_equal(
        rt,
        (**node, *node.as_ref(), node.location()),
        (value, value, location),
    );
}

fn check_shared(rt: &impl Abort, node: &NodeStr, text: &str, location: Option<SourceSpan>) {
    check_equal(rt, (node.as_str(), node.location()), (text, location));
}

/// What a node has, a clone has too; a node beside it has its location, of whichever type that one's value is.
fn check_node(rt: &impl Abort, alloc: Global, value: u8, location: Option<SourceSpan>) {
    let node = Node::new_at(alloc, value, location).expect(rt, "memory");
    check_number(rt, &node, value, location);
    let copy = node.clone().expect(rt, "memory");
    check_number(rt, &copy, value, location);
    let beside = node.same_location(alloc, 4u8).expect(rt, "memory");
    check_number(rt, &beside, 4, location);
    let beside = node.same_location(alloc, "text").expect(rt, "memory");
    check_text(rt, *beside, "text");
    check_equal(rt, beside.location(), location);
}

/// The same of a text.
fn check_text_node(rt: &impl Abort, alloc: Global, location: Option<SourceSpan>) {
    let text = text_at(alloc, "été", location).expect(rt, "memory");
    check_shared(rt, &text, "été", location);
    check_made(rt, text.to_text(alloc), "été");
    let copy = text.clone().expect(rt, "memory");
    check_shared(rt, &copy, "été", location);
    let beside = text.same_location(alloc, 1u8).expect(rt, "memory");
    check_number(rt, &beside, 1, location);
}

fn check_built_in(rt: &impl Abort, alloc: Global, location: Option<SourceSpan>, wanted: bool) {
    let node = Node::new_at(alloc, 1u8, location).expect(rt, "memory");
    let text = text_at(alloc, "a", location).expect(rt, "memory");
    check_equal(
        rt,
        (node.is_built_in(), text.is_built_in()),
        (wanted, wanted),
    );
}

/// What is built in is told by the file.
#[test]
fn nodes_and_texts_have_a_value_and_a_location(rt: HostRuntime) {
    let alloc = rt.alloc();
    let built_in = SourceSpan::new(FileId::BUILT_IN, 0, 1);
    for (value, location, is_built_in) in [
        (1, None, false),
        (2, Some(span_in(&rt, 5)), false),
        (1, built_in, true),
    ] {
        check_node(&rt, alloc, value, location);
        check_text_node(&rt, alloc, location);
        check_built_in(&rt, alloc, location, is_built_in);
    }
}

fn placed_text(alloc: Global, span: SourceSpan) -> Result<Node<String>, AllocError> {
    let text = String::from_str(alloc, "old")?;
    Node::new_parsed(alloc, text, span)
}

fn add(node: &mut Node<String>, text: &str) -> Result<(), AllocError> {
    node.make_mut()?.push_str(text)
}

fn check_placed(rt: &impl Abort, node: &Node<String>, text: &str, span: SourceSpan) {
    check_equal(rt, (node.as_str(), node.location()), (text, Some(span)));
}

/// A number whose clone is refused.
#[derive(Drop)]
struct Unclonable(u8);

impl Clone for Unclonable {
    fn clone(&self) -> Result<Unclonable, AllocError> {
        Err(AllocError)
    }
}

fn check_unclonable(rt: &impl Abort, node: &Node<Unclonable>, span: SourceSpan) {
    check_equal(rt, (node.0, node.location()), (1, Some(span)));
}

fn check_older(rt: &impl Abort, alloc: Global, span: SourceSpan) {
    let first = placed_text(alloc, span).expect(rt, "memory");
    let mut second = first.clone().expect(rt, "memory");
    for (more, wanted) in [("er", "older"), ("!", "older!")] {
        add(&mut second, more).expect(rt, "memory");
        check_placed(rt, &first, "old", span);
        check_placed(rt, &second, wanted, span);
    }
}

fn check_unchanged(rt: &impl Abort, alloc: Global, span: SourceSpan) {
    let first = Node::new_parsed(alloc, Unclonable(1), span).expect(rt, "memory");
    let mut second = first.clone().expect(rt, "memory");
    assert!(rt; second.make_mut().is_err());
    check_unclonable(rt, &first, span);
    check_unclonable(rt, &second, span);
}

fn check_lent(rt: &impl Abort, alloc: Global, span: SourceSpan) {
    let mut node = Node::new_parsed(alloc, 1u8, span).expect(rt, "memory");
    let value = node.get_mut().expect(rt, "no other node has it");
    check_equal(rt, *value, 1);
    *value = 2;
    check_number(rt, &node, 2, Some(span));
}

/// In none where the clone of a shared value is refused. A new node lends its value.
#[test]
fn a_change_is_seen_in_one_node(rt: HostRuntime) {
    let span = span_in(&rt, 5);
    check_older(&rt, rt.alloc(), span);
    check_unchanged(&rt, rt.alloc(), span);
    check_lent(&rt, rt.alloc(), span);
}

fn check_nodes_compared(rt: &impl Abort, alloc: Global) {
    let here = Node::new_parsed(alloc, name!(a), span_in(rt, 5)).expect(rt, "memory");
    let there = Node::new_parsed(alloc, name!(a), span_in(rt, 6)).expect(rt, "memory");
    let other = here.same_location(alloc, name!(b)).expect(rt, "memory");
    check_equal(rt, (here == there, here == other), (true, false));
    let mut nodes = HashSet::new(alloc);
    nodes.insert(here).expect(rt, "memory");
    let found = (nodes.contains(&there), nodes.contains(&other));
    check_equal(rt, found, (true, false));
}

fn check_texts_compared(rt: &impl Abort, alloc: Global) {
    let here = text_at(alloc, "a", Some(span_in(rt, 5))).expect(rt, "memory");
    let there = text_at(alloc, "a", None).expect(rt, "memory");
    let other = text_at(alloc, "", None).expect(rt, "memory");
    check_equal(rt, (here == there, here == other), (true, false));
    let mut texts = HashSet::new(alloc);
    texts.insert(here).expect(rt, "memory");
    let found = (texts.contains(&there), texts.contains(&other));
    check_equal(rt, found, (true, false));
}

/// And not by their locations. So they are found as keys.
fn check_printed(rt: &impl Abort, alloc: Global) {
    let number = Node::new(alloc, 7u8).expect(rt, "memory");
    let name = Node::new(alloc, name!(abc)).expect(rt, "memory");
    let text = NodeStr::new_str(alloc, "été").expect(rt, "memory");
    check_made(rt, format!(in alloc; "{number}"), "7");
    check_made(rt, format!(in alloc; "[{number:03}]"), "[007]");
    check_made(rt, format!(in alloc; "[{name:>5}]"), "[  abc]");
    check_made(rt, format!(in alloc; "{text}"), "été");
    check_made(rt, format!(in alloc; "[{text:>5}]"), "[  été]");
    check_made(rt, format!(in alloc; "[{text:.1}]"), "[é]");
}

#[test]
fn nodes_and_texts_compare_and_print_by_their_values(rt: HostRuntime) {
    check_nodes_compared(&rt, rt.alloc());
    check_texts_compared(&rt, rt.alloc());
    check_printed(&rt, rt.alloc());
}
