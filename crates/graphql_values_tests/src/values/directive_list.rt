//! Worked lists of directives.
use crate::checks::{check_case, check_equal};
use crate::samples::{self, with_argument};
use graphql_base::name;
use graphql_base::name::Name;
use graphql_base::node::Node;
use graphql_values::directive::Directive;
use graphql_values::directive_list::DirectiveList;
use std::alloc::{AllocError, Global};
use std::process::Abort;

fn node(alloc: Global, name: Name, number: i32) -> Result<Node<Directive>, AllocError> {
    let bare = Directive::new(alloc, name);
    let directive = with_argument(alloc, bare, name!(x), samples::number(alloc, number)?)?;
    Node::new(alloc, directive)
}

/// `@a(x: 1) @b @a(x: 2)`
fn list(alloc: Global) -> Result<DirectiveList, AllocError> {
    let nodes = vec![in alloc;
        node(alloc, name!(a), 1)?,
        Node::new(alloc, Directive::new(alloc, name!(b)))?,
        node(alloc, name!(a), 2)?,
    ]?;
    Ok(DirectiveList(nodes))
}

fn number(node: &Node<Directive>) -> Option<i32> {
    node.specified_argument_by_name("x")?.to_i32()
}

/// A name, how many directives have it, and the argument of the first.
const NAMES: [(&str, usize, Option<i32>); 4] = [
    ("a", 2, Some(1)),
    ("b", 1, None),
    ("c", 0, None),
    ("A", 0, None),
];

/// A name, a position, and the first position from there on at which a directive has the name.
const POSITIONS: [(&str, usize, Option<usize>); 8] = [
    ("a", 0, Some(0)),
    ("a", 1, Some(2)),
    ("a", 2, Some(2)),
    ("a", 3, None),
    ("a", 4, None),
    ("a", usize::MAX, None),
    ("c", 0, None),
    ("A", 0, None),
];

fn check_name(rt: &impl Abort, list: &DirectiveList, name: &str, count: usize, first: Option<i32>) {
    check_case(rt, name, list.has(name), count > 0);
    check_case(rt, name, list.get(name).is_some(), count > 0);
    check_case(rt, name, list.get(name).and_then(number), first);
    check_case(rt, name, list.get_all(name).count(), count);
}

fn check_names(rt: &impl Abort, list: &DirectiveList) {
    for (name, count, first) in NAMES {
        check_name(rt, list, name, count, first);
    }
}

/// All of one name, and none after them.
fn check_all(rt: &impl Abort, list: &DirectiveList) {
    let mut all = list.get_all("a");
    check_equal(rt, all.next().and_then(number), Some(1));
    check_equal(rt, all.next().and_then(number), Some(2));
    check_equal(rt, all.next().is_none(), true);
    check_equal(rt, all.next().is_none(), true);
}

fn check_position(
    rt: &impl Abort,
    list: &DirectiveList,
    name: &str,
    from: usize,
    position: Option<usize>,
) {
    let found = list.next_position(name, from);
    assert_eq!(rt; found, position, "{name} from {from}");
}

#[test]
fn look_ups(rt: HostRuntime) {
    let list = list(rt.alloc()).expect(&rt, "memory");
    check_names(&rt, &list);
    check_all(&rt, &list);
    for (name, from, position) in POSITIONS {
        check_position(&rt, &list, name, from, position);
    }
    let empty = DirectiveList::new(rt.alloc());
    check_name(&rt, &empty, "a", 0, None);
    check_position(&rt, &empty, "a", 0, None);
}

/// None is handed back where memory is ample.
fn pushed(rt: &impl Abort, alloc: Global, count: i32) -> DirectiveList {
    let mut list = DirectiveList::new(alloc);
    assert!(rt; list.is_empty());
    for argument in 1..count.saturating_add(1) {
        let node = node(alloc, name!(a), argument).expect(rt, "memory");
        assert!(rt; list.push(node).is_ok(), "{argument}");
    }
    list
}

fn check_pushed(rt: &impl Abort, alloc: Global) {
    let pushed = pushed(rt, alloc, 100);
    check_equal(rt, pushed.len(), 100);
    check_equal(rt, pushed.get("a").and_then(number), Some(1));
    check_equal(rt, pushed.last().and_then(number), Some(100));
}

/// A list that is changed as a vector is.
fn check_changed(rt: &impl Abort, mut list: DirectiveList) {
    check_equal(rt, list.pop().as_ref().and_then(number), Some(2));
    check_equal(rt, list.len(), 2);
    list.reverse();
    let first = list.first().map(|node| node.name.as_str());
    check_equal(rt, first, Some("b"));
}

fn check_collected(rt: &impl Abort, alloc: Global) {
    let nodes = list(alloc).expect(rt, "memory").into_iter();
    let collected = DirectiveList::collect_from(alloc, nodes).expect(rt, "memory");
    let wanted = list(alloc).expect(rt, "memory");
    check_equal(rt, collected == wanted, true);
    check_changed(rt, collected);
}

/// The arguments of directives that are lent.
fn lent(rt: &impl Abort, alloc: Global, list: &DirectiveList) -> Vec<Option<i32>> {
    let mut numbers = Vec::new(alloc);
    for node in list {
        numbers.push(number(node)).expect(rt, "memory");
    }
    numbers
}

/// The arguments of directives that are taken.
fn taken(rt: &impl Abort, alloc: Global, list: DirectiveList) -> Vec<Option<i32>> {
    let mut numbers = Vec::new(alloc);
    for node in list {
        numbers.push(number(&node)).expect(rt, "memory");
    }
    numbers
}

/// The list, with the name `c` of each directive.
fn renamed(rt: &impl Abort, mut list: DirectiveList) -> DirectiveList {
    for node in &mut list {
        node.make_mut().expect(rt, "memory").name = name!(c);
    }
    list
}

fn check_numbers(rt: &impl Abort, numbers: &[Option<i32>]) {
    check_equal(rt, numbers, [Some(1), None, Some(2)].as_slice());
}

fn check_gone_over(rt: &impl Abort, alloc: Global) {
    let list = list(alloc).expect(rt, "memory");
    check_numbers(rt, lent(rt, alloc, &list).as_slice());
    check_equal(rt, list.iter().count(), 3);
    let renamed = renamed(rt, list);
    check_equal(rt, renamed.get_all("c").count(), 3);
    check_numbers(rt, taken(rt, alloc, renamed).as_slice());
}

#[test]
fn nodes_are_pushed_collected_and_gone_over(rt: HostRuntime) {
    check_pushed(&rt, rt.alloc());
    check_collected(&rt, rt.alloc());
    check_gone_over(&rt, rt.alloc());
}
