//! What reaches a sink, and in how many calls.
use crate::checks::{Counting, check_case};
use crate::samples::number;
use graphql_base::name::Name;
use graphql_base::node::Node;
use graphql_text::engine::Syntax;
use graphql_values::value::Value;
use std::alloc::{AllocError, Global};
use std::process::Abort;

/// A list that has one item so many times.
fn repeated(alloc: Global, item: &Node<Value>, count: usize) -> Result<Value, AllocError> {
    let mut items = Vec::new(alloc);
    for _ in 0..count {
        items.push(item.clone()?)?;
    }
    Ok(Value::List(items))
}

/// Prints on one line into so much room.
fn counted(tree: &Value, room: usize) -> Counting {
    let mut sink = Counting::with_room(room);
    let printed = tree.serialize().no_indent().print_to(&mut sink);
    if printed.is_ok() != (sink.faults == 0) {
        sink.wrong_calls = sink.wrong_calls.saturating_add(1);
    }
    sink
}

/// What a sink counted: the calls of `put`, the room that is left, and the faults.
type Counts = (usize, usize, u64);

fn check_counted(rt: &impl Abort, tree: &Value, room: usize, counts: Counts) {
    let sink = counted(tree, room);
    check_case(rt, &room, (sink.calls, sink.room, sink.faults), counts);
    check_case(rt, &room, sink.wrong_calls, 0);
}

/// How many ints or names in place, each of one byte, a list has, and the room.
const SMALL: [(usize, usize, Counts); 7] = [
    (1, 9, (1, 6, 0)),
    (1, 3, (1, 0, 0)),
    (1, 2, (1, 2, 1)),
    (341, 2000, (1, 977, 0)),
    (342, 2000, (2, 974, 0)),
    (342, 1000, (1, 1000, 1)),
    (1000, 3000, (3, 0, 0)),
];

/// An enum value of so many letters.
fn long_name(rt: &impl Abort, alloc: Global, length: usize) -> Node<Value> {
    let text = "x".repeat(alloc, length).expect(rt, "memory");
    let name = Name::new(alloc, text.as_str()).expect(rt, "a name");
    Node::new(alloc, Value::Enum(name)).expect(rt, "memory")
}

/// An enum value of one letter, whose name stands in place.
fn name_in_place(rt: &impl Abort, alloc: Global) -> Node<Value> {
    let name = Name::compact(alloc, "x").expect(rt, "a name");
    Node::new(alloc, Value::Enum(name)).expect(rt, "memory")
}

/// How many letters the items of a list of two have, and the room.
const LONG: [(usize, usize, Counts); 3] = [
    (1025, 3000, (5, 946, 0)),
    (1025, 1000, (2, 999, 1)),
    (500, 1004, (1, 0, 0)),
];

/// An item that a list has so many times.
fn check_repeated(
    rt: &impl Abort,
    alloc: Global,
    item: &Node<Value>,
    count: usize,
    room: usize,
    counts: Counts,
) {
    let list = repeated(alloc, item, count).expect(rt, "memory");
    check_counted(rt, &list, room, counts);
}

fn check_small(rt: &impl Abort, alloc: Global) {
    let number = number(alloc, 1).expect(rt, "memory");
    let name = name_in_place(rt, alloc);
    for (count, room, counts) in SMALL {
        check_repeated(rt, alloc, &number, count, room, counts);
        check_repeated(rt, alloc, &name, count, room, counts);
    }
}

fn check_long(rt: &impl Abort, alloc: Global) {
    for (length, room, counts) in LONG {
        let item = long_name(rt, alloc, length);
        check_repeated(rt, alloc, &item, 2, room, counts);
    }
}

/// Small pieces are gathered, and long ones aren't copied.
#[test]
fn pieces_of_each_length(rt: HostRuntime) {
    check_small(&rt, rt.alloc());
    check_long(&rt, rt.alloc());
}
