//! Worked stacks.

use crate::checks::{check_case, check_equal};
use graphql_text::writers::Stack;
use std::alloc::Global;
use std::process::Abort;

/// What an entry takes: 64 KiB.
#[derive(Clone, Copy, Drop)]
struct Large {
    bytes: [u8; 1 << 16],
}

fn check_rooms(rt: &impl Abort, alloc: Global) {
    for room in [2, 5_000] {
        let mut stack = Stack::reserve(Some(alloc), room).expect(rt, "memory");
        stack.push('a');
        stack.push('b');
        check_case(rt, &room, stack.pop(), Some('b'));
        stack.push('c');
        check_case(rt, &room, stack.pop(), Some('c'));
        check_case(rt, &room, stack.pop(), Some('a'));
        check_case(rt, &room, stack.pop(), None);
    }
}

/// A stack many times as large as 1 GiB would be refused, on a machine without such memory.
fn check_large(rt: &impl Abort, alloc: Global) {
    let mut stack: Stack<Large> = Stack::reserve(Some(alloc), 1 << 14).expect(rt, "memory");
    let first = stack.pop().and_then(|large| large.bytes.first().copied());
    check_equal(rt, first, None);
}

/// The last entry comes back first, and none where there is no room, which takes no memory. There is no more room than is asked
/// for: of 1 GiB no byte is touched.
#[test]
fn stacks_have_the_room_that_is_asked_for(rt: HostRuntime) {
    check_rooms(&rt, rt.alloc());
    let mut stack = Stack::reserve(Some(rt.alloc()), 1).expect(&rt, "memory");
    stack.push('a');
    stack.clear();
    check_case(&rt, "cleared", stack.pop(), None);
    let mut stack: Stack<char> = Stack::reserve(None, 0).expect(&rt, "memory");
    check_case(&rt, "no room", stack.pop(), None);
    check_large(&rt, rt.alloc());
}
