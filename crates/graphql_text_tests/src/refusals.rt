//! Calls that meet a refused growth: the answer is the refusal, or that of an undisturbed call.
//! `rt try --test --fail-alloc N` refuses the Nth growth of each test.

use crate::checks::check_equal;
use crate::samples::nested;
use graphql_text::engine::{PrintError, Syntax};
use graphql_text::sink::{TextSink, VecSink};
use graphql_text::writers::Stack;
use std::process::Abort;

/// Allocations: 2.
#[test]
fn vectors_and_stacks_have_room_or_are_refused(rt: HostRuntime) {
    let mut sink = VecSink::new(rt.alloc());
    let wanted = match sink.put(b"[1, 2]") {
        Ok(count) => count,
        Err(_) => 0,
    };
    let faults = sink.faults();
    check_equal(&rt, faults, u64::from(wanted == 0));
    check_equal(&rt, sink.bytes(), &b"[1, 2]"[..wanted.min(6)]);
    assert!(rt; wanted == 0 || wanted == 6);
    if let Ok(mut stack) = Stack::reserve(Some(rt.alloc()), 2) {
        stack.push('a');
        stack.push('b');
        check_equal(&rt, stack.pop(), Some('b'));
    }
}

/// The sink grows several times for so many bytes.
fn check_vector(rt: &impl Abort, printed: Result<(), PrintError>, sink: &VecSink, wanted: &[u8]) {
    let bytes = sink.bytes();
    check_equal(
        rt,
        sink.faults(),
        u64::from(printed == Err(PrintError::Sink)),
    );
    match printed {
        Ok(()) => assert!(rt; bytes == wanted),
        Err(PrintError::Memory) => assert!(rt; bytes.is_empty()),
        Err(PrintError::Sink) => assert!(rt;
            bytes.len() < wanted.len() && wanted.starts_with(bytes)
        ),
        Err(PrintError::LevelOverflow) => assert!(rt; false, "level 400"),
    }
}

/// Allocations: 12.
#[test]
fn a_vector_takes_a_beginning_or_all(rt: HostRuntime) {
    let Ok(value) = nested(rt.alloc()) else {
        return;
    };
    let print = value.serialize().initial_indent_level(400);
    let Ok(wanted) = print.to_text(rt.alloc()) else {
        return;
    };
    let mut sink = VecSink::new(rt.alloc());
    let printed = print.print_to(&mut sink);
    check_vector(&rt, printed, &sink, wanted.as_bytes());
}
