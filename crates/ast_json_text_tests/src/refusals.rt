//! Each growth refused in turn: the text is whole, or memory was refused.
use crate::each_kind::{check_documents, check_parts, check_selections, check_written};
use worked_trees::refused::Refused;

/// Allocations: 2418.
#[test]
fn texts_are_whole_or_memory_was_refused(rt: HostRuntime) {
    let mut refused = Refused::none();
    check_written(&rt, rt.alloc(), &mut refused);
    check_parts(&rt, rt.alloc(), &mut refused);
    check_selections(&rt, rt.alloc(), &mut refused);
    check_documents(&rt, rt.alloc(), &mut refused, 0..2);
    assert!(rt; refused.calls <= 1);
}
