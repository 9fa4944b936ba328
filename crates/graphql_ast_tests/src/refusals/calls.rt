//! Calls that make, copy and lend: each is whole, or the one that was refused memory.
use crate::calls::check_all;
use worked_trees::refused::Refused;

/// Allocations: 216.
#[test]
fn names_nodes_and_parts(rt: HostRuntime) {
    let mut refused = Refused::none();
    check_all(&rt, rt.alloc(), &mut refused);
    assert!(rt; refused.calls <= 1);
}
