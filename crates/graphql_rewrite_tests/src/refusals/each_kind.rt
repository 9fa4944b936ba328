//! A worked tree of each kind, in a definition, is rebuilt: each call is whole, or the one that was refused memory.
use crate::each_kind::{check_definitions, check_documents, check_nodes};
use worked_trees::refused::Refused;

/// Allocations: 1625.
#[test]
fn definitions_nodes_and_documents(rt: HostRuntime) {
    let mut refused = Refused::none();
    check_definitions(&rt, rt.alloc(), &mut refused);
    check_nodes(&rt, rt.alloc(), &mut refused);
    check_documents(&rt, rt.alloc(), &mut refused);
    assert!(rt; refused.calls <= 1);
}
