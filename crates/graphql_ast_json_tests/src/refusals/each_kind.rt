//! A worked tree of each kind, in a definition in a document, as AST JSON and from it: each call is whole, or the one that was refused memory.
use crate::each_kind::check_documents;
use worked_trees::definitions::VARIANTS;
use worked_trees::refused::Refused;

/// Allocations: 2566.
#[test]
fn definitions(rt: HostRuntime) {
    let mut refused = Refused::none();
    check_documents(&rt, rt.alloc(), &mut refused, 0..10);
    assert!(rt; refused.calls <= 1);
}

/// Allocations: 1477.
#[test]
fn extensions(rt: HostRuntime) {
    let mut refused = Refused::none();
    check_documents(&rt, rt.alloc(), &mut refused, 10..VARIANTS);
    assert!(rt; refused.calls <= 1);
}
