//! Calls over a worked tree of each kind: each is whole, or the one that was refused memory.
use crate::each_kind::{Calls, check_document};
use crate::kinds;

/// Allocations: 132.
#[test]
fn values_and_directives(rt: HostRuntime) {
    let mut calls = Calls::new(&rt, rt.alloc());
    kinds::values(rt.alloc(), &mut calls);
    assert!(&rt; calls.refused.calls <= 1);
}

/// Allocations: 319.
#[test]
fn operations_and_fragments(rt: HostRuntime) {
    let mut calls = Calls::new(&rt, rt.alloc());
    kinds::executable(rt.alloc(), &mut calls);
    assert!(&rt; calls.refused.calls <= 1);
}

/// Allocations: 296.
#[test]
fn types(rt: HostRuntime) {
    let mut calls = Calls::new(&rt, rt.alloc());
    kinds::types(rt.alloc(), &mut calls);
    assert!(&rt; calls.refused.calls <= 1);
}

/// Allocations: 220.
#[test]
fn type_extensions(rt: HostRuntime) {
    let mut calls = Calls::new(&rt, rt.alloc());
    kinds::type_extensions(rt.alloc(), &mut calls);
    assert!(&rt; calls.refused.calls <= 1);
}

/// Of each variant of a definition, and of a document.
/// Allocations: 963.
#[test]
fn definitions_and_documents(rt: HostRuntime) {
    let mut calls = Calls::new(&rt, rt.alloc());
    kinds::definitions(rt.alloc(), &mut calls);
    check_document(&rt, rt.alloc(), &mut calls.refused);
    assert!(&rt; calls.refused.calls <= 1);
}
