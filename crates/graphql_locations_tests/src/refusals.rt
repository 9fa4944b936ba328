//! What is made, or refused: the old document is as it was either way.
use crate::each_kind::check_definitions;
use graphql_locations::strip_locations;
use worked_trees::definitions::document;
use worked_trees::refused::Refused;

/// Allocations: 686.
#[test]
fn locations_are_taken_out_or_memory_is_refused(rt: HostRuntime) {
    let alloc = rt.alloc();
    if let Ok(document) = document(alloc) {
        if let Ok(copy) = document.clone() {
            if let Ok(made) = strip_locations(alloc, &document) {
                assert!(rt; made == copy && made.sources.is_empty());
            }
            assert!(rt; document == copy);
        }
    }
}

/// Allocations: 668.
#[test]
fn definitions_lose_their_locations_or_memory_is_refused(rt: HostRuntime) {
    let mut refused = Refused::none();
    check_definitions(&rt, rt.alloc(), &mut refused);
    assert!(rt; refused.calls <= 1);
}
