//! What is told of a tree, or refused.
use crate::samples::document;
use crate::variables::check_names;
use graphql_visit::used_variables;

/// Allocations: 32.
#[test]
fn variables_are_told_or_memory_is_refused(rt: HostRuntime) {
    let alloc = rt.alloc();
    if let Ok(document) = document(alloc) {
        if let Ok(names) = used_variables(alloc, &document) {
            check_names(&rt, &names, &["w", "v", "v", "w"]);
        }
    }
}
