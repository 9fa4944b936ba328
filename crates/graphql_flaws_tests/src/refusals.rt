//! What is found, or refused.
use crate::checks::check_equal;
use crate::notation::json_of;
use graphql_ast::ast::Document;
use graphql_ast::ill_formed::SideCondition;
use graphql_ast::span::FileId;
use graphql_ast_json::from_ast_json_str;
use graphql_flaws::{FindFlaws, FoundFlaw};
use std::process::Abort;

const ROW: &str =
    "(Document;'definitions':[(ScalarTypeExtension;'name':<A>),(ScalarTypeDefinition;'name':<B>,@)])";

/// The condition of each flaw, and the steps to it.
const FLAWS: [(SideCondition, usize); 3] = [
    (SideCondition::AddsSomething, 2),
    (SideCondition::IsNotReserved, 10),
    (SideCondition::IsConstant, 12),
];

fn check_found(rt: &impl Abort, flaws: &[FoundFlaw<'_>]) {
    check_equal(rt, flaws.len(), FLAWS.len());
    for (flaw, (condition, steps)) in flaws.iter().zip(FLAWS) {
        check_equal(rt, flaw.found.condition, condition);
        check_equal(rt, flaw.path.steps.len(), steps);
    }
}

/// Either all flaws are found, or memory was refused.
/// Allocations: 66.
#[test]
fn flaws_are_found_or_memory_is_refused(rt: HostRuntime) {
    let alloc = rt.alloc();
    if let Ok(json) = json_of(alloc, ROW) {
        if let Ok(document) = from_ast_json_str::<Document>(alloc, json.as_str(), FileId::new(1)) {
            if let Ok(flaws) = document.flaws(alloc) {
                check_found(&rt, &flaws);
            }
        }
    }
}
