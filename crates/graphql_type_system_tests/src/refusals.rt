//! What is made, copied and printed, or refused.
use crate::samples::object;
use graphql_checks::refused::{check_cloned_or_refused, check_text_or_refused};

/// Allocations: 20.
#[test]
fn a_type_is_copied_and_printed_or_refused(rt: HostRuntime) {
    if let Ok(object) = object(rt.alloc()) {
        check_cloned_or_refused(&object).expect(&rt, "a clone");
        let wanted = "type T implements A & B @d { \"F\" f(x: Int = 1): [String!]! @e }";
        check_text_or_refused(rt.alloc(), &object, wanted).expect(&rt, wanted);
    }
}
