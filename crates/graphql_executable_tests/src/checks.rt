//! What the examples compare.
use graphql_checks::trees::{check_cloned, check_line};
use graphql_text::engine::Syntax;
use std::alloc::{AllocError, Global};
use std::fmt::{Debug, Display};
use std::process::Abort;

/// That these are equal. A call, since a comparison written out is dear where many follow: the proof of a test goes over all of them.
pub(crate) fn check_equal<T: PartialEq + Debug + Drop>(rt: &impl Abort, found: T, wanted: T) {
    assert_eq!(rt; found, wanted);
}

/// The same of one of several cases, which is told where they differ.
pub(crate) fn check_case<T: PartialEq + Debug + Drop>(
    rt: &impl Abort,
    case: impl Display + Drop,
    found: T,
    wanted: T,
) {
    assert_eq!(rt; found, wanted, "{case}");
}

/// Trees of a kind, the text of each on one line, and whether it is well formed.
pub(crate) type Trees<T> = Result<Vec<(T, &'static str, bool)>, AllocError>;

/// Each tree of a table, and that its clone is equal: memory is ample.
pub(crate) fn check_trees<T: Syntax + Clone + PartialEq + Drop>(
    rt: &impl Abort,
    alloc: Global,
    trees: Trees<T>,
) {
    for (tree, wanted, is_well_formed) in &trees.expect(rt, "memory") {
        check_line(alloc, tree, wanted, *is_well_formed).expect(rt, wanted);
        check_cloned(tree).expect(rt, wanted);
    }
}
