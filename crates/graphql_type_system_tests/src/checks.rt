//! What the examples compare.
use graphql_checks::trees::check_line;
use graphql_text::engine::{Serialize, Syntax};
use std::alloc::{AllocError, Global};
use std::fmt::{Debug, Display};
use std::process::Abort;

/// That these are equal. A call, since a comparison written out is dear where many follow: the proof of a test goes over all of them.
pub(crate) fn check_equal<T: PartialEq + Debug + Drop>(rt: &impl Abort, found: T, wanted: T) {
    assert_eq!(rt; found, wanted);
}

/// The same of one of several cases, which is told where they differ.
pub(crate) fn check_case<T: PartialEq + Debug + Drop>(
    rt: &impl Abort,
    case: impl Display + Drop,
    found: T,
    wanted: T,
) {
    assert_eq!(rt; found, wanted, "{case}");
}

/// The print in the default layout.
pub(crate) fn check_displayed<T: Display>(rt: &impl Abort, alloc: Global, tree: &T, wanted: &str) {
    let text = format!(in alloc; "{tree}").expect(rt, "memory");
    assert_eq!(rt; text.as_str(), wanted);
}

/// Trees of a kind, whether each is well formed, its text on one line, and in the default layout where that is told.
pub(crate) type Trees<T> = Result<Vec<(T, bool, &'static str, Option<&'static str>)>, AllocError>;

/// Each tree of a table, of which the tree and a print of it are displayed: memory is ample.
pub(crate) fn check_trees<T: Syntax + Display + Drop>(
    rt: &impl Abort,
    alloc: Global,
    trees: Trees<T>,
) {
    for (tree, is_well_formed, line, displayed) in &trees.expect(rt, "memory") {
        check_line(alloc, tree, line, *is_well_formed).expect(rt, line);
        if let Some(wanted) = displayed {
            check_displayed(rt, alloc, tree, wanted);
            check_displayed(rt, alloc, &Serialize::new(tree), wanted);
        }
    }
}
