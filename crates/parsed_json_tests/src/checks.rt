//! What the examples compare.
use std::fmt::{Debug, Display};
use std::process::Abort;

/// That these are equal. A call, since a comparison written out is dear where many follow: the proof of a test goes over all of them.
pub(crate) fn check_equal<T: PartialEq + Debug + Drop>(rt: &impl Abort, found: T, wanted: T) {
    assert_eq!(rt; found, wanted);
}

/// The same of one of several cases, which is told where they differ.
pub(crate) fn check_case<T: PartialEq + Debug + Drop>(
    rt: &impl Abort,
    case: impl Display + Drop,
    found: T,
    wanted: T,
) {
    assert_eq!(rt; found, wanted, "{case}");
}
