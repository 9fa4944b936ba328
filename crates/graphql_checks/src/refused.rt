//! Clones and prints where memory may be refused.
use crate::mismatch::{Mismatch, check_text};
use graphql_text::engine::{PrintError, Serialize, Syntax};
use std::alloc::Global;

/// That a clone is equal, or was refused memory.
///
/// ```
/// check_cloned_or_refused(&tree).expect(&rt, "a clone");
/// ```
pub fn check_cloned_or_refused<T: Clone + PartialEq + Drop>(original: &T) -> Result<(), Mismatch> {
    match original.clone() {
        Ok(copy) if copy != *original => Err(Mismatch::Clone),
        _ => Ok(()),
    }
}

/// That a tree has this text on one line, or that the print was refused memory.
///
/// ```
/// check_text_or_refused(alloc, &tree, "query { a }").expect(&rt, "a text");
/// ```
pub fn check_text_or_refused<T: Syntax>(
    alloc: Global,
    tree: &T,
    wanted: &str,
) -> Result<(), Mismatch> {
    match Serialize::new(tree).no_indent().to_text(alloc) {
        Ok(text) => check_text(text, wanted),
        Err(PrintError::Memory) => Ok(()),
        Err(error) => Err(Mismatch::Print(error)),
    }
}
