//! The first flaws of trees that aren't well formed.
use crate::mismatch::Mismatch;
use graphql_base::span::{FileId, SourceSpan};
use graphql_text::engine::Syntax;
use graphql_text::ill_formed::SideCondition;
use std::alloc::AllocError;

/// A flaw of a tree: the side condition, the text of the name, and the location.
pub type Flaw = (SideCondition, Option<&'static str>, Option<SourceSpan>);

/// Trees of a kind, and the first flaw of each.
pub type Cases<T> = Result<Vec<(T, Option<Flaw>)>, AllocError>;

/// Where a flaw is to be found, in a file of which nothing else is said.
pub fn at(start: u32, end: u32) -> Option<SourceSpan> {
    SourceSpan::new(FileId::new(7), start, end)
}

fn check_flaw<T: Syntax>(case: usize, tree: &T, wanted: Option<Flaw>) -> Result<(), Mismatch> {
    let found = tree.find_ill_formed();
    let told = found.map(|found| {
        let name = found.name.map(|name| name.as_str());
        (found.condition, name, found.location())
    });
    if tree.is_well_formed() == told.is_none() && told == wanted {
        return Ok(());
    }
    let placed = told.map(|(condition, _, location)| (condition, location));
    Err(Mismatch::Flaw(case, placed))
}

/// That this is the first flaw of each tree, and that a tree is said to be well formed exactly where it has none.
///
/// ```
/// let cases = Ok(vec![in alloc; (spread, Some((IsNotOn, Some("on"), at(20, 22))))]?);
/// check_flaws(cases).expect(&rt, "a spread");
/// ```
pub fn check_flaws<T: Syntax + Drop>(cases: Cases<T>) -> Result<(), Mismatch> {
    for (case, (tree, wanted)) in cases?.iter().enumerate() {
        check_flaw(case, tree, *wanted)?;
    }
    Ok(())
}
