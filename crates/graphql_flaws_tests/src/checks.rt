//! What is demanded of the flaws of each tree.
use crate::notation::json_of;
use graphql_ast::ill_formed::IllFormed;
use graphql_ast::span::FileId;
use graphql_ast_json::{
    AstJson, WellFormedError, from_ast_json_str, from_well_formed_ast_json_str,
};
use graphql_flaws::{FindFlaws, FoundFlaw};
use std::alloc::Global;
use std::fmt::{Debug, Display};
use std::process::Abort;

/// That these are equal. A call, since a comparison written out is dear where many follow: the proof of a test goes over all of them.
pub(crate) fn check_equal<T: PartialEq + Debug + Drop>(rt: &impl Abort, found: T, wanted: T) {
    assert_eq!(rt; found, wanted);
}

/// The same of one of several cases, which is told where they differ.
pub(crate) fn check_case<T: PartialEq + Debug + Drop>(
    rt: &impl Abort,
    case: impl Display + Drop,
    found: T,
    wanted: T,
) {
    assert_eq!(rt; found, wanted, "{case}");
}

/// What is told of flaws, a line each.
fn told(rt: &impl Abort, alloc: Global, flaws: &[FoundFlaw<'_>]) -> String {
    let mut lines = String::new(alloc);
    for flaw in flaws {
        let line = format!(in alloc; "{flaw}\n").expect(rt, "memory");
        lines.push_str(line.as_str()).expect(rt, "memory");
    }
    lines
}

/// These, a line each.
fn lines_of(rt: &impl Abort, alloc: Global, lines: &[&str]) -> String {
    let mut whole = String::new(alloc);
    for line in lines {
        whole.push_str(line).expect(rt, "memory");
        whole.push('\n').expect(rt, "memory");
    }
    whole
}

/// That these are told, a line each.
fn check_lines(rt: &impl Abort, alloc: Global, flaws: &[FoundFlaw<'_>], wanted: &[&str]) {
    let found = told(rt, alloc, flaws);
    let wanted = lines_of(rt, alloc, wanted);
    check_equal(rt, found.as_str(), wanted.as_str());
}

/// That the first is what `find_ill_formed` finds.
fn check_first(rt: &impl Abort, first: Option<&FoundFlaw<'_>>, found: Option<IllFormed<'_>>) {
    match (first, found) {
        (Some(first), Some(found)) => {
            check_equal(rt, first.found.condition, found.condition);
            check_equal(rt, first.found.name, found.name);
            check_equal(rt, first.found.around, found.around);
        }
        (first, found) => check_equal(rt, (first.is_none(), found.is_none()), (true, true)),
    }
}

/// That a reading that takes well-formed trees alone refuses the JSON at the path of the first.
fn check_path<T: AstJson + FindFlaws + Drop>(
    rt: &impl Abort,
    alloc: Global,
    json: &str,
    first: Option<&FoundFlaw<'_>>,
) {
    match (
        first,
        from_well_formed_ast_json_str::<T>(alloc, json, FileId::new(1)),
    ) {
        (Some(first), Err(WellFormedError::IllFormed { path, broken, .. })) => {
            let ours = format!(in alloc; "{first}").expect(rt, "memory");
            let read = format!(in alloc; "at {path}: {broken}").expect(rt, "memory");
            check_equal(rt, ours.as_str(), read.as_str());
        }
        (first, read) => check_case(rt, json, (first.is_none(), read.is_ok()), (true, true)),
    }
}

/// That the tree of this row has these flaws.
pub(crate) fn check<T: AstJson + FindFlaws + Drop>(
    rt: &impl Abort,
    alloc: Global,
    row: &str,
    wanted: &[&str],
) {
    let json = json_of(alloc, row).expect(rt, "memory");
    let tree = from_ast_json_str::<T>(alloc, json.as_str(), FileId::new(1)).expect(rt, row);
    let flaws = tree.flaws(alloc).expect(rt, "memory");
    check_lines(rt, alloc, &flaws, wanted);
    check_first(rt, flaws.first(), tree.find_ill_formed());
    check_path::<T>(rt, alloc, json.as_str(), flaws.first());
}
