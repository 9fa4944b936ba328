//! The checks that the tests call tell what differs.
use crate::checks::check_case;
use graphql_base::name;
use graphql_checks::flaws::{Flaw, at, check_flaws};
use graphql_checks::refused::{check_cloned_or_refused, check_text_or_refused};
use graphql_checks::trees::{check_cloned, check_line, check_print};
use graphql_executable::field::Field;
use graphql_executable::fragment_spread::FragmentSpread;
use graphql_text::ill_formed::SideCondition::{IsConstant, IsNotOn};
use std::alloc::{AllocError, Global};
use std::process::Abort;

/// A copy of it isn't equal.
#[derive(PartialEq, Drop)]
struct Changing(bool);

impl Clone for Changing {
    fn clone(&self) -> Result<Changing, AllocError> {
        Ok(Changing(!self.0))
    }
}

/// Whether this is the first flaw of a spread, by the check.
fn has_flaw(alloc: Global, spread: FragmentSpread, flaw: Option<Flaw>) -> bool {
    let cases = match vec![in alloc; (spread, flaw)] {
        Ok(cases) => Ok(cases),
        Err(_) => Err(AllocError),
    };
    check_flaws(cases).is_ok()
}

/// `...on`, whose name is no fragment's.
fn on(alloc: Global) -> FragmentSpread {
    FragmentSpread::new(alloc, name!(on))
}

/// A field's text, on one line.
fn has_line(alloc: Global, wanted: &str, is_well_formed: bool) -> bool {
    let field = Field::new(alloc, name!(a));
    check_line(alloc, &field, wanted, is_well_formed).is_ok()
}

/// A field's text in the default layout.
fn has_print(alloc: Global, wanted: &str) -> bool {
    check_print(alloc, Field::new(alloc, name!(a)).serialize(), wanted).is_ok()
}

fn check_texts(rt: &impl Abort, alloc: Global) {
    check_case(rt, "a text", has_line(alloc, "a", true), true);
    check_case(rt, "another text", has_line(alloc, "b", true), false);
    check_case(rt, "a flaw for none", has_line(alloc, "a", false), false);
    let flawed = check_line(alloc, &on(alloc), "...on", true);
    check_case(rt, "no flaw for one", flawed.is_ok(), false);
    check_case(rt, "a print", has_print(alloc, "a"), true);
    check_case(rt, "another print", has_print(alloc, "a "), false);
    let other = check_text_or_refused(alloc, &on(alloc), "...of");
    check_case(rt, "a text, not refused", other.is_ok(), false);
}

fn check_copies(rt: &impl Abort) {
    let changing = Changing(true);
    check_case(rt, "a copy", check_cloned(&changing).is_ok(), false);
    let refused = check_cloned_or_refused(&changing);
    check_case(rt, "a copy, not refused", refused.is_ok(), false);
}

#[test]
fn what_differs_is_told(rt: HostRuntime) {
    let alloc = rt.alloc();
    check_texts(&rt, alloc);
    check_copies(&rt);
    let told = Some((IsNotOn, Some("on"), None));
    check_case(&rt, "the flaw", has_flaw(alloc, on(alloc), told), true);
    let sound = FragmentSpread::new(alloc, name!(f));
    check_case(&rt, "a flaw of none", has_flaw(alloc, sound, told), false);
    for (case, flaw) in [
        ("no flaw", None),
        ("another condition", Some((IsConstant, Some("on"), None))),
        ("another name", Some((IsNotOn, Some("of"), None))),
        ("another location", Some((IsNotOn, Some("on"), at(0, 2)))),
    ] {
        check_case(&rt, case, has_flaw(alloc, on(alloc), flaw), false);
    }
}
