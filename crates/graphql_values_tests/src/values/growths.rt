//! How often calls ask for memory. `calls_built` makes what the calls are given, and `calls_called` makes it and calls. Where
//! a request of a call is refused, the test fails, and says which call it was, and how often that asks. With
//! `tools/refused_growths.py` each is refused in turn: each of these messages has to come as often as it says, and
//! `calls_called` has to ask so much more often than `calls_built`.
ghost use Rattle.std.specs.Prelude.{◌<◌};

use crate::checks::{check_case, check_taken, printed};
use crate::samples::{directive, input, items};
use graphql_text::engine::{PrintError, Syntax};
use graphql_values::directive::{Directive, SpecifiedArgumentError};
use std::alloc::{AllocError, Global};
use std::process::Abort;

/// What is done with what is made: nothing, and it has to be there, or the calls.
#[derive(Clone, Copy, PartialEq, Eq, Debug, Drop)]
enum Calls {
    Nothing,
    Made,
}

fn check_print<T: Syntax + Drop>(
    rt: &impl Abort,
    calls: Calls,
    made: Result<T, AllocError>,
    wanted: &str,
    takes: &str,
) {
    let Ok(tree) = made else {
        assert_eq!(rt; calls, Calls::Made, "{wanted} isn't built");
        return;
    };
    if calls == Calls::Made {
        let (result, taken) = printed(rt, &tree);
        check_case(rt, &takes, result, Ok(()));
        check_taken(rt, taken, wanted);
    }
}

/// `@a(x: 1, y: 2)` twice, which share both arguments.
fn all_shared(alloc: Global) -> Result<(Directive, Directive), AllocError> {
    let directive = directive(alloc)?;
    let copy = directive.clone()?;
    Ok((directive, copy))
}

/// The same of one of both arguments alone.
fn one_shared(alloc: Global, index: usize) -> Result<(Directive, Directive), AllocError>
    requires { index < 2 }
{
    let mut directive = directive(alloc)?;
    if directive.arguments.len() == 2 {
        directive.arguments.remove(1 - index);
    }
    let copy = directive.clone()?;
    Ok((directive, copy))
}

/// The values of these names are lent, one after another, or are not there.
fn check_loans(
    rt: &impl Abort,
    calls: Calls,
    made: Result<(Directive, Directive), AllocError>,
    (names, are_there, takes): (&[&str], bool, &str),
) {
    let Ok((directive, mut lent)) = made else {
        check_case(rt, "the directives aren't built", calls, Calls::Made);
        return;
    };
    if calls == Calls::Made {
        for name in names {
            let error = lent.specified_argument_by_name_mut(name).err();
            let wanted = (!are_there).then_some(SpecifiedArgumentError::NotSpecified);
            check_case(rt, &takes, &error, &wanted);
        }
    }
    assert!(rt; lent == directive);
}

fn check_prints(rt: &impl Abort, calls: Calls, alloc: Global) {
    let wanted = "[1, EXAMPLE, true, null]";
    check_print(rt, calls, items(alloc), wanted, "a list takes 1");
    let wanted = "@a(x: 1, y: 2)";
    let made = directive(alloc);
    check_print(rt, calls, made, wanted, "a directive takes 1");
    let wanted = "a: [[I!]] = [[], 1.5]";
    let made = input(alloc);
    check_print(rt, calls, made, wanted, "an input value takes 2");
}

fn check_loans_of_two(rt: &impl Abort, calls: Calls, alloc: Global) {
    for loans in [
        (["x"].as_slice(), true, "a loan of x takes 1"),
        (["y"].as_slice(), true, "a loan of y takes 1"),
        (["z"].as_slice(), false, "a loan of z takes 0"),
        (
            ["y", "x"].as_slice(),
            true,
            "a loan of y, then of x takes 2",
        ),
        (
            ["x", "y"].as_slice(),
            true,
            "a loan of x, then of y takes 2",
        ),
    ] {
        check_loans(rt, calls, all_shared(alloc), loans);
    }
}

fn check_loans_of_one(rt: &impl Abort, calls: Calls, alloc: Global) {
    let loans = (["x"].as_slice(), true, "a loan of x alone takes 1");
    check_loans(rt, calls, one_shared(alloc, 0), loans);
    let loans = (["y"].as_slice(), true, "a loan of y alone takes 1");
    check_loans(rt, calls, one_shared(alloc, 1), loans);
}

/// A text whose level overflows asks for no memory.
fn check_overflow(rt: &impl Abort, calls: Calls, alloc: Global) {
    let Ok(list) = items(alloc) else {
        check_case(rt, "the list isn't built", calls, Calls::Made);
        return;
    };
    if calls == Calls::Made {
        let print = list.serialize().initial_indent_level(usize::MAX);
        let error = print.to_text(alloc).err();
        let wanted = Some(PrintError::LevelOverflow);
        check_case(rt, "a text that overflows takes 0", error, wanted);
    }
}

/// Of a directive a value is copied once, where it is lent, and not those that were lent before.
fn check_all(rt: &impl Abort, calls: Calls, alloc: Global) {
    check_prints(rt, calls, alloc);
    check_overflow(rt, calls, alloc);
    check_loans_of_two(rt, calls, alloc);
    check_loans_of_one(rt, calls, alloc);
}

#[test]
fn calls_built(rt: HostRuntime) {
    check_all(&rt, Calls::Nothing, rt.alloc());
}

#[test]
fn calls_called(rt: HostRuntime) {
    check_all(&rt, Calls::Made, rt.alloc());
}
