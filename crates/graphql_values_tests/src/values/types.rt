//! Worked types.
use crate::checks::{check_case, check_equal, check_made, check_text};
use graphql_base::name;
use graphql_values::ty;
use graphql_values::types::Type;
use std::alloc::{AllocError, Global};
use std::process::Abort;

/// A type of the tests, by its text.
fn of_text(alloc: Global, text: &str) -> Result<Type, AllocError> {
    match text {
        "Foo" => Ok(ty!(Foo)),
        "Foo!" => Ok(ty!(Foo!)),
        "[Foo]" => ty!(in alloc; [Foo]),
        "[Foo!]" => ty!(in alloc; [Foo!]),
        "[Foo!]!" => ty!(in alloc; [Foo!]!),
        _ => of_nested_text(alloc, text),
    }
}

fn of_nested_text(alloc: Global, text: &str) -> Result<Type, AllocError> {
    match text {
        "[[Foo]!]" => ty!(in alloc; [[Foo]!]),
        "[[a!]]!" => ty!(in alloc; [[a!]]!),
        "[[[Obj]!]]!" => ty!(in alloc; [[[Obj ] !]]!),
        _ => Ok(ty!(Bar)),
    }
}

const TEXTS: [&str; 9] = [
    "Foo",
    "Foo!",
    "[Foo]",
    "[Foo!]",
    "[Foo!]!",
    "[[Foo]!]",
    "[[a!]]!",
    "[[[Obj]!]]!",
    "Bar",
];

/// Two types, and whether the first is assignable to the second.
const ASSIGNABLE: [(&str, &str, bool); 12] = [
    ("[Foo!]!", "[Foo]", true),
    ("[Foo]", "[Foo!]!", false),
    ("[Foo!]", "[Foo]", true),
    ("Foo!", "Foo", true),
    ("Foo", "Foo!", false),
    ("[Foo]", "Foo", false),
    ("Foo", "[Foo]", false),
    ("Foo", "Bar", false),
    ("Foo!", "Bar", false),
    ("[[Foo]!]", "[[Foo]!]", true),
    ("[[Foo]!]", "[Foo]", false),
    ("[Foo!]!", "Foo!", false),
];

/// A type, its item type, and whether it is a list, named and not null.
const ITEMS: [(&str, &str, [bool; 3]); 2] = [
    ("[Foo!]", "Foo!", [true, false, false]),
    ("Foo!", "Foo!", [false, true, true]),
];

fn check_displayed(rt: &impl Abort, alloc: Global, text: &str) {
    let ty = of_text(alloc, text).expect(rt, "memory");
    check_made(rt, format!(in alloc; "{ty}"), text);
}

fn check_item(rt: &impl Abort, alloc: Global, text: &str, item: &str, kinds: [bool; 3]) {
    let ty = of_text(alloc, text).expect(rt, "memory");
    let wanted = of_text(alloc, item).expect(rt, "memory");
    check_case(rt, text, *ty.item_type() == wanted, true);
    let found = [ty.is_list(), ty.is_named(), ty.is_non_null()];
    check_case(rt, text, found, kinds);
}

fn check_items(rt: &impl Abort, alloc: Global) {
    for (text, item, kinds) in ITEMS {
        check_item(rt, alloc, text, item, kinds);
    }
}

fn check_pair(rt: &impl Abort, alloc: Global, source: &str, target: &str, is_assignable: bool) {
    let given = of_text(alloc, source).expect(rt, "memory");
    let wanted = of_text(alloc, target).expect(rt, "memory");
    let found = given.is_assignable_to(&wanted);
    assert_eq!(rt; found, is_assignable, "{source} to {target}");
}

fn check_assignability(rt: &impl Abort, alloc: Global) {
    for (source, target, is_assignable) in ASSIGNABLE {
        check_pair(rt, alloc, source, target, is_assignable);
    }
}

fn check_nullable(rt: &impl Abort, alloc: Global) {
    let bare = of_text(alloc, "[Foo!]").expect(rt, "memory");
    let whole = of_text(alloc, "[Foo!]!").expect(rt, "memory");
    let nullable = whole.clone().expect(rt, "memory").nullable();
    check_equal(rt, nullable == bare, true);
    check_equal(rt, nullable.non_null() == whole, true);
}

#[test]
fn texts_parts_and_assignability(rt: HostRuntime) {
    let alloc = rt.alloc();
    for text in TEXTS {
        check_displayed(&rt, alloc, text);
    }
    check_items(&rt, alloc);
    check_assignability(&rt, alloc);
    check_nullable(&rt, alloc);
    let nested = of_text(alloc, "[[a!]]!").expect(&rt, "memory");
    check_text(&rt, nested.inner_named_type().as_str(), "a");
}
