//! Worked names.
use crate::checks::{check_case, check_equal, check_made, check_text};
use graphql_base::name;
use graphql_base::name::{InvalidNameError, Name, NameError, NamedType};
use graphql_base::span::{FileId, SourceSpan};
use std::alloc::{AllocError, Global};
use std::cmp::Ordering;
use std::collections::HashSet;
use std::process::Abort;
use std::rc::RcStr;

const VALID: [&str; 8] = ["abc", "A", "_", "__typename", "a1", "_0", "Z_9", "on"];

const INVALID: [&str; 10] = [
    "", "1", "1nvalid", "è", "aè", "a\0b", "\0", "a-b", " a", "a ",
];

/// The error of this text.
fn invalid(alloc: Global, text: &str) -> Result<NameError, AllocError> {
    Ok(NameError::Invalid(InvalidNameError {
        name: String::from_str(alloc, text)?,
        location: None,
    }))
}

fn letters(alloc: Global, count: usize) -> Result<String, AllocError> {
    "a".repeat(alloc, count)
}

fn check_new(rt: &impl Abort, name: &Name, text: &str, is_static: bool) {
    check_equal(rt, (name.as_str(), name.len()), (text, text.len()));
    check_case(rt, &text, name.location(), None);
    check_case(rt, &text, name.as_static_str().is_some(), is_static);
}

fn check_made_new(rt: &impl Abort, made: Result<Name, NameError>, text: &str, is_static: bool) {
    let name = made.expect(rt, "a name");
    check_new(rt, &name, text, is_static);
}

fn new_shared(alloc: Global, text: &str) -> Result<Name, NameError> {
    match RcStr::from_str(alloc, text) {
        Ok(shared) => Name::new_shared(alloc, shared),
        Err(AllocError) => Err(NameError::Memory),
    }
}

/// Names that are made without a test, their texts, and whether these are static.
fn untested(rt: &impl Abort, alloc: Global) -> [(Name, &'static str, bool); 6] {
    let text = "abc";
    assert!(rt; Name::is_valid_syntax(text));
    let made = Name::new_unchecked(alloc, text).expect(rt, "memory");
    let shared = RcStr::from_str(alloc, text).expect(rt, "memory");
    assert!(rt; Name::is_valid_syntax(shared.as_str()));
    let query: NamedType = name!(Query);
    [
        (Name::new_static_unchecked("abc"), text, true),
        (made, text, false),
        (Name::from_arc_unchecked(shared), text, false),
        (name!(abc), text, true),
        (name!("__typename"), "__typename", true),
        (query, "Query", true),
    ]
}

fn check_valid(rt: &impl Abort, alloc: Global, text: &'static str) {
    check_case(rt, text, Name::is_valid_syntax(text), true);
    check_made_new(rt, Name::new(alloc, text), text, false);
    check_made_new(rt, Name::new_static(alloc, text), text, true);
    check_made_new(rt, new_shared(alloc, text), text, false);
}

fn check_long(rt: &impl Abort, alloc: Global) {
    let long = letters(alloc, 10_000).expect(rt, "memory");
    let text = long.as_str();
    check_equal(rt, Name::is_valid_syntax(text), true);
    check_made_new(rt, Name::new(alloc, text), text, false);
}

/// Long ones too, and those that are made without a test.
fn check_names(rt: &impl Abort, alloc: Global) {
    for text in VALID {
        check_valid(rt, alloc, text);
    }
    check_long(rt, alloc);
    for (name, text, is_static) in untested(rt, alloc) {
        check_new(rt, &name, text, is_static);
    }
}

fn check_refused(rt: &impl Abort, made: Result<Name, NameError>, wanted: &NameError) {
    let error = made.err().expect(rt, "no name");
    check_equal(rt, &error, wanted);
    assert!(rt; !error.is_memory(), "{wanted}");
}

fn check_other_texts(rt: &impl Abort, alloc: Global) {
    for text in INVALID {
        let error = invalid(alloc, text).expect(rt, "memory");
        assert!(rt; !Name::is_valid_syntax(text), "{text}");
        check_refused(rt, Name::new(alloc, text), &error);
        check_refused(rt, Name::compact(alloc, text), &error);
        check_refused(rt, Name::new_static(alloc, text), &error);
        check_refused(rt, new_shared(alloc, text), &error);
    }
}

#[test]
fn valid_texts_are_names_and_others_are_refused(rt: HostRuntime) {
    check_names(&rt, rt.alloc());
    check_other_texts(&rt, rt.alloc());
}

/// The error of the text `a b` that stood somewhere.
fn elsewhere(alloc: Global) -> Result<InvalidNameError, AllocError> {
    Ok(InvalidNameError {
        name: String::from_str(alloc, "a b")?,
        location: SourceSpan::new(FileId::new(5), 1, 4),
    })
}

/// Errors, their texts, and whether they are for memory. They differ in their variants, or in one field.
fn errors(alloc: Global) -> Result<[(NameError, &'static str, bool); 5], AllocError> {
    let a_b = "`a b` is not a valid GraphQL name";
    Ok([
        (
            invalid(alloc, "1nvalid")?,
            "`1nvalid` is not a valid GraphQL name",
            false,
        ),
        (invalid(alloc, "a b")?, a_b, false),
        (
            invalid(alloc, "a c")?,
            "`a c` is not a valid GraphQL name",
            false,
        ),
        (NameError::Memory, "out of memory", true),
        (NameError::Invalid(elsewhere(alloc)?), a_b, false),
    ])
}

/// The error within an error of an invalid text, which has the same text.
fn check_inner(rt: &impl Abort, alloc: Global, inner: &InvalidNameError, text: &str) {
    check_made(rt, format!(in alloc; "{inner}"), text);
    let copy = inner.clone().expect(rt, "memory");
    check_equal(rt, &copy, inner);
}

fn check_told(rt: &impl Abort, alloc: Global, error: &NameError, text: &str, is_memory: bool) {
    check_made(rt, format!(in alloc; "{error}"), text);
    check_case(rt, error, error.is_memory(), is_memory);
    if let NameError::Invalid(inner) = error {
        check_inner(rt, alloc, inner, text);
    }
}

fn check_compared(rt: &impl Abort, error: &NameError, other: &NameError, is_same: bool) {
    let copy = error.clone().expect(rt, "memory");
    check_case(
        rt,
        error,
        (copy == *other, *error == *other),
        (is_same, is_same),
    );
}

/// Equal to a clone, and to none of the others.
#[test]
fn errors_have_their_texts_and_compare(rt: HostRuntime) {
    let alloc = rt.alloc();
    let errors = errors(alloc).expect(&rt, "memory");
    for (place, (error, text, is_memory)) in errors.iter().enumerate() {
        check_told(&rt, alloc, error, text, *is_memory);
        for (other_place, (other, _, _)) in errors.iter().enumerate() {
            check_compared(&rt, error, other, place == other_place);
        }
    }
}

/// How a name keeps its text.
#[derive(Clone, Copy, PartialEq, Eq, Debug, Drop)]
enum Kept {
    Static,
    Shared,
    InPlace,
}

/// The text, if it is so.
fn text_if(is_so: bool, text: &str) -> Option<&str> {
    is_so.then_some(text)
}

/// The text of a name that stands in place.
fn text_in_place(name: &Name) -> Option<&str> {
    name.short_text().map(|short| short.as_str())
}

fn check_kept(rt: &impl Abort, name: &Name, text: &str, kept: Kept, location: Option<SourceSpan>) {
    check_equal(rt, (name.as_str(), name.len()), (text, text.len()));
    check_equal(rt, name.location(), location);
    check_equal(
        rt,
        name.as_static_str(),
        text_if(kept == Kept::Static, text),
    );
    check_equal(
        rt,
        text_in_place(name),
        text_if(kept == Kept::InPlace, text),
    );
    match name.short_text_or_str() {
        Ok(short) => check_equal(rt, (short.as_str(), kept), (text, Kept::InPlace)),
        Err(other) => check_equal(rt, (other, kept == Kept::InPlace), (text, false)),
    }
}

/// A clone keeps the text in the same way, at the same location.
fn check_clone(rt: &impl Abort, name: &Name, text: &str, kept: Kept, location: Option<SourceSpan>) {
    let copy = name.clone().expect(rt, "memory");
    check_kept(rt, &copy, text, kept, location);
    check_equal(rt, &copy, name);
}

/// The shared text of a name, unless that is static.
fn check_arc(rt: &impl Abort, name: &Name, text: &str, kept: Kept) {
    let taken = name.to_cloned_arc().expect(rt, "memory");
    let taken_text = taken.as_ref().map(|taken| taken.as_str());
    check_equal(rt, taken_text, text_if(kept != Kept::Static, text));
}

/// A name, and a clone. The text can be taken from both.
fn check_taken(
    rt: &impl Abort,
    alloc: Global,
    name: Name,
    text: &str,
    kept: Kept,
    location: Option<SourceSpan>,
) {
    check_kept(rt, &name, text, kept, location);
    check_clone(rt, &name, text, kept, location);
    check_arc(rt, &name, text, kept);
    let shared = name.into_shared(alloc).expect(rt, "memory");
    check_text(rt, shared.as_str(), text);
}

/// The name with a location, which is no part of it.
fn check_placed(rt: &impl Abort, alloc: Global, name: &Name, text: &str, kept: Kept, start: u32) {
    let count = u32::try_from(name.len()).expect(rt, "few bytes");
    let end = start.checked_add(count).expect(rt, "an offset");
    let span = SourceSpan::new(FileId::new(5), start, end).expect(rt, "in order");
    let placed = name.clone().expect(rt, "memory").with_location(span);
    check_equal(rt, &placed, name);
    check_taken(rt, alloc, placed, text, kept, Some(span));
}

/// A name without a location and with one, near the front and so that it ends at the last offset that there is.
fn check_name(rt: &impl Abort, alloc: Global, name: Name, text: &str, kept: Kept) {
    let count = u32::try_from(name.len()).expect(rt, "few bytes");
    check_placed(rt, alloc, &name, text, kept, 10);
    check_placed(rt, alloc, &name, text, kept, u32::MAX - count);
    check_taken(rt, alloc, name, text, kept, None);
}

/// The name of this text, shared, in place if it fits, and static.
fn names_of_each_form(alloc: Global, text: &'static str) -> Result<[(Name, Kept); 3], NameError> {
    Ok([
        (Name::new(alloc, text)?, Kept::Shared),
        (Name::compact(alloc, text)?, Kept::InPlace),
        (Name::new_static(alloc, text)?, Kept::Static),
    ])
}

/// How many letters compact names have, and whether they stand in place.
const LENGTHS: [(usize, Kept); 5] = [
    (1, Kept::InPlace),
    (17, Kept::InPlace),
    (18, Kept::InPlace),
    (19, Kept::Shared),
    (1_000_000, Kept::Shared),
];

/// A compact name of so many letters, tested and not.
fn check_letters(rt: &impl Abort, alloc: Global, count: usize, kept: Kept) {
    let long = letters(alloc, count).expect(rt, "memory");
    let text = long.as_str();
    let name = Name::compact(alloc, text).expect(rt, "a name");
    check_name(rt, alloc, name, text, kept);
    assert!(rt; Name::is_valid_syntax(text));
    let name = Name::compact_unchecked(alloc, text).expect(rt, "memory");
    check_name(rt, alloc, name, text, kept);
}

#[test]
fn names_keep_their_texts_and_locations(rt: HostRuntime) {
    let alloc = rt.alloc();
    for (name, kept) in names_of_each_form(alloc, "abc").expect(&rt, "memory") {
        check_equal(&rt, &name, &name!(abc));
        check_name(&rt, alloc, name, "abc", kept);
    }
    for (count, kept) in LENGTHS {
        check_letters(&rt, alloc, count, kept);
    }
}

/// Texts in the order of their bytes, with one of the last length that stands in place, and of the next.
const IN_ORDER: [&str; 8] = [
    "A",
    "_",
    "a",
    "aa",
    "aaaaaaaaaaaaaaaaaa",
    "aaaaaaaaaaaaaaaaaaa",
    "ab",
    "abc",
];

/// Names of this text in each form, each with the place of the text.
fn push_each_form(
    rt: &impl Abort,
    alloc: Global,
    names: &mut Vec<(usize, Name)>,
    place: usize,
    text: &'static str,
) {
    for (name, _) in names_of_each_form(alloc, text).expect(rt, "memory") {
        names.push((place, name)).expect(rt, "memory");
    }
}

/// Names of these texts in each form, and the places of the texts.
fn names_in_order(rt: &impl Abort, alloc: Global) -> Vec<(usize, Name)> {
    let mut names = Vec::new(alloc);
    for (place, text) in IN_ORDER.iter().enumerate() {
        push_each_form(rt, alloc, &mut names, place, text);
    }
    names
}

/// Whether one name is found where another one is a key.
fn is_found(rt: &impl Abort, alloc: Global, name: &Name, key: &Name) -> bool {
    let mut names = HashSet::new(alloc);
    let key = key.clone().expect(rt, "memory");
    names.insert(key).expect(rt, "memory");
    names.contains(name)
}

/// Names of one text are equal, each is found by the other as a key, and they print alike.
fn check_order(rt: &impl Abort, alloc: Global, name: &Name, other: &Name, order: Ordering) {
    let is_same = order == Ordering::Equal;
    check_case(rt, name, name.cmp(other), order);
    check_case(rt, name, name.partial_cmp(other), Some(order));
    check_case(rt, name, name == other, is_same);
    check_case(rt, name, is_found(rt, alloc, other, name), is_same);
    let printed = format!(in alloc; "{name}").expect(rt, "memory");
    check_case(rt, name, printed.as_str() == other.as_str(), is_same);
}

fn check_printed(rt: &impl Abort, alloc: Global) {
    let name = name!(abc);
    check_made(rt, format!(in alloc; "{name}"), "abc");
    check_made(rt, format!(in alloc; "[{name:>5}]"), "[  abc]");
    check_made(rt, format!(in alloc; "[{name:-<5}]"), "[abc--]");
    check_made(rt, format!(in alloc; "[{name:^5}]"), "[ abc ]");
    check_made(rt, format!(in alloc; "[{name:.2}]"), "[ab]");
}

#[test]
fn names_compare_and_print_by_their_texts(rt: HostRuntime) {
    let alloc = rt.alloc();
    let names = names_in_order(&rt, alloc);
    for (place, name) in &names {
        for (other_place, other) in &names {
            check_order(&rt, alloc, name, other, place.cmp(other_place));
        }
    }
    check_printed(&rt, alloc);
}
