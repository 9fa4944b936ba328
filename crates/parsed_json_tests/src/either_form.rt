//! JSON in either form, as callers ask it, and JSON that was parsed as a value of `serde_json`.
use crate::checks::{check_case, check_equal};
use json::{Scratch, Value as Parsed};
use parsed_json::{AnyJson, owned_json, parse_json};
use serde_json::Value as Json;
use std::alloc::Global;
use std::process::Abort;

/// What JSON answers: a boolean, a number, how many items, a text, and whether it is null and an object.
type Answers = (
    Option<bool>,
    Option<u64>,
    Option<usize>,
    Option<&'static str>,
    bool,
    bool,
);

const NOTHING: Answers = (None, None, None, None, false, false);

const ASKED: [(&str, Answers); 20] = [
    ("null", (None, None, None, None, true, false)),
    ("true", (Some(true), None, None, None, false, false)),
    ("false", (Some(false), None, None, None, false, false)),
    ("0", (None, Some(0), None, None, false, false)),
    ("7", (None, Some(7), None, None, false, false)),
    (
        "4294967296",
        (None, Some(4294967296), None, None, false, false),
    ),
    (
        "18446744073709551615",
        (None, Some(18446744073709551615), None, None, false, false),
    ),
    ("18446744073709551616", NOTHING),
    ("-1", NOTHING),
    ("1.5", NOTHING),
    ("1e2", NOTHING),
    ("\"\"", (None, None, None, Some(""), false, false)),
    ("\"7\"", (None, None, None, Some("7"), false, false)),
    (
        "\"\\u0061\\n\"",
        (None, None, None, Some("a\n"), false, false),
    ),
    ("[]", (None, None, Some(0), None, false, false)),
    ("[null]", (None, None, Some(1), None, false, false)),
    ("[[],{},7]", (None, None, Some(3), None, false, false)),
    ("{}", (None, None, None, None, false, true)),
    ("{\"a\":true}", (None, None, None, None, false, true)),
    ("{\"a\":[1,2]}", (None, None, None, None, false, true)),
];

fn check(rt: &impl Abort, json: AnyJson<'_, '_>, text: &str, wanted: Answers) {
    let (is_so, number, count, word, is_null, is_object) = wanted;
    check_case(rt, &text, json.as_bool(), is_so);
    check_case(rt, &text, json.as_u64(), number);
    let items = json.as_items();
    check_case(rt, &text, items.map(|items| items.len()), count);
    let is_empty = items.map(|items| items.is_empty());
    check_case(rt, &text, is_empty, count.map(|count| count == 0));
    check_case(rt, &text, json.as_str(), word);
    check_case(
        rt,
        &text,
        (json.is_null(), json.is_object()),
        (is_null, is_object),
    );
}

/// The last of two members of one name counts.
fn check_members(rt: &impl Abort, json: AnyJson<'_, '_>) {
    assert!(rt; json.get("b").is_none());
    let member = json.get("a").expect(rt, "a member");
    let items = member.as_items().expect(rt, "an array");
    assert_eq!(rt; items.len(), 2);
    check_equal(rt, items.at(0).as_u64(), Some(1));
    check_equal(rt, items.at(1).as_bool(), Some(false));
}

fn check_form(rt: &impl Abort, form: AnyJson<'_, '_>, text: &str, wanted: Option<Answers>) {
    match wanted {
        Some(answers) => check(rt, form, text, answers),
        None => check_members(rt, form),
    }
}

/// Texts, and the numbers of `start` and `end` where these are all their members, in this order.
const TWO_NUMBERS: [(&str, Option<(u64, u64)>); 9] = [
    (
        "{\"start\":0,\"end\":18446744073709551615}",
        Some((0, 18446744073709551615)),
    ),
    ("{\"end\":1,\"start\":0}", None),
    ("{\"start\":0}", None),
    ("{\"start\":0,\"end\":1,\"line\":1}", None),
    ("{\"start\":0,\"end\":-1}", None),
    ("{\"start\":0,\"end\":\"1\"}", None),
    ("{\"start\":0,\"end\":18446744073709551616}", None),
    ("[0,1]", None),
    ("7", None),
];

fn check_two_numbers(rt: &impl Abort, alloc: Global, text: &str, wanted: Option<(u64, u64)>) {
    let mut scratch = Scratch::new(alloc);
    match parse_json(alloc, text, &mut scratch) {
        Ok(Some(parsed)) => {
            let found = AnyJson::Parsed(&parsed).two_numbers("start", "end");
            check_case(rt, &text, &found, &wanted);
        }
        Ok(None) | Err(_) => panic!(rt; "{text} is JSON"),
    }
}

/// Both forms: the same answers, and the same value of `serde_json`.
fn check_forms(
    rt: &impl Abort,
    alloc: Global,
    json: &Json,
    parsed: &Parsed<'_>,
    text: &str,
    wanted: Option<Answers>,
) {
    check_form(rt, AnyJson::Owned(json), text, wanted);
    check_form(rt, AnyJson::Parsed(parsed), text, wanted);
    let owned = owned_json(alloc, parsed).expect(rt, "memory");
    assert!(rt; owned == *json, "{text}");
}

/// A text in both forms.
fn check_text(rt: &impl Abort, alloc: Global, text: &str, wanted: Option<Answers>) {
    let json = Json::from_str(alloc, text).expect(rt, "JSON");
    let mut scratch = Scratch::new(alloc);
    match parse_json(alloc, text, &mut scratch) {
        Ok(Some(parsed)) => check_forms(rt, alloc, &json, &parsed, text, wanted),
        Ok(None) | Err(_) => panic!(rt; "{text} is JSON"),
    }
}

fn check_asked(rt: &impl Abort, alloc: Global) {
    for (text, wanted) in ASKED {
        check_text(rt, alloc, text, Some(wanted));
    }
}

#[test]
fn both_forms_answer_alike(rt: HostRuntime) {
    check_asked(&rt, rt.alloc());
    let members = "{\"a\":3,\"c\":{\"b\":1},\"a\":[1,false]}";
    check_text(&rt, rt.alloc(), members, None);
    for (text, wanted) in TWO_NUMBERS {
        check_two_numbers(&rt, rt.alloc(), text, wanted);
    }
}
