//! Texts of ints and floats.
use crate::checks::{check_case, check_made, check_text};
use graphql_values::literal::{FloatValue, IntValue, LiteralError};
use graphql_values::value::Value;
use std::alloc::Global;
use std::process::Abort;

const CHARACTERS: [&str; 9] = ["0", "1", "-", "+", ".", "e", "E", "a", "_"];

const CHARACTERS_OR_NONE: [&str; 10] = ["", "0", "1", "-", "+", ".", "e", "E", "a", "_"];

/// Of all texts of at most three of these characters, those that a regular expression over the same grammar takes.
const INTS: [&str; 12] = [
    "0", "1", "10", "11", "-0", "-1", "100", "101", "110", "111", "-10", "-11",
];

const FLOATS: [&str; 12] = [
    "0.0", "0.1", "0e0", "0e1", "0E0", "0E1", "1.0", "1.1", "1e0", "1e1", "1E0", "1E1",
];

fn is_one_of(texts: &[&str], text: &str) -> bool {
    texts.iter().any(|other| *other == text)
}

fn check_refused(rt: &impl Abort, error: LiteralError, text: &str) {
    assert!(rt; !error.is_memory(), "{text}");
    match error {
        LiteralError::Invalid(refused) => check_text(rt, refused.as_str(), text),
        LiteralError::Memory => assert!(rt; false, "{text}"),
    }
}

fn check_int(rt: &impl Abort, alloc: Global, text: &str, is_int: bool) {
    match IntValue::new(alloc, text) {
        Ok(int) => {
            assert!(rt; is_int, "{text}");
            check_text(rt, int.as_str(), text);
        }
        Err(error) => {
            assert!(rt; !is_int, "{text}");
            check_refused(rt, error, text);
        }
    }
}

fn check_float(rt: &impl Abort, alloc: Global, text: &str, is_float: bool) {
    match FloatValue::new(alloc, text) {
        Ok(float) => {
            assert!(rt; is_float, "{text}");
            check_text(rt, float.as_str(), text);
        }
        Err(error) => {
            assert!(rt; !is_float, "{text}");
            check_refused(rt, error, text);
        }
    }
}

/// Whether a text is in the syntax of ints and of floats, and so is made one.
fn check_literal(rt: &impl Abort, alloc: Global, text: &str, is_int: bool, is_float: bool) {
    check_case(rt, &text, IntValue::valid_syntax(text), is_int);
    check_case(rt, &text, FloatValue::valid_syntax(text), is_float);
    check_int(rt, alloc, text, is_int);
    check_float(rt, alloc, text, is_float);
}

/// All texts of at most three of the characters.
fn short_texts(rt: &impl Abort, alloc: Global) -> Vec<String> {
    let mut texts = Vec::new(alloc);
    for a in CHARACTERS {
        for b in CHARACTERS_OR_NONE {
            for c in CHARACTERS_OR_NONE {
                let text = format!(in alloc; "{a}{b}{c}").expect(rt, "memory");
                texts.push(text).expect(rt, "memory");
            }
        }
    }
    texts
}

/// A text, and whether it is an int and a float.
const TEXTS: [(&str, bool, bool); 28] = [
    ("-0", true, false),
    ("2147483648", true, false),
    ("-2147483648", true, false),
    ("120", true, false),
    ("", false, false),
    ("-", false, false),
    ("00", false, false),
    ("01", false, false),
    ("+3", false, false),
    ("-01", false, false),
    (" 1", false, false),
    ("1 ", false, false),
    ("é", false, false),
    ("1.5", false, true),
    ("1.5E-3", false, true),
    ("1e5", false, true),
    ("-0.5e+10", false, true),
    ("0.00", false, true),
    ("1e", false, false),
    ("10e", false, false),
    ("1.5e+", false, false),
    ("1.", false, false),
    ("+3.5", false, false),
    (".5", false, false),
    ("1.5.5", false, false),
    ("1e5e5", false, false),
    ("1.e5", false, false),
    ("01.5", false, false),
];

fn check_long_texts(rt: &impl Abort, alloc: Global) {
    let digits = "7".repeat(alloc, 10000).expect(rt, "memory");
    check_literal(rt, alloc, digits.as_str(), true, false);
    let float = format!(in alloc; "{digits}.5").expect(rt, "memory");
    check_literal(rt, alloc, float.as_str(), false, true);
}

fn check_short_texts(rt: &impl Abort, alloc: Global) {
    for made in &short_texts(rt, alloc) {
        let text = made.as_str();
        let is_float = is_one_of(FLOATS.as_slice(), text);
        check_literal(rt, alloc, text, is_one_of(INTS.as_slice(), text), is_float);
    }
}

/// What is displayed of a literal is its text.
fn check_displayed(rt: &impl Abort, alloc: Global) {
    let int = IntValue::new_parsed(alloc, "10").expect(rt, "memory");
    check_made(rt, format!(in alloc; "{int}|{int:>4}"), "10|  10");
    let float = FloatValue::new_parsed(alloc, "1.50").expect(rt, "memory");
    check_text(rt, float.as_str(), "1.50");
    let wanted = "1.50|1.50  |";
    check_made(rt, format!(in alloc; "{float}|{float:<6}|"), wanted);
}

/// And of an error the text that is none.
fn check_error_displayed(rt: &impl Abort, alloc: Global) {
    let error = IntValue::new(alloc, "01").err().expect(rt, "an error");
    let wanted = "`01` is not a valid GraphQL number";
    check_made(rt, format!(in alloc; "{error}"), wanted);
}

/// Short ones and long ones.
#[test]
fn texts_are_literals_or_refused(rt: HostRuntime) {
    let alloc = rt.alloc();
    check_short_texts(&rt, alloc);
    for (text, is_int, is_float) in TEXTS {
        check_literal(&rt, alloc, text, is_int, is_float);
    }
    check_long_texts(&rt, alloc);
    check_displayed(&rt, alloc);
    check_error_displayed(&rt, alloc);
}

/// A text, its number within 32 bits or why there is none, and its number within 64 bits.
const NUMBERS: [(&str, Result<i32, &str>, Option<i64>); 8] = [
    ("-0", Ok(0), Some(0)),
    ("-2147483648", Ok(-2147483648), Some(-2147483648)),
    ("2147483648", Err(TOO_LARGE), Some(2147483648)),
    ("-2147483649", Err(TOO_SMALL), Some(-2147483649)),
    (
        "9223372036854775807",
        Err(TOO_LARGE),
        Some(9223372036854775807),
    ),
    (
        "-9223372036854775808",
        Err(TOO_SMALL),
        Some(-9223372036854775808),
    ),
    ("9223372036854775808", Err(TOO_LARGE), None),
    ("-9223372036854775809", Err(TOO_SMALL), None),
];

const TOO_LARGE: &str = "number too large to fit in target type";

const TOO_SMALL: &str = "number too small to fit in target type";

fn check_narrow(rt: &impl Abort, alloc: Global, int: &IntValue, wanted: Result<i32, &str>) {
    match int.try_to_i32() {
        Ok(number) => assert!(rt; wanted == Ok(number), "{int}"),
        Err(error) => {
            let reason = wanted.err().expect(rt, "out of range");
            check_made(rt, format!(in alloc; "{error}"), reason);
        }
    }
}

/// Numbers, and the texts that are made of them.
const WRITTEN: [(i64, &str); 6] = [
    (-9223372036854775808, "-9223372036854775808"),
    (9223372036854775807, "9223372036854775807"),
    (0, "0"),
    (-7, "-7"),
    (1000000, "1000000"),
    (-2147483648, "-2147483648"),
];

fn check_number(
    rt: &impl Abort,
    alloc: Global,
    text: &str,
    narrow: Result<i32, &str>,
    wide: Option<i64>,
) {
    assert!(rt; IntValue::valid_syntax(text));
    let int = IntValue::new_parsed(alloc, text).expect(rt, "memory");
    check_narrow(rt, alloc, &int, narrow);
    let int = IntValue::new(alloc, text).expect(rt, "an integer");
    check_case(rt, text, int.try_to_i64().ok(), wide);
}

fn check_numbers(rt: &impl Abort, alloc: Global) {
    for (text, narrow, wide) in NUMBERS {
        check_number(rt, alloc, text, narrow, wide);
    }
}

fn check_wide_written(rt: &impl Abort, alloc: Global, number: i64, text: &str) {
    let int = IntValue::from_i64(alloc, number).expect(rt, "memory");
    check_text(rt, int.as_str(), text);
    check_case(rt, text, int.try_to_i64().ok(), Some(number));
    let value = Value::from_i64(alloc, number).expect(rt, "memory");
    check_case(rt, text, value.to_i64(), Some(number));
}

/// Within 64 bits, and within 32 if it fits.
fn check_written(rt: &impl Abort, alloc: Global, number: i64, text: &str) {
    check_wide_written(rt, alloc, number, text);
    if let Ok(narrow) = i32::try_from(number) {
        let int = IntValue::from_i32(alloc, narrow).expect(rt, "memory");
        check_text(rt, int.as_str(), text);
    }
}

#[test]
fn numbers_are_those_of_their_texts(rt: HostRuntime) {
    check_numbers(&rt, rt.alloc());
    for (number, text) in WRITTEN {
        check_written(&rt, rt.alloc(), number, text);
    }
}
