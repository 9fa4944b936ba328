//! JSON that is parsed from a text is read as a value of `serde_json` is: as the same tree, or with the same error.
use crate::checks::{check_case, check_equal};
use crate::errors::text_of;
use crate::outside::Outside;
use graphql_ast::ast::Document;
use graphql_ast_json::{
    AstJson, AstJsonError, JsonNode, NodeReader, Unknown, WellFormedError, from_ast_json_str,
    from_well_formed_ast_json_str, parse_json, read_well_formed_ast_json, read_well_formed_json,
};
use graphql_base::span::FileId;
use json::{Scratch, Value as Parsed};
use serde_json::Value as Json;
use std::alloc::Global;
use std::process::Abort;

/// A type in which the reader's ways are taken: members in any order and null, locations, escapes,
/// lists and objects in one another.
const TYPE: &str = r#"{"kind":"Document","definitions":[
{"kind":"ObjectTypeDefinition","name":{"kind":"Name","value":"T","loc":{"start":5,"end":6}},
"description":{"block":true,"kind":"StringValue","value":"a\nb\u00e9"},"interfaces":[],
"directives":null,"fields":[{"name":{"kind":"Name","value":"f"},"kind":"FieldDefinition",
"type":{"kind":"NonNullType","type":{"kind":"ListType","type":{"kind":"NamedType",
"name":{"kind":"Name","value":"T"}}}}}],"loc":{"end":9,"start":0}}]}"#;

/// The same with members that no node of their kinds has.
const UNKNOWN: &str = r#"{"kind":"Document","definitions":[
{"kind":"ObjectTypeDefinition","name":{"kind":"Name","value":"T","loc":{"start":5,"end":6}},
"description":{"block":true,"kind":"StringValue","value":"a\nb\u00e9"},"interfaces":[],
"directives":null,"fields":[{"name":{"kind":"Name","value":"f"},"kind":"FieldDefinition",
"type":{"kind":"NonNullType","type":{"kind":"ListType","type":{"kind":"NamedType",
"name":{"kind":"Name","value":"T"}}}},"extra":[1,-2.5e3,{}]}],"loc":{"end":9,"start":0},"zeta":0,
"alpha":{"b":[]}}]}"#;

/// An operation with values in one another, a member twice, and two flaws.
const OPERATION: &str = r#"{"kind":"Document","definitions":[
{"kind":"OperationDefinition","operation":"query","operation":"mutation",
"selectionSet":{"kind":"SelectionSet","selections":[{"kind":"Field",
"name":{"kind":"Name","value":"on"},"arguments":[{"kind":"Argument",
"name":{"kind":"Name","value":"x"},"value":{"kind":"ObjectValue","fields":[{"kind":"ObjectField",
"name":{"kind":"Name","value":"y"},"value":{"kind":"ListValue","values":[
{"kind":"IntValue","value":"4"},{"kind":"EnumValue","value":"true"},
{"kind":"BooleanValue","value":false},{"kind":"NullValue"}]}}]}}]},
{"kind":"InlineFragment","selectionSet":{"kind":"SelectionSet","selections":[]}}]}}]}"#;

/// What is told of a text that nests too deep.
const TOO_DEEP: &str = "arrays and objects stand in one another more than 127 deep";

/// What a reading came to, as a text.
fn said(rt: &impl Abort, alloc: Global, read: Result<Document, AstJsonError>) -> String {
    match read {
        Ok(document) => match document.to_ast_json(alloc) {
            Ok(json) => json.to_string(alloc).expect(rt, "memory"),
            Err(_) => panic!(rt; "memory"),
        },
        Err(error) => format!(in alloc; "{error}").expect(rt, "memory"),
    }
}

/// The same of a reading of well-formed trees alone.
fn said_well_formed(
    rt: &impl Abort,
    alloc: Global,
    read: Result<Document, WellFormedError>,
) -> String {
    match read {
        Ok(document) => format!(in alloc; "{document}").expect(rt, "memory"),
        Err(error) => format!(in alloc; "{error}").expect(rt, "memory"),
    }
}

/// What a reading of a text says, and that of a well-formed tree alone.
fn said_of_text(rt: &impl Abort, alloc: Global, text: &str) -> (String, String) {
    let source = FileId::new(1);
    (
        said(rt, alloc, from_ast_json_str(alloc, text, source)),
        said_well_formed(
            rt,
            alloc,
            from_well_formed_ast_json_str(alloc, text, source),
        ),
    )
}

/// The same of a reading by a kind of another crate.
fn said_outside(rt: &impl Abort, alloc: Global, read: Result<Outside, AstJsonError>) -> String {
    match read {
        Ok(Outside { document }) => said(rt, alloc, Ok(document)),
        Err(error) => said(rt, alloc, Err(error)),
    }
}

/// That the readings of a node say this, and so one by a kind of another crate.
fn check_node(
    rt: &impl Abort,
    alloc: Global,
    node: JsonNode<'_, '_>,
    read: &str,
    well_formed: &str,
) {
    let found = said(rt, alloc, Document::read_json(node));
    check_equal(rt, found.as_str(), read);
    let found = said_outside(rt, alloc, Outside::read_json(node));
    check_equal(rt, found.as_str(), read);
    let found = said_well_formed(rt, alloc, read_well_formed_json(node));
    check_equal(rt, found.as_str(), well_formed);
}

/// What the readings of JSON say, by a rule for what is unknown: of what was parsed the same as of
/// a value of `serde_json`, by its own reader and as a node, and so by a kind of another crate.
fn said_of_both(
    rt: &impl Abort,
    alloc: Global,
    value: &Parsed<'_>,
    json: &Json,
    unknown: Unknown,
) -> (String, String) {
    let source = FileId::new(1);
    let reader = NodeReader {
        alloc,
        json,
        source,
        unknown,
    };
    let read = said(rt, alloc, Document::read_ast_json(reader));
    let well_formed = said_well_formed(rt, alloc, read_well_formed_ast_json(reader));
    let parsed = JsonNode::parsed(alloc, value, source, unknown);
    check_node(rt, alloc, parsed, read.as_str(), well_formed.as_str());
    let owned = JsonNode::owned(alloc, json, source, unknown);
    check_node(rt, alloc, owned, read.as_str(), well_formed.as_str());
    (read, well_formed)
}

/// That a reading of a text by a kind of another crate says this.
fn check_outside(rt: &impl Abort, alloc: Global, text: &str, read: &str) {
    let outside = from_ast_json_str::<Outside>(alloc, text, FileId::new(1));
    let found = said_outside(rt, alloc, outside);
    check_equal(rt, found.as_str(), read);
}

/// That the readings of JSON say what those of its text do.
fn check_both(
    rt: &impl Abort,
    alloc: Global,
    (value, json): (&Parsed<'_>, &Json),
    read: &str,
    well_formed: &str,
) {
    let wanted = said_of_both(rt, alloc, value, json, Unknown::Refuse);
    check_equal(rt, read, wanted.0.as_str());
    check_equal(rt, well_formed, wanted.1.as_str());
    said_of_both(rt, alloc, value, json, Unknown::PassOver);
}

/// That the readings of a text that is no JSON say what `serde_json` does.
fn check_refused(
    rt: &impl Abort,
    alloc: Global,
    error: &serde_json::Error,
    read: &str,
    well_formed: &str,
) {
    let wanted = format!(in alloc; "not JSON: {error}").expect(rt, "memory");
    check_equal(rt, read, wanted.as_str());
    check_equal(rt, well_formed, wanted.as_str());
}

/// Whether a text is read alike in both forms, and by a kind that reads values of `serde_json` alone. A text that is not read is
/// refused as `serde_json` refuses it.
fn check(rt: &impl Abort, alloc: Global, text: &str) {
    let mut scratch = Scratch::new(alloc);
    let parsed = parse_json(alloc, text, &mut scratch).expect(rt, "memory");
    let (read, well_formed) = said_of_text(rt, alloc, text);
    let (read, well_formed) = (read.as_str(), well_formed.as_str());
    check_outside(rt, alloc, text, read);
    match (parsed, Json::from_str(alloc, text)) {
        (Some(value), Ok(json)) => check_both(rt, alloc, (&value, &json), read, well_formed),
        (None, Err(error)) => check_refused(rt, alloc, &error, read, well_formed),
        _ => panic!(rt; "read in one form alone"),
    }
}

/// The text with another piece in place of its character at an index.
fn changed(rt: &impl Abort, alloc: Global, text: &str, at: usize, piece: &str) -> String {
    let mut whole = String::new(alloc);
    for (index, character) in text.chars().enumerate() {
        if index == at {
            whole.push_str(piece).expect(rt, "memory");
        } else {
            whole.push(character).expect(rt, "memory");
        }
    }
    whole
}

/// What stands in place of a character at an index.
fn piece_at(at: usize) -> &'static str {
    match at % 6 {
        0 => "",
        1 => "\"",
        2 => "0",
        3 => "}",
        4 => "x",
        _ => ",\"kind\":1,",
    }
}

/// Whether a text of ASCII is read alike, and with each of its characters changed.
fn check_changes(rt: &impl Abort, alloc: Global, text: &str) {
    check(rt, alloc, text);
    for at in 0..text.len() {
        let changed = changed(rt, alloc, text, at, piece_at(at));
        check(rt, alloc, changed.as_str());
    }
}

/// Texts, whether each is read, and what a reading of a well-formed tree alone says of it.
const TEXTS: [(&str, bool, &str); 3] = [
    (
        UNKNOWN,
        false,
        "at `definitions[0]`, in a node from 0 to 9: \
         found a member `alpha`, which no ObjectTypeDefinition has",
    ),
    (
        TYPE,
        true,
        "\"\"\"\na\nb\u{e9}\n\"\"\"\ntype T {\n  f: [T]!\n}\n",
    ),
    (
        OPERATION,
        true,
        "at `definitions[0].selectionSet.selections[0].arguments[0].value.fields[0].value\
         .values[1].value`: a reserved enum value: `true`",
    ),
];

fn check_text(rt: &impl Abort, alloc: Global, text: &str, is_read: bool, wanted: &str) {
    let (read, well_formed) = said_of_text(rt, alloc, text);
    let read = read.as_str();
    check_equal(rt, well_formed.as_str(), wanted);
    check_equal(rt, Json::from_str(alloc, read).is_ok(), is_read);
    check_case(rt, read, is_read || read == wanted, true);
    check_changes(rt, alloc, text);
}

/// With unknown members and without: where they are refused, most texts that have them and are JSON are refused for one. The operation
/// is read, though it isn't well formed.
#[test]
fn both_forms_are_read_alike(rt: HostRuntime) {
    for (text, is_read, wanted) in TEXTS {
        check_text(&rt, rt.alloc(), text, is_read, wanted);
    }
}

/// Parts of texts, each with how often it comes, and whether the text nests too deep. 127 arrays stand in one another in both forms,
/// and 128 in neither; a number that is too large for a float is read in neither form.
const BOUNDS: [(&[(&str, usize)], bool); 9] = [
    (&[("[", 126), ("]", 126)], false),
    (&[("[", 127), ("]", 127)], false),
    (&[("[", 128), ("]", 128)], true),
    (&[("[", 129), ("]", 129)], true),
    (&[("1", 1), ("0", 307)], false),
    (&[("1", 1), ("0", 308)], false),
    (&[("1", 1), ("0", 309)], false),
    (&[("-1", 1), ("0", 309)], false),
    (
        &[
            ("{\"kind\":\"Document\",\"definitions\":[],\"x\":1", 1),
            ("0", 309),
            ("}", 1),
        ],
        false,
    ),
];

fn check_too_deep(rt: &impl Abort, alloc: Global, text: &str) {
    let (read, well_formed) = said_of_text(rt, alloc, text);
    check_case(rt, text, read.as_str(), TOO_DEEP);
    check_case(rt, text, well_formed.as_str(), TOO_DEEP);
}

fn check_bound(rt: &impl Abort, alloc: Global, parts: &[(&str, usize)], is_deep: bool) {
    let text = text_of(alloc, parts).expect(rt, "memory");
    if is_deep {
        check_too_deep(rt, alloc, text.as_str());
    } else {
        check(rt, alloc, text.as_str());
    }
    let read = from_ast_json_str::<Document>(alloc, text.as_str(), FileId::new(1));
    check_case(rt, &text, read.is_err(), true);
}

#[test]
fn depth_and_numbers_are_bounded_alike(rt: HostRuntime) {
    for (parts, is_deep) in BOUNDS {
        check_bound(&rt, rt.alloc(), parts, is_deep);
    }
}

/// What stands before and behind an offset of a location: in this order and another, beside a third member, and twice.
const LOCATIONS: [(&str, &str); 6] = [
    ("\"start\":0,\"end\":", ""),
    ("\"end\":8,\"start\":", ""),
    ("\"start\":", ",\"end\":8"),
    ("\"end\":", ",\"start\":0"),
    ("\"start\":0,\"line\":1,\"end\":", ""),
    ("\"start\":9,\"end\":2,\"start\":", ""),
];

/// Numbers of a location in each form that JSON has for them, and what is no number.
const OFFSETS: [&str; 25] = [
    "7",
    "9",
    "0",
    "-0",
    "7.0",
    "7e0",
    "0.7e1",
    "70e-1",
    "1e2",
    "7.5",
    "-1",
    "4294967295",
    "4294967296",
    "18446744073709551615",
    "18446744073709551616",
    "1e400",
    "\"7\"",
    "null",
    "true",
    "[]",
    "{}",
    "07",
    "+7",
    ".7",
    "7.",
];

/// A document before and behind the members of its definition's location. That of the document
/// itself would be left out of what is read.
const GIVEN: (&str, &str) = (
    r#"{"kind":"Document","definitions":[{"name":{"kind":"Name","value":"S"},"loc":{"#,
    r#"},"kind":"ScalarTypeDefinition"}]}"#,
);

/// The same as it is written.
const WRITTEN: (&str, &str) = (
    r#"{"definitions":[{"directives":[],"kind":"ScalarTypeDefinition","loc":{"#,
    r#"},"name":{"kind":"Name","value":"S"}}],"kind":"Document"}"#,
);

/// And what is told of it where the location is refused.
const REFUSED: (&str, &str) = ("at `definitions[0].loc`", "");

/// Members of a location, and what is said of the document. Of two of one name the last counts.
const SAID: [(&str, (&str, &str), &str); 9] = [
    (r#""start":0,"end":7"#, WRITTEN, r#""end":7,"start":0"#),
    (r#""end":8,"start":7"#, WRITTEN, r#""end":8,"start":7"#),
    (r#""start":3,"end":3"#, WRITTEN, r#""end":3,"start":3"#),
    (
        r#""start":9,"end":2,"start":0"#,
        WRITTEN,
        r#""end":2,"start":0"#,
    ),
    (
        r#""end":4294967295,"end":6,"start":1,"end":4294967295"#,
        WRITTEN,
        r#""end":4294967295,"start":1"#,
    ),
    (
        r#""start":0,"start":9,"end":2"#,
        REFUSED,
        ": found a location from 9 to 2, which starts after its end",
    ),
    (
        r#""end":7,"start":8"#,
        REFUSED,
        ": found a location from 8 to 7, which starts after its end",
    ),
    (
        r#""start":0,"line":1,"end":7"#,
        REFUSED,
        ", in a node from 0 to 7: found a member `line`, which no location has",
    ),
    (
        r#""start":0"#,
        REFUSED,
        ": found no member `end`, which each location has",
    ),
];

/// A text between two others.
fn around(rt: &impl Abort, alloc: Global, ends: (&str, &str), text: &str) -> String {
    let (before, behind) = ends;
    format!(in alloc; "{before}{text}{behind}").expect(rt, "memory")
}

/// Texts with members that are unknown, of which the first in the order of the alphabet is told, wherever they stand.
const UNKNOWN_MEMBERS: [(&str, &str); 6] = [
    (
        r#"{"kind":"Document","z":1,"definitions":[],"b":2,"m":3}"#,
        "at the root: found a member `b`, which no Document has",
    ),
    (
        r#"{"b":1,"definitions":[],"a":2,"kind":"Document","a":3}"#,
        "at the root: found a member `a`, which no Document has",
    ),
    (
        r#"{"kind":"Document","definitions":[],"b":[1,{}],"\u0061b":{"a":1}}"#,
        "at the root: found a member `ab`, which no Document has",
    ),
    (
        r#"{"definitions":[],"definitions":[],"kind":"Document","Kind":1,"":2}"#,
        "at the root: found a member an empty text, which no Document has",
    ),
    (
        r#"{"kind":"Document","definitions":[],"loc":{"start":0,"z":1,"end":2,"b":3}}"#,
        "at `loc`, in a node from 0 to 2: found a member `b`, which no location has",
    ),
    (
        r#"{"kind":"Document","definitions":[{"name":{"kind":"Name","value":"S","x":1,"k":2},
        "kind":"ScalarTypeDefinition"}]}"#,
        "at `definitions[0].name`: found a member `k`, which no Name has",
    ),
];

/// What is said of a text stands written out, for both forms could be read wrongly alike.
fn check_said(rt: &impl Abort, alloc: Global, text: &str, wanted: &str) {
    check(rt, alloc, text);
    let (read, _) = said_of_text(rt, alloc, text);
    check_case(rt, &text, read.as_str(), wanted);
}

/// What is read of a location whose members stand between these.
fn check_location(rt: &impl Abort, alloc: Global, ends: (&str, &str), offset: &str) {
    let members = around(rt, alloc, ends, offset);
    let text = around(rt, alloc, GIVEN, members.as_str());
    check(rt, alloc, text.as_str());
}

fn check_locations(rt: &impl Abort, alloc: Global) {
    for offset in OFFSETS {
        for ends in LOCATIONS {
            check_location(rt, alloc, ends, offset);
        }
    }
}

/// What is said of a document whose definition has these members of a location.
fn check_members(rt: &impl Abort, alloc: Global, members: &str, ends: (&str, &str), told: &str) {
    let text = around(rt, alloc, GIVEN, members);
    let wanted = around(rt, alloc, ends, told);
    check_said(rt, alloc, text.as_str(), wanted.as_str());
}

/// What is read of a location is written with its definition, and so is compared too.
#[test]
fn locations_and_unknown_members_are_read_alike(rt: HostRuntime) {
    let alloc = rt.alloc();
    check_locations(&rt, alloc);
    for (members, ends, told) in SAID {
        check_members(&rt, alloc, members, ends, told);
    }
    for (text, wanted) in UNKNOWN_MEMBERS {
        check_said(&rt, alloc, text, wanted);
    }
}
