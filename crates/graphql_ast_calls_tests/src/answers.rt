//! What calls answer with ample memory.
use crate::checks::check_case;
use crate::samples::{ILL_FORMED, NO_JSON, QUERY};
use graphql_ast_calls::{Status, check_json, print_json, print_value_json, write_json};
use std::alloc::Global;
use std::process::Abort;

/// Prints of a document over several lines into a buffer with room for it: the prefix, the level, the status and the text.
const PRINTS: [(&str, &str, usize, Status, &str); 8] = [
    (QUERY, "  ", 0, Status::Done, "{\n  a\n}\n"),
    (QUERY, "\t", 1, Status::Done, "\tquery {\n\t\ta\n\t}\n"),
    (
        NO_JSON,
        "  ",
        0,
        Status::NotJson,
        "not JSON: invalid JSON at line 1 column 40",
    ),
    (
        "7",
        "  ",
        0,
        Status::NoTree,
        "at the root: found a number where an object was wanted",
    ),
    (
        ILL_FORMED,
        "  ",
        0,
        Status::IllFormed,
        "at `definitions[1].name.value`: a fragment named `on`: `on`",
    ),
    (
        "{\"kind\":\"Document\",\"definitions\":[]}",
        "  ",
        0,
        Status::IllFormed,
        "at the root: a document without a definition",
    ),
    (
        QUERY,
        "",
        usize::MAX,
        Status::LevelOverflow,
        "indentation level overflow",
    ),
    (
        QUERY,
        " \n",
        0,
        Status::WrongPrefix,
        "the prefix has other bytes than spaces and tabs",
    ),
];

const CODES: [(Status, u32); 8] = [
    (Status::Done, 0),
    (Status::TooShort, 1),
    (Status::NotJson, 2),
    (Status::NoTree, 3),
    (Status::IllFormed, 4),
    (Status::LevelOverflow, 5),
    (Status::OutOfMemory, 6),
    (Status::WrongPrefix, 7),
];

/// The calls beside `print_json`.
#[derive(Clone, Copy, PartialEq, Eq, Debug)]
enum Call {
    PrintValue,
    Check,
    Write,
}

const VALUE: &[u8] = b"{\"kind\":\"EnumValue\",\"value\":\"A\"}";

const WRONG_KIND: &str = "{\"kind\":\"\u{e4}\"}";

/// What is said of it, and what of that fits into 28 bytes, which would end within a character.
const WHOLE: &str = "at `kind`: found the kind `\u{e4}` where Document was wanted";

const CUT: &str = "at `kind`: found the kind `";

const GIVEN: &[u8] = b"{\"kind\":\"Document\",\"loc\":null,\"definitions\":[]}";

const NORMAL: &str = "{\"definitions\":[],\"kind\":\"Document\"}";

const NO_TEXT: &str = "not JSON: invalid JSON at line 1 column 2";

/// What a call is given, the bytes of the buffer, the status, the length that is told, and what stands at the buffer's front.
type Row = (
    Call,
    &'static [u8],
    usize,
    Status,
    Option<usize>,
    Option<&'static str>,
);

/// Each call by a text, and by one that doesn't fit or a message that is cut.
fn rows() -> [Row; 8] {
    let (query, wrong) = (QUERY.as_bytes(), WRONG_KIND.as_bytes());
    let (whole, normal) = (Some(WHOLE.len()), Some(NORMAL.len()));
    let no_text = Some(NO_TEXT.len());
    [
        (
            Call::PrintValue,
            VALUE,
            400,
            Status::Done,
            Some(1),
            Some("A"),
        ),
        (Call::PrintValue, VALUE, 0, Status::TooShort, Some(1), None),
        (Call::Check, query, 400, Status::Done, Some(0), Some("")),
        (Call::Check, wrong, 28, Status::NoTree, whole, Some(CUT)),
        (Call::Write, GIVEN, 400, Status::Done, normal, Some(NORMAL)),
        (Call::Write, GIVEN, 5, Status::TooShort, normal, None),
        (Call::Write, b"{", 400, Status::NotJson, None, None),
        (
            Call::Write,
            b"\"\xff\"",
            400,
            Status::NotJson,
            no_text,
            Some(NO_TEXT),
        ),
    ]
}

/// Whether the front of a buffer is this text, and the rest as it was.
fn check_front(rt: &impl Abort, out: &[u8], text: &str) {
    for (index, byte) in out.iter().enumerate() {
        let wanted = text.as_bytes().get(index).copied();
        check_case(rt, text, *byte, wanted.unwrap_or(b'#'));
    }
}

/// The status of a call into a buffer, and the length that it tells.
fn called(alloc: Global, call: Call, json: &[u8], out: &mut [u8]) -> (Status, usize) {
    let mut needed = 0usize;
    let status = match call {
        Call::PrintValue => print_value_json(alloc, json, false, b"", 0, false, out, &mut needed),
        Call::Check => check_json(alloc, json, false, out, &mut needed),
        Call::Write => write_json(alloc, json, false, out, &mut needed),
    };
    (status, needed)
}

/// The answer of a call into so many bytes.
fn check_answer(
    rt: &impl Abort,
    call: Call,
    room: usize,
    found: (Status, usize),
    wanted: (Status, usize),
) {
    assert_eq!(rt; found, wanted, "{call:?} with {room} bytes");
}

fn check_call(rt: &impl Abort, alloc: Global, row: Row) {
    let (call, json, room, status, length, front) = row;
    let mut buffer = [b'#'; 400];
    let out = buffer.get_mut(..room).expect(rt, "room");
    let (found, needed) = called(alloc, call, json, out);
    let wanted = (status, length.unwrap_or(needed));
    check_answer(rt, call, room, (found, needed), wanted);
    if let Some(text) = front {
        check_front(rt, out, text);
    }
}

/// A document over several lines, with this prefix and at this level.
fn check_print(
    rt: &impl Abort,
    alloc: Global,
    json: &str,
    (prefix, level): (&str, usize),
    (status, text): (Status, &str),
) {
    let mut out = [b'#'; 100];
    let mut needed = 0usize;
    let found = print_json(
        alloc,
        json.as_bytes(),
        true,
        prefix.as_bytes(),
        level,
        false,
        &mut out,
        &mut needed,
    );
    check_case(rt, text, (found, needed), (status, text.len()));
    check_front(rt, &out, text);
}

fn check_prints(rt: &impl Abort, alloc: Global) {
    for (json, prefix, level, status, text) in PRINTS {
        check_print(rt, alloc, json, (prefix, level), (status, text));
    }
}

fn check_codes(rt: &impl Abort) {
    for (status, code) in CODES {
        assert_eq!(rt; status.code(), code, "{status:?}");
    }
}

/// Prints and the other calls answer each status, and tell of buffers that are too short.
#[test]
fn calls_answer_each_status(rt: HostRuntime) {
    check_prints(&rt, rt.alloc());
    for row in rows() {
        check_call(&rt, rt.alloc(), row);
    }
    check_codes(&rt);
}
