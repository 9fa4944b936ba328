//! Lines and columns of source texts.
use crate::samples::source_file;
use graphql_ast::ast::{Document, LineColumn, SourceFile};
use graphql_ast::span::{FileId, SourceSpan};
use std::alloc::{AllocError, Global};
use std::process::Abort;

fn position((line, column): (usize, usize)) -> LineColumn {
    LineColumn { line, column }
}

/// Parts of a text, each with how often it comes, and the line and the column at offsets in it.
type Text = (
    &'static [(&'static str, usize)],
    &'static [(usize, Option<(usize, usize)>)],
);

const SHORT_TEXTS: [Text; 11] = [
    (&[], &[(0, Some((1, 1))), (1, None)]),
    // at the end, and behind it
    (
        &[("ab", 1)],
        &[
            (0, Some((1, 1))),
            (1, Some((1, 2))),
            (2, Some((1, 3))),
            (3, None),
            (18446744073709551615, None),
        ],
    ),
    // within a character of two bytes, and behind it
    (
        &[("é\nb", 1)],
        &[(1, None), (2, Some((1, 2))), (3, Some((2, 1)))],
    ),
    // behind a character of four bytes
    (&[("\u{1F600}b", 1)], &[(4, Some((1, 2)))]),
    (&[("a\rb", 1)], &[(2, Some((2, 1)))]),
    // before a CR with a LF, between both, and behind them
    (
        &[("a\r\nb", 1)],
        &[
            (1, Some((1, 2))),
            (2, Some((2, 1))),
            (3, Some((2, 1))),
            (4, Some((2, 2))),
        ],
    ),
    // line terminators in a row
    (&[("\r\r", 1)], &[(2, Some((3, 1)))]),
    (&[("\n\r", 1)], &[(2, Some((3, 1)))]),
    (&[("\n\r\r\n", 1)], &[(4, Some((4, 1)))]),
    // a form feed and U+2028 are no line terminators
    (&[("a\u{C}b", 1)], &[(3, Some((1, 4)))]),
    (&[("a\u{2028}b", 1)], &[(4, Some((1, 3)))]),
];

/// Bytes are counted 240 at a time, from the front and from the offset, and texts of fewer than 64 bytes are gone through by
/// their characters.
const LONG_TEXTS: [Text; 35] = [
    // a CR as byte 240 and a LF as byte 241
    (
        &[("a", 239), ("\r\n", 1), ("b", 9)],
        &[
            (239, Some((1, 240))),
            (240, Some((2, 1))),
            (241, Some((2, 1))),
            (242, Some((2, 2))),
        ],
    ),
    // a CR as byte 480 and a LF as byte 481
    (
        &[("a", 479), ("\r\n", 1), ("b", 9)],
        &[
            (480, Some((2, 1))),
            (481, Some((2, 1))),
            (482, Some((2, 2))),
        ],
    ),
    // a LF, and a CR, as byte 240, and as byte 241
    (
        &[("a", 239), ("\n", 1), ("b", 9)],
        &[(240, Some((2, 1))), (241, Some((2, 2)))],
    ),
    (
        &[("a", 239), ("\r", 1), ("b", 9)],
        &[(240, Some((2, 1))), (241, Some((2, 2)))],
    ),
    (
        &[("a", 240), ("\n", 1), ("b", 9)],
        &[
            (240, Some((1, 241))),
            (241, Some((2, 1))),
            (242, Some((2, 2))),
        ],
    ),
    (
        &[("a", 240), ("\r", 1), ("b", 9)],
        &[
            (240, Some((1, 241))),
            (241, Some((2, 1))),
            (242, Some((2, 2))),
        ],
    ),
    // two line terminators on both sides
    (
        &[("a", 239), ("\r\r", 1), ("b", 9)],
        &[
            (240, Some((2, 1))),
            (241, Some((3, 1))),
            (242, Some((3, 2))),
        ],
    ),
    (
        &[("a", 239), ("\n\r\n", 1), ("b", 9)],
        &[
            (240, Some((2, 1))),
            (241, Some((3, 1))),
            (242, Some((3, 1))),
            (243, Some((3, 2))),
        ],
    ),
    // characters cut 240 and 480 bytes before the offset
    (&[("é", 260), ("a", 1)], &[(521, Some((1, 262)))]),
    (&[("\u{65E5}", 170), ("a", 1)], &[(511, Some((1, 172)))]),
    (&[("\u{65E5}", 170), ("a", 2)], &[(512, Some((1, 173)))]),
    (&[("\u{1F600}", 130), ("a", 1)], &[(521, Some((1, 132)))]),
    (&[("\u{1F600}", 130), ("a", 2)], &[(522, Some((1, 133)))]),
    (&[("\u{1F600}", 130), ("a", 3)], &[(523, Some((1, 134)))]),
    // last lines longer than one part of 240 bytes, and than two
    (&[("a", 1), ("\n", 1), ("b", 300)], &[(302, Some((2, 301)))]),
    (
        &[("a", 1), ("\r\n", 1), ("b", 500)],
        &[(503, Some((2, 501)))],
    ),
    (&[("\u{65E5}\r", 1), ("é", 200)], &[(404, Some((2, 201)))]),
    // a line that ends 239, 240 and 241 bytes before the offset
    (
        &[("a", 1), ("\n", 1), ("b", 241)],
        &[
            (241, Some((2, 240))),
            (242, Some((2, 241))),
            (243, Some((2, 242))),
        ],
    ),
    (
        &[("a", 1), ("\r", 1), ("b", 241)],
        &[
            (241, Some((2, 240))),
            (242, Some((2, 241))),
            (243, Some((2, 242))),
        ],
    ),
    (
        &[("a", 1), ("\r\n", 1), ("b", 241)],
        &[
            (242, Some((2, 240))),
            (243, Some((2, 241))),
            (244, Some((2, 242))),
        ],
    ),
    // nothing but line terminators
    (
        &[("\n", 480)],
        &[
            (239, Some((240, 1))),
            (240, Some((241, 1))),
            (480, Some((481, 1))),
        ],
    ),
    (
        &[("\r", 480)],
        &[(240, Some((241, 1))), (480, Some((481, 1)))],
    ),
    (
        &[("\r\n", 240)],
        &[
            (239, Some((121, 1))),
            (240, Some((121, 1))),
            (479, Some((241, 1))),
            (480, Some((241, 1))),
        ],
    ),
    // many lines
    (&[("\u{65E5}\u{672C}a\r\n", 100)], &[(900, Some((101, 1)))]),
    (
        &[("abc\n", 200), ("é", 30)],
        &[(800, Some((201, 1))), (860, Some((201, 31)))],
    ),
    // around 64 bytes
    (
        &[("a", 70)],
        &[
            (63, Some((1, 64))),
            (64, Some((1, 65))),
            (65, Some((1, 66))),
        ],
    ),
    (
        &[("a", 62), ("\r\n", 1), ("b", 9)],
        &[(63, Some((2, 1))), (64, Some((2, 1))), (65, Some((2, 2)))],
    ),
    (
        &[("a", 63), ("\r\n", 1), ("b", 9)],
        &[(64, Some((2, 1))), (65, Some((2, 1))), (66, Some((2, 2)))],
    ),
    (&[("é\n", 30)], &[(63, Some((22, 1))), (66, Some((23, 1)))]),
    // characters within which 240 bytes end
    (
        &[("a", 239), ("é", 1), ("b", 9)],
        &[(240, None), (241, Some((1, 241)))],
    ),
    (
        &[("a", 238), ("\u{65E5}", 1), ("b", 9)],
        &[(240, None), (241, Some((1, 240)))],
    ),
    (
        &[("a", 239), ("\u{65E5}", 1), ("b", 9)],
        &[(240, None), (242, Some((1, 241)))],
    ),
    (
        &[("a", 237), ("\u{1F600}", 1), ("b", 9)],
        &[(240, None), (241, Some((1, 239)))],
    ),
    (
        &[("a", 238), ("\u{1F600}", 1), ("b", 9)],
        &[(240, None), (242, Some((1, 240)))],
    ),
    (
        &[("a", 239), ("\u{1F600}", 1), ("b", 9)],
        &[(240, None), (243, Some((1, 241)))],
    ),
];

/// A source text of these parts, each as often as said.
fn file_of(alloc: Global, parts: &[(&str, usize)]) -> Result<SourceFile, AllocError> {
    let mut file = source_file(alloc, "a", "")?;
    for (part, count) in parts {
        for _ in 0..*count {
            file.text.push_str(part)?;
        }
    }
    Ok(file)
}

/// A document of two files: number 3 has two lines, number 4 one.
fn of_two_files(alloc: Global) -> Result<Document, AllocError> {
    let mut document = Document::new(alloc);
    let first = source_file(alloc, "a.graphql", "{\n a }")?;
    document.sources.insert(FileId::new(3), first)?;
    let second = source_file(alloc, "b.graphql", "type é")?;
    document.sources.insert(FileId::new(4), second)?;
    Ok(document)
}

/// That each text has these lines and columns at these offsets.
fn check_texts(rt: &impl Abort, alloc: Global, texts: &[Text]) {
    for (parts, places) in texts {
        let file = file_of(alloc, parts).expect(rt, "memory");
        check_places(rt, &file, places);
    }
}

fn check_places(rt: &impl Abort, file: &SourceFile, places: &[(usize, Option<(usize, usize)>)]) {
    for (offset, wanted) in places {
        assert_eq!(rt;
            file.line_column(*offset),
            wanted.map(position),
            "at {offset} of {:?}",
            file.text
        );
    }
}

fn check_start(
    rt: &impl Abort,
    document: &Document,
    file: u64,
    start: u32,
    wanted: Option<(usize, usize)>,
) {
    let span = SourceSpan::new(FileId::new(file), start, 20).expect(rt, "a span");
    assert_eq!(rt;
        document.line_column(span),
        wanted.map(position),
        "{file}: {start}"
    );
}

/// In source texts, and in documents by the files of their locations.
#[test]
fn of_offsets(rt: HostRuntime) {
    check_texts(&rt, rt.alloc(), &SHORT_TEXTS);
    check_texts(&rt, rt.alloc(), &LONG_TEXTS);
    let document = of_two_files(rt.alloc()).expect(&rt, "memory");
    for (file, start, wanted) in [
        (3, 0, Some((1, 1))),
        (3, 3, Some((2, 2))),
        (4, 5, Some((1, 6))),
        // within a character, behind the text, and of no file that the document has
        (4, 6, None),
        (3, 7, None),
        (5, 0, None),
    ] {
        check_start(&rt, &document, file, start, wanted);
    }
}
