//! What a run ends with, and what both writers have taken.
use crate::fakes::{Page, Source, run_on};
use crate::samples::{EMPTY, ILL_FORMED, ILL_FORMED_SOURCE, NO_TREE, QUERY, UNKNOWN};
use graphql_ast::document::SourceFile;
use std::alloc::Global;
use std::process::Abort;
use std::test::Fail;

/// The words of a run that ends well, what it reads, and what stands on standard output.
type Done = (&'static [&'static str], &'static str, &'static str);

/// Those of a run that writes nothing on standard output: its exit status, and what stands on standard error.
type Refused = (&'static [&'static str], &'static str, u8, &'static str);

/// Asserts that a run ends as it should, also where the reader gives one byte a call.
fn check_run(
    rt: &impl Abort,
    alloc: Global,
    words: &'static [&'static str],
    text: &'static str,
    wanted: (u8, &str, &str),
) -> Result<(), Fail> {
    for input in [Source::new(text), Source::slow(text)] {
        let (out, err) = (Page::new(), Page::new());
        let (status, out, err) = run_on(alloc, words, input, None, out, err)?;
        assert!(rt; err.holds(wanted.2));
        assert!(rt; out.holds(wanted.1));
        assert_eq!(rt; status, wanted.0);
    }
    Ok(())
}

const TWO_SPACES: &str = "{\n  a {\n    b\n  }\n}\n";

const AT_LEVEL_1: &str = "  query {\n    a {\n      b\n    }\n  }\n";

const JSON: &str =
    r#"{"definitions":[{"directives":[],"kind":"ScalarTypeDefinition","name":{"kind":"Name","value":"S"}},{"directives":[],"kind":"ScalarTypeDefinition","name":{"kind":"Name","value":"T"}}],"kind":"Document"}
"#;

const LAYOUTS: [Done; 12] = [
    (&[], QUERY, TWO_SPACES),
    (&["-"], QUERY, TWO_SPACES),
    (&["--indent", "2"], QUERY, TWO_SPACES),
    (&["--indent", "0"], QUERY, "{\na {\nb\n}\n}\n"),
    (&["--indent=1", "a.json"], QUERY, "{\n a {\n  b\n }\n}\n"),
    (
        &["--indent=16"],
        QUERY,
        "{\n                a {\n                                b\n                }\n}\n",
    ),
    (&["--tabs"], QUERY, "{\n\ta {\n\t\tb\n\t}\n}\n"),
    (&["--one-line"], QUERY, "{ a { b } }\n"),
    (&["--level", "1"], QUERY, AT_LEVEL_1),
    (&["--level", "0"], QUERY, TWO_SPACES),
    (&["--one-line", "--level", "65535"], QUERY, "{ a { b } }\n"),
    (
        &["--tabs", "--level=2"],
        QUERY,
        "\t\tquery {\n\t\t\ta {\n\t\t\t\tb\n\t\t\t}\n\t\t}\n",
    ),
];

const TASKS: [Done; 10] = [
    (&["--check"], QUERY, ""),
    (&["--pass-over-unknown"], UNKNOWN, "scalar S\n\nscalar T\n"),
    (
        &["--pass-over-unknown", "--one-line"],
        UNKNOWN,
        "scalar S scalar T\n",
    ),
    (&["--pass-over-unknown", "--json"], UNKNOWN, JSON),
    (
        &["--allow-ill-formed", "--one-line"],
        ILL_FORMED,
        "fragment on on T {} scalar S extend scalar S\n",
    ),
    (&["--allow-ill-formed"], EMPTY, ""),
    (&["--allow-ill-formed", "--one-line"], EMPTY, "\n"),
    (
        &["--allow-ill-formed", "--json", "--indent", "2"],
        EMPTY,
        "{\n  \"definitions\": [],\n  \"kind\": \"Document\"\n}\n",
    ),
    (
        &["--allow-ill-formed", "--json", "--indent", "3"],
        EMPTY,
        "{\n   \"definitions\": [],\n   \"kind\": \"Document\"\n}\n",
    ),
    (
        &["--allow-ill-formed", "--json", "--indent", "0"],
        EMPTY,
        "{\n\"definitions\": [],\n\"kind\": \"Document\"\n}\n",
    ),
];

const FLAWS: &str = "\
graphql_print: standard input: at `definitions[0].name.value`, in a node from 9 to 11: a fragment named `on`: `on`
graphql_print: standard input: at `definitions[0].selectionSet`, in a node from 9 to 11: an empty selection set: `on`
graphql_print: standard input: at `definitions[2]`, in a node from 22 to 37: an extension that adds nothing: `S`
";

const NO_DEFINITION: &str =
    "graphql_print: standard input: at the root: a document without a definition\n";

const UNKNOWN_MEMBER: &str =
    "graphql_print: a.json: at `definitions[0]`: found a member `more`, which no ScalarTypeDefinition has\n";

const WRONG_NAME: &str =
    "graphql_print: standard input: at `definitions[0].name`, in a node from 4 to 9: found a number where an object was wanted\n";

const REFUSED: [Refused; 9] = [
    (&[], ILL_FORMED, 1, FLAWS),
    (&["--check"], ILL_FORMED, 1, FLAWS),
    (&["--json"], ILL_FORMED, 1, FLAWS),
    (&[], EMPTY, 1, NO_DEFINITION),
    (&["a.json"], UNKNOWN, 3, UNKNOWN_MEMBER),
    (&["--allow-ill-formed"], NO_TREE, 3, WRONG_NAME),
    (&["--check"], NO_TREE, 3, WRONG_NAME),
    (
        &[],
        "{\"kind\":}",
        3,
        "graphql_print: standard input: not JSON: invalid JSON at line 1 column 9\n",
    ),
    (
        &[],
        "",
        3,
        "graphql_print: standard input: not JSON: EOF while parsing at line 1 column 0\n",
    ),
];

/// A document is printed in each layout, what else is asked for is done, and what is wrong is told.
#[test]
fn what_is_asked_for_is_done_and_what_is_wrong_is_told(rt: HostRuntime) -> Result<(), Fail> {
    for (words, input, out) in LAYOUTS {
        check_run(&rt, rt.alloc(), words, input, (0, out, ""))?;
    }
    for (words, input, out) in TASKS {
        check_run(&rt, rt.alloc(), words, input, (0, out, ""))?;
    }
    for (words, input, status, err) in REFUSED {
        check_run(&rt, rt.alloc(), words, input, (status, "", err))?;
    }
    Ok(())
}

const LOCATED: &str = "\
graphql_print: standard input: at `definitions[0].name.value` in b.graphql:1:10: a fragment named `on`: `on`
graphql_print: standard input: at `definitions[0].selectionSet` in b.graphql:1:10: an empty selection set: `on`
graphql_print: standard input: at `definitions[2]` in b.graphql:3:1: an extension that adds nothing: `S`
";

#[test]
fn lines_and_columns_are_told_where_the_text_is_at_hand(rt: HostRuntime) -> Result<(), Fail> {
    let alloc = rt.alloc();
    let file = SourceFile {
        path: String::from_str(alloc, "b.graphql")?,
        text: String::from_str(alloc, ILL_FORMED_SOURCE)?,
    };
    let input = Source::new(ILL_FORMED);
    let (out, err) = (Page::new(), Page::new());
    let (status, out, err) = run_on(alloc, &["--check"], input, Some(&file), out, err)?;
    assert!(&rt; err.holds(LOCATED));
    assert!(&rt; out.holds(""));
    assert_eq!(&rt; status, 1);
    Ok(())
}
