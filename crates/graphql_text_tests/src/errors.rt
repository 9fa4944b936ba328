//! What errors of a print, faults of a sink, and side conditions that are broken say.

use crate::checks::{check_case, check_equal, check_made};
use graphql_base::name;
use graphql_base::span::{FileId, SourceSpan};
use graphql_text::engine::PrintError;
use graphql_text::ill_formed::{IllFormed, SideCondition, ill_formed_unless};
use graphql_text::sink::SinkFault;

/// The errors of a print, what each says, and whether it is for memory.
const ERRORS: [(PrintError, &str, bool); 3] = [
    (
        PrintError::LevelOverflow,
        "indentation level overflow",
        false,
    ),
    (PrintError::Memory, "out of memory", true),
    (PrintError::Sink, "the writer failed", false),
];

/// Each is equal to itself alone.
#[test]
fn what_errors_say(rt: HostRuntime) {
    for (error, text, is_memory) in ERRORS {
        check_case(&rt, &text, error.is_memory(), is_memory);
        check_made(&rt, format!(in rt.alloc(); "{error}"), text);
        for (other, other_text, _) in ERRORS {
            let is_same = text == other_text;
            assert_eq!(rt; error == other, is_same, "{text}, {other_text}");
        }
    }
    let wanted = "the writer failed";
    check_made(&rt, format!(in rt.alloc(); "{SinkFault}"), wanted);
    assert!(rt; SinkFault == SinkFault);
}

/// A side condition, and what is wrong where it is broken.
const CONDITIONS: [(SideCondition, &str); 8] = [
    (
        SideCondition::HasDefinition,
        "a document without a definition",
    ),
    (SideCondition::HasSelection, "an empty selection set"),
    (SideCondition::IsNotOn, "a fragment named `on`"),
    (SideCondition::IsNotReserved, "a reserved enum value"),
    (
        SideCondition::IsConstant,
        "a variable where only constants may stand",
    ),
    (
        SideCondition::HasLocation,
        "a directive definition without a location",
    ),
    (
        SideCondition::HasRootOperation,
        "a schema definition without a root operation",
    ),
    (
        SideCondition::AddsSomething,
        "an extension that adds nothing",
    ),
];

fn location(start: u32, end: u32) -> Option<SourceSpan> {
    SourceSpan::new(FileId::new(1), start, end)
}

#[test]
fn what_is_ill_formed(rt: HostRuntime) {
    let alloc = rt.alloc();
    let name = name!(A);
    for (condition, wanted) in CONDITIONS {
        check_made(&rt, format!(in alloc; "{condition}"), wanted);
        let nameless = IllFormed {
            condition,
            name: None,
            around: None,
        };
        check_made(&rt, format!(in alloc; "{nameless}"), wanted);
        assert!(rt; ill_formed_unless(true, condition, Some(&name)).is_none());
        let found = ill_formed_unless(false, condition, Some(&name)).expect(&rt, "a flaw");
        check_equal(&rt, found.location(), None);
        let named = format!(in alloc; "{wanted}: `A`").expect(&rt, "memory");
        check_made(&rt, format!(in alloc; "{found}"), named.as_str());
    }
    let named = IllFormed {
        condition: SideCondition::AddsSomething,
        name: Some(&name),
        around: None,
    };
    let wanted = "an extension that adds nothing: `A`";
    check_made(&rt, format!(in alloc; "{named}"), wanted);
    // the innermost node that has a location is the one that is told
    let (inner, outer) = (location(1, 2), location(0, 3));
    for (locations, wanted) in [
        ([None, None], None),
        ([None, outer], outer),
        ([inner, None], inner),
        ([inner, outer], inner),
    ] {
        let [first, second] = locations;
        check_equal(&rt, &named.within(first).within(second).around, &wanted);
    }
}
