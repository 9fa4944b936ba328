//! Calls that meet a refused growth, wherever it comes: the answer is the refusal, or that of an
//! undisturbed call. `rt try --test --fail-alloc N` refuses the Nth growth of each test.
use crate::checks::{check_case, check_equal, check_text};
use graphql_base::name::{InvalidNameError, Name, NameError};
use graphql_base::node::{Node, NodeStr};
use graphql_base::span::{FileId, SourceSpan};
use std::alloc::{AllocError, Global};
use std::process::Abort;
use std::rc::RcStr;

fn placed(alloc: Global) -> Result<Node<String>, AllocError> {
    let text = String::from_str(alloc, "old")?;
    Node::new_at(alloc, text, SourceSpan::new(FileId::new(5), 10, 13))
}

fn check_placed(rt: &impl Abort, node: &Node<String>, text: &str) {
    check_equal(
        rt,
        (node.as_str(), node.location()),
        (text, SourceSpan::new(FileId::new(5), 10, 13)),
    );
}

/// Empties the text, and answers what it is then.
fn empty(node: &mut Node<String>, alloc: Global) -> &'static str {
    match node.make_mut() {
        Ok(text) => {
            *text = String::new(alloc);
            ""
        }
        Err(AllocError) => "old",
    }
}

/// Of one owner no memory is asked.
/// Allocations: 6.
#[test]
fn make_mut_changes_one_node_or_none(rt: HostRuntime) {
    let Ok(first) = placed(rt.alloc()) else {
        return;
    };
    let Ok(mut second) = first.clone() else {
        return;
    };
    let text = empty(&mut second, rt.alloc());
    check_placed(&rt, &second, text);
    check_placed(&rt, &first, "old");
    let Ok(mut alone) = placed(rt.alloc()) else {
        return;
    };
    check_case(&rt, "one owner", empty(&mut alone, rt.alloc()), "");
    check_placed(&rt, &alone, "");
}

fn placed_text(alloc: Global) -> Result<NodeStr, AllocError> {
    match SourceSpan::new(FileId::new(5), 10, 14) {
        Some(span) => NodeStr::new_str_parsed(alloc, "text", span),
        None => NodeStr::new_str(alloc, "text"),
    }
}

fn check_placed_text(rt: &impl Abort, node: &NodeStr) {
    check_equal(
        rt,
        (node.as_str(), node.location()),
        ("text", SourceSpan::new(FileId::new(5), 10, 14)),
    );
}

/// A node, or none where memory was refused: its number, and where it stands.
fn check_beside(
    rt: &impl Abort,
    made: Result<Node<u8>, AllocError>,
    number: u8,
    location: Option<SourceSpan>,
) {
    if let Ok(node) = made {
        check_equal(rt, (*node, node.location()), (number, location));
    }
}

/// Texts are placed and cloned too.
/// Allocations: 10.
#[test]
fn nodes_and_texts_are_made_or_refused(rt: HostRuntime) {
    let alloc = rt.alloc();
    if let Ok(node) = placed(alloc) {
        let location = node.location();
        check_beside(&rt, node.same_location(alloc, 1u8), 1, location);
        check_beside(&rt, Node::new_at(alloc, 2u8, location), 2, location);
        check_placed(&rt, &node, "old");
    }
    if let Ok(text) = NodeStr::new_str(alloc, "text") {
        if let Ok(copy) = text.to_text(alloc) {
            check_text(&rt, copy.as_str(), "text");
        }
        check_text(&rt, text.as_str(), "text");
    }
    if let Ok(text) = placed_text(alloc) {
        check_beside(&rt, text.same_location(alloc, 1u8), 1, text.location());
        check_placed_text(&rt, &text);
        if let Ok(copy) = text.clone() {
            check_placed_text(&rt, &copy);
        }
        check_placed_text(&rt, &text);
    }
}

fn check_refusal(rt: &impl Abort, error: &NameError, text: &str) {
    if let NameError::Invalid(InvalidNameError { name, location }) = error {
        check_equal(rt, (name.as_str(), *location), (text, None));
    }
}

/// The error of a name that isn't made, and its clone.
fn check_refused(rt: &impl Abort, made: Result<Name, NameError>, text: &str) {
    let error = made.err().expect(rt, "no name");
    if let Ok(copy) = error.clone() {
        check_equal(rt, &copy, &error);
    }
    check_refusal(rt, &error, text);
}

/// And so are errors of names, which are cloned or refused.
/// Allocations: 10.
#[test]
fn names_are_made_or_refused(rt: HostRuntime) {
    match Name::new(rt.alloc(), "abc") {
        Ok(name) => check_text(&rt, name.as_str(), "abc"),
        Err(error) => check_equal(&rt, error, NameError::Memory),
    }
    assert!(rt; Name::new_static(rt.alloc(), "abc").is_ok());
    if let Ok(text) = RcStr::from_str(rt.alloc(), "abc") {
        assert!(rt; Name::new_shared(rt.alloc(), text).is_ok());
    }
    for made in [
        Name::new(rt.alloc(), "1nvalid"),
        Name::compact(rt.alloc(), "1nvalid"),
        Name::new_static(rt.alloc(), "1nvalid"),
    ] {
        check_refused(&rt, made, "1nvalid");
    }
}

/// The name `abc` at bytes 10 to 13 of file 5.
fn placed_name(alloc: Global) -> Result<Name, NameError> {
    let name = Name::new(alloc, "abc")?;
    match SourceSpan::new(FileId::new(5), 10, 13) {
        Some(span) => Ok(name.with_location(span)),
        None => Ok(name),
    }
}

/// How a name is made of a text.
#[derive(Clone, Copy, PartialEq, Eq, Debug, Drop)]
enum By {
    NewStatic,
    New,
    NewWithLocation,
    Compact,
}

/// How a name keeps its text.
#[derive(Clone, Copy, PartialEq, Eq, Debug, Drop)]
enum Kept {
    Static,
    Shared,
    InPlace,
}

const NAMES: [(&str, By, Kept); 7] = [
    ("abc", By::NewStatic, Kept::Static),
    ("abc", By::New, Kept::Shared),
    ("abc", By::NewWithLocation, Kept::Shared),
    ("a", By::Compact, Kept::InPlace),
    ("aaaaaaaaaaaaaaaaa", By::Compact, Kept::InPlace),
    ("aaaaaaaaaaaaaaaaaa", By::Compact, Kept::InPlace),
    ("aaaaaaaaaaaaaaaaaaa", By::Compact, Kept::Shared),
];

fn made(alloc: Global, text: &'static str, by: By) -> Result<Name, NameError> {
    match by {
        By::NewStatic => Name::new_static(alloc, text),
        By::New => Name::new(alloc, text),
        By::NewWithLocation => placed_name(alloc),
        By::Compact => Name::compact(alloc, text),
    }
}

fn check_kept(rt: &impl Abort, name: &Name, text: &str, kept: Kept, is_placed: bool) {
    let location = SourceSpan::new(FileId::new(5), 10, 13).filter(|_| is_placed);
    check_equal(rt, (name.as_str(), name.location()), (text, location));
    let static_text = (kept == Kept::Static).then_some(text);
    check_equal(rt, name.as_static_str(), static_text);
}

/// A shared copy of the text, which takes memory only where the text stands in place.
fn check_arc(rt: &impl Abort, name: &Name, text: &str, kept: Kept) {
    match name.to_cloned_arc() {
        Ok(shared) => {
            let shared_text = shared.as_ref().map(|shared| shared.as_str());
            check_equal(rt, shared_text, (kept != Kept::Static).then_some(text));
        }
        Err(AllocError) => check_case(rt, "takes no memory", kept, Kept::InPlace),
    }
}

/// A shared copy of the text, and then the text itself, shared. What is shared takes no memory, nor does it to find that
/// nothing is.
fn check_shared(rt: &impl Abort, alloc: Global, name: Name, text: &str, kept: Kept) {
    check_arc(rt, &name, text, kept);
    check_equal(rt, name.as_str(), text);
    match name.into_shared(alloc) {
        Ok(shared) => check_text(rt, shared.as_str(), text),
        Err(AllocError) => check_case(rt, "takes no memory", kept == Kept::Shared, false),
    }
}

/// Static texts and those in place take no memory, nor does a clone.
/// Allocations: 20.
#[test]
fn names_are_cloned_and_their_texts_shared_or_refused(rt: HostRuntime) {
    for (text, by, kept) in NAMES {
        let is_placed = by == By::NewWithLocation;
        match made(rt.alloc(), text, by) {
            Ok(name) => {
                let copy = name.clone().expect(&rt, "a clone takes no memory");
                check_kept(&rt, &name, text, kept, is_placed);
                check_shared(&rt, rt.alloc(), name, text, kept);
                check_kept(&rt, &copy, text, kept, is_placed);
            }
            Err(error) => check_equal(&rt, (error, kept), (NameError::Memory, Kept::Shared)),
        }
    }
}
