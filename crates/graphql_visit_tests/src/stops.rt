//! Walks that end early.
ghost use Rattle.std.specs.Prelude.{⊤};

use crate::samples::{NODES, document};
use graphql_ast::ast::{Definition, Document};
use graphql_visit::{
    Ended, Flow, NodeRef, Reader, Visitor, Walked, read_document, walk, walk_all, walk_document,
    walk_optional,
};
use std::ops::ControlFlow;
use std::process::Abort;

/// What a visitor does at a call.
#[derive(Clone, Copy, PartialEq, Eq)]
enum Act {
    Stop,
    Fail,
    Skip,
}

/// A visitor that does something at the call of this number, counted from 1.
#[derive(Clone, Copy)]
struct Acts {
    act: Act,
    at: usize,
    calls: usize,
}

impl Acts {
    fn new(act: Act, at: usize) -> Acts {
        Acts { act, at, calls: 0 }
    }

    fn is_there(&mut self) -> bool {
        self.calls = self.calls.saturating_add(1);
        self.calls == self.at
    }
}

impl Visitor for Acts {
    type Error = usize;

    ghost enters = { λ node old result new. ⊤ };

    ghost leaves = { λ node old result new. ⊤ };

    fn enter(&mut self, _node: NodeRef<'_>) -> Result<Flow, usize> {
        if !self.is_there() {
            return Ok(Flow::Continue);
        }
        match self.act {
            Act::Stop => Ok(Flow::Stop),
            Act::Fail => Err(self.calls),
            Act::Skip => Ok(Flow::Skip),
        }
    }

    fn leave(&mut self, _node: NodeRef<'_>) -> Result<ControlFlow<()>, usize> {
        if !self.is_there() {
            return Ok(ControlFlow::Continue(()));
        }
        match self.act {
            Act::Fail => Err(self.calls),
            _ => Ok(ControlFlow::Break(())),
        }
    }
}

/// A reader that fails behind so many nodes.
#[derive(Clone, Copy)]
struct Fails {
    left: usize,
}

impl Reader for Fails {
    type Error = usize;

    ghost reads = { λ node old result new. ⊤ };

    fn read(&mut self, _node: NodeRef<'_>) -> Result<(), usize> {
        match self.left {
            0 => Err(7),
            left => {
                self.left = left - 1;
                Ok(())
            }
        }
    }
}

/// The walk ends at this call, and no call comes behind it.
fn check_end(rt: &impl Abort, document: &Document, act: Act, at: usize) {
    let mut visitor = Acts::new(act, at);
    let wanted = match act {
        Act::Fail => Err(Ended::Failed(at)),
        _ => Err(Ended::Stopped),
    };
    assert_eq!(rt; walk_document(document, &mut visitor), wanted);
    assert_eq!(rt; visitor.calls, at);
}

/// A visitor that goes on at each call.
fn goes_on() -> Acts {
    Acts::new(Act::Stop, usize::MAX)
}

/// A node by itself, what is within it, several and none. The first definition is the query, which has 20 nodes.
fn check_parts(rt: &impl Abort, document: &Document) {
    let definitions = document.definitions.as_slice();
    let mut walked = [goes_on(); 6];
    let ends = [
        walk(document, &mut walked[0]),
        document.walk_within(&mut walked[1]),
        walk_all(definitions, &mut walked[2]),
        walk_all(&definitions[..0], &mut walked[3]),
        walk_optional(definitions.first(), &mut walked[4]),
        walk_optional::<Definition, Acts>(None, &mut walked[5]),
    ];
    assert_eq!(rt; ends, [Ok(()); 6]);
    let calls = walked.map(|visitor| visitor.calls);
    assert_eq!(rt; calls, [2 * NODES, 2 * NODES - 2, 2 * NODES - 2, 0, 40, 0]);
    assert!(rt; matches!(document.node_ref(), NodeRef::Document(_)));
}

#[test]
fn walks_end_at_each_call_in_turn(rt: HostRuntime) {
    let document = document(rt.alloc()).expect(&rt, "memory");
    for at in 1..=2 * NODES {
        check_end(&rt, &document, Act::Stop, at);
        check_end(&rt, &document, Act::Fail, at);
    }
    for (act, at, calls) in [
        (Act::Stop, 2 * NODES + 1, 2 * NODES),
        // a node that is passed over isn't left: the document alone, and the query, which has 20 nodes
        (Act::Skip, 1, 1),
        (Act::Skip, 2, 2 * NODES - 39),
    ] {
        let mut visitor = Acts::new(act, at);
        assert_eq!(rt; walk_document(&document, &mut visitor), Ok(()), "{at}");
        assert_eq!(rt; visitor.calls, calls, "{at}");
    }
    check_parts(&rt, &document);
}

#[test]
fn readers_fail_at_each_node_in_turn(rt: HostRuntime) {
    let document = document(rt.alloc()).expect(&rt, "memory");
    for before in 0..=NODES {
        let mut reader = Fails { left: before };
        let wanted = if before < NODES { Err(7) } else { Ok(()) };
        assert_eq!(rt; read_document(&document, &mut reader), wanted, "{before}");
        assert_eq!(rt; reader.left, 0, "{before}");
    }
}
