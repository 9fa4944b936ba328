//! How often what comes.
ghost use Rattle.std.specs.Prelude.{⊤};

use crate::samples::{NODES, document};
use graphql_ast::ast::{Document, Value};
use graphql_ast::{Node, value};
use graphql_visit::{NodeRef, Reader, Walked, read};
use std::alloc::{AllocError, Global};

/// How many nodes came, and how many of these are values.
#[derive(Clone, Copy)]
pub(crate) struct Counts {
    pub(crate) nodes: usize,
    pub(crate) values: usize,
}

impl Reader for Counts {
    type Error = ();

    ghost reads = { λ node old result new. ⊤ };

    fn read(&mut self, node: NodeRef<'_>) -> Result<(), ()> {
        self.nodes = self.nodes.saturating_add(1);
        if let NodeRef::Value(_) = node {
            self.values = self.values.saturating_add(1);
        }
        Ok(())
    }
}

/// The counts of a node and those within it.
pub(crate) fn count_nodes<T: Walked>(item: &T) -> (usize, usize) {
    let mut counts = Counts {
        nodes: 0,
        values: 0,
    };
    let _ = read(item, &mut counts);
    (counts.nodes, counts.values)
}

/// A list in which a list of two numbers stands twice.
fn shared(alloc: Global) -> Result<Node<Value>, AllocError> {
    let shared = Node::new(alloc, value!(in alloc; [1, 2])?)?;
    let copy = shared.clone()?;
    Node::new(alloc, Value::List(vec![in alloc; shared, copy]?))
}

/// Each node of a document comes once; one that stands at two places comes at each.
#[test]
fn nodes_come_as_often_as_they_stand(rt: HostRuntime) {
    let alloc = rt.alloc();
    let document = document(alloc).expect(&rt, "memory");
    let query = document.definitions.get(0).expect(&rt, "a query");
    let scalar = document.definitions.get(1).expect(&rt, "a scalar type");
    let list = shared(alloc).expect(&rt, "memory");
    for (what, found, wanted) in [
        ("document", count_nodes(&document), (NODES, 7)),
        ("query", count_nodes(query), (NODES - 2, 7)),
        ("scalar type", count_nodes(scalar), (1, 0)),
        ("empty document", count_nodes(&Document::new(alloc)), (1, 0)),
        ("shared list", count_nodes(&list), (7, 7)),
    ] {
        assert_eq!(rt; found, wanted, "{what}");
    }
}
