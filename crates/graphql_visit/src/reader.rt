//! Walks that only read.
ghost use Rattle.std.specs.Prelude.{⊤, Result};
ghost use Rattle.graphql_visit.specs.NodeRefs.{node_tree};
ghost use Rattle.graphql_visit.specs.NodeTrees.{NodeTree};
ghost use Rattle.graphql_visit.specs.Readings.{GoesOn, Reads, ReadsAt};
ghost use Rattle.graphql_visit.specs.Visits.{nodes_of, one};

use crate::node_ref::NodeRef;
use crate::visitor::{Ended, Flow, Visitor};
use crate::walked::{Walked, walk};
use std::ops::ControlFlow;

/// What is called at each node, in order.
///
/// `reads` says what a call makes of the reader; where nothing is to be known of that after a walk, it is `⊤`.
///
/// ```
/// impl Reader for Fields {
///     type Error = ();
///
///     ghost reads = { λ node old result new. ⊤ };
///
///     fn read(&mut self, node: NodeRef<'_>) -> Result<(), ()> {
///         if let NodeRef::Field(_) = node {
///             self.count = self.count.saturating_add(1);
///         }
///         Ok(())
///     }
/// }
/// ```
pub trait Reader {
    /// Why a call fails.
    type Error;

    /// What a call may make of the reader, and return.
    ghost reads: { NodeTree → Self → Result ⊤ Self.Error → Self → Type 0 };

    /// Reads a node. Those within it come next.
    fn read(&mut self, node: NodeRef<'_>) -> Result<(), Self::Error>
        ensures { reads (node_tree node.entry) self.old result self.new };
}

impl<R: Reader> Visitor for R {
    type Error = R::Error;

    ghost enters = { ReadsAt R.reads };

    ghost leaves = { GoesOn };

    fn enter(&mut self, node: NodeRef<'_>) -> Result<Flow, R::Error> {
        self.read(node)?;
        Ok(Flow::Continue)
    }

    fn leave(&mut self, _node: NodeRef<'_>) -> Result<ControlFlow<()>, R::Error> {
        Ok(ControlFlow::Continue(()))
    }
}

/// Reads a node and those within it, each once, in order, and nothing else. The error is that of the first call that failed:
/// no call comes behind it.
pub fn read<T: Walked, R: Reader>(item: &T, reader: &mut R) -> Result<(), R::Error>
    ensures { Reads R.reads (nodes_of (one T.visited (T.tree item.now)))
        reader.old result reader.new }
{
    match walk(item, reader) {
        Ok(()) => Ok(()),
        Err(Ended::Failed(error)) => Err(error),
        // never comes: a reader doesn't stop a walk
        Err(Ended::Stopped) => Ok(()),
    }
}
