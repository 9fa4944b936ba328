//! What a walk calls.
ghost use Rattle.std.specs.Prelude.{Result, ⊤};
ghost use Rattle.std.proofs.Common.{ControlFlow};
ghost use Rattle.graphql_visit.specs.NodeRefs.{node_tree};
ghost use Rattle.graphql_visit.specs.NodeTrees.{NodeTree};
ghost use Rattle.graphql_visit.specs.Walks.{Enters, Leaves};
ghost use Rattle.graphql_visit.specs.declared.visitor.Flow.{Flow};

use crate::node_ref::NodeRef;
use std::ops::ControlFlow;

/// What comes after the call before a node.
///
/// ```
/// fn enter(&mut self, node: NodeRef<'_>) -> Result<Flow, ()> {
///     match node {
///         NodeRef::FragmentDefinition(_) => Ok(Flow::Skip), // no node within a fragment comes
///         _ => Ok(Flow::Continue),
///     }
/// }
/// ```
#[derive(Clone, Copy, Debug, PartialEq, Eq)]
pub enum Flow {
    /// The nodes within the node, and the call behind it.
    Continue,
    /// The nodes behind the node: it isn't left.
    Skip,
    /// Nothing: the walk ends here.
    Stop,
}

/// Why a walk ended before its end.
///
/// ```
/// match walk_document(&document, &mut visitor) {
///     Ok(()) => println!(rt; "each node came")?,
///     Err(Ended::Stopped) => println!(rt; "the visitor stopped the walk")?,
///     Err(Ended::Failed(error)) => println!(rt; "the visitor failed: {error}")?,
/// }
/// ```
#[derive(Clone, Copy, Debug, PartialEq, Eq)]
pub enum Ended<E> {
    /// A call of the visitor stopped it.
    Stopped,
    /// A call of the visitor failed.
    Failed(E),
}

/// What a walk calls before each node and after it.
///
/// `enters` and `leaves` say what the calls make of the visitor; where nothing is to be known of that after a walk,
/// they are `⊤`. A `Reader` is a visitor too, which goes on at each node.
///
/// ```
/// impl Visitor for Depth {
///     type Error = ();
///
///     ghost enters = { λ node old result new. ⊤ };
///
///     ghost leaves = { λ node old result new. ⊤ };
///
///     fn enter(&mut self, _node: NodeRef<'_>) -> Result<Flow, ()> {
///         self.now = self.now.saturating_add(1);
///         self.greatest = self.greatest.max(self.now);
///         Ok(Flow::Continue)
///     }
///
///     fn leave(&mut self, _node: NodeRef<'_>) -> Result<ControlFlow<()>, ()> {
///         self.now = self.now.saturating_sub(1);
///         Ok(ControlFlow::Continue(()))
///     }
/// }
/// ```
pub trait Visitor {
    /// Why a call fails.
    type Error;

    /// What the call before a node may make of the visitor, and return.
    ghost enters: { NodeTree → Self → Result Flow Self.Error → Self → Type 0 };

    /// The same of the call behind a node.
    ghost leaves: { NodeTree → Self → Result (ControlFlow ⊤ ⊤) Self.Error → Self
        → Type 0 };

    /// Comes to a node.
    fn enter(&mut self, node: NodeRef<'_>) -> Result<Flow, Self::Error>
        ensures { enters (node_tree node.entry) self.old result self.new };

    /// Leaves a node, behind all that is within it.
    fn leave(&mut self, node: NodeRef<'_>) -> Result<ControlFlow<()>, Self::Error>
        ensures { leaves (node_tree node.entry) self.old result self.new };
}

/// Enters a node, and tells whether to go on within it.
pub(crate) fn enter<V: Visitor>(visitor: &mut V, node: NodeRef<'_>) -> Result<bool, Ended<V::Error>>
    ensures { Enters V.enters V.leaves (node_tree node.entry) visitor.old result visitor.new }
{
    match visitor.enter(node) {
        Ok(Flow::Continue) => Ok(true),
        Ok(Flow::Skip) => Ok(false),
        Ok(Flow::Stop) => Err(Ended::Stopped),
        Err(error) => Err(Ended::Failed(error)),
    }
}

/// Leaves a node.
pub(crate) fn leave<V: Visitor>(visitor: &mut V, node: NodeRef<'_>) -> Result<(), Ended<V::Error>>
    ensures { Leaves V.enters V.leaves (node_tree node.entry) visitor.old result visitor.new }
{
    match visitor.leave(node) {
        Ok(ControlFlow::Continue(())) => Ok(()),
        Ok(ControlFlow::Break(())) => Err(Ended::Stopped),
        Err(error) => Err(Ended::Failed(error)),
    }
}
