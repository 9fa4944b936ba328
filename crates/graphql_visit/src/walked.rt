//! Walks over nodes of any kind.
ghost use Rattle.std.specs.Prelude.{◌≡◌, Option, map, option_map};
ghost use Rattle.graphql_visit.specs.NodeRefs.{node_tree};
ghost use Rattle.graphql_visit.specs.Visits.{Visited, each, one, optional};
ghost use Rattle.graphql_visit.specs.Walks.{Walks};

use crate::node_ref::NodeRef;
use crate::visitor::{Ended, Visitor, enter, leave};

/// A node that a walk may begin at: a document, a definition, and each kind of node within one.
///
/// ```
/// let value = Node::new(alloc, value!(in alloc; [$first, 10, $last])?)?;
/// for name in used_variables(alloc, &value)? {
///     println!(rt; "{name}")?; // first, then last
/// }
/// ```
pub trait Walked {
    /// Its tree.
    ghost Tree: { Type 0 };

    ghost tree: { Self → Tree };

    /// As which node it is visited, and what is within it.
    ghost visited: { Visited Tree };

    /// The reference that a visitor is given.
    fn node_ref(&self) -> NodeRef<'_>
        ensures { node_tree result ≡ visited.node (tree self.now) };

    /// Walks over what is within the node.
    fn walk_within<V: Visitor>(&self, visitor: &mut V) -> Result<(), Ended<V::Error>>
        ensures { Walks V.enters V.leaves (visited.within (tree self.now))
            visitor.old result visitor.new };
}

/// Walks over a node: it is entered, then come those within it, in order, and then it is left. `Ended` tells how the walk
/// ended before: that a call stopped it, or the error of a call that failed. No call comes behind that one.
///
/// ```
/// walk(&document.definitions[0], &mut visitor)?;
/// ```
#[tactic(auto, using(crate::proofs::Steps::one_steps))]
pub fn walk<T: Walked, V: Visitor>(item: &T, visitor: &mut V) -> Result<(), Ended<V::Error>>
    ensures { Walks V.enters V.leaves (one T.visited (T.tree item.now))
        visitor.old result visitor.new }
{
    let node = item.node_ref();
    if !enter(visitor, node)? {
        return Ok(());
    }
    item.walk_within(visitor)?;
    leave(visitor, node)
}

/// Walks over nodes, one behind another. It ends early as `walk` does.
#[tactic(auto, using(crate::proofs::Steps::loop_steps))]
pub fn walk_all<T: Walked, V: Visitor>(items: &[T], visitor: &mut V) -> Result<(), Ended<V::Error>>
    ensures { Walks V.enters V.leaves (each T.visited (map T.tree items.now))
        visitor.old result visitor.new }
{
    for item in items {
        walk(item, visitor)?;
    }
    Ok(())
}

/// Walks over a node, if there is one. It ends early as `walk` does.
#[tactic(auto, using(crate::proofs::Steps::walk_steps))]
pub fn walk_optional<T: Walked, V: Visitor>(
    item: Option<&T>,
    visitor: &mut V,
) -> Result<(), Ended<V::Error>>
    ensures { Walks V.enters V.leaves
        (optional T.visited (option_map (λ found. T.tree found.now) item.entry))
        visitor.old result visitor.new }
{
    match item {
        Some(item) => walk(item, visitor),
        None => Ok(()),
    }
}
