//! What may be rebuilt, and nodes of it.
ghost use Rattle.std.specs.Prelude.{◌≡◌, IfOk, OnErr, OnOk, map};
ghost use Rattle.graphql_base.specs.Node.{node_location, node_value};
ghost use Rattle.graphql_text.specs.trees.Leaves.{node_trees};
ghost use Rattle.graphql_rewrite.specs.Kept.{Kept, nothing};
ghost use Rattle.graphql_rewrite.specs.Outcomes.{outcome};
ghost use Rattle.graphql_rewrite.specs.Rewritings.{Rewriting};

use crate::rewriter::{Rebuilt, Rewriter};
use crate::shared_lists::keep;
use graphql_ast::Node;
use std::alloc::{AllocError, Global};

/// What may be rebuilt: a document, a definition, and each kind of node within one.
///
/// ```
/// let field = Field::new(alloc, name!(user));
/// let rename = RenameFields { from: "user", to: &name!(account) };
/// if let Some(made) = field.rebuild(alloc, &rename)? {
///     println!(rt; "{field} becomes {made}")?; // user becomes account
/// }
/// ```
pub trait Rebuild: Sized {
    /// Its tree.
    ghost Tree: { Type 0 };

    ghost tree: { Self → Tree };

    /// What a rewriting makes of the tree.
    ghost rewritten: { Rewriting → Tree → Tree };

    /// What no rewriting changes: the location of a selection or a definition, and of a document those of its
    /// definitions, and its sources.
    ghost kept: { Self → Kept } = { λ _. nothing };

    /// Makes another one in which each part is rewritten, and `None` where nothing changes. What doesn't change is shared
    /// with this one, and nodes keep their locations. `AllocError` if an allocation fails.
    fn rebuild<R: Rewriter>(&self, alloc: Global, rewriter: &R) -> Rebuilt<Self>
        ensures tree { IfOk result (λ made. outcome tree (tree self.now) made
            ≡ rewritten (R.rewriting rewriter.now) (tree self.now)) }
        ensures kept { IfOk result (λ made.
            outcome kept (kept self.now) made ≡ kept self.now) };
}

/// Rewrites in place: what `rebuild` makes takes the place of the old one, and other owners of nodes of the old one keep
/// theirs. `AllocError` if an allocation fails: the old one is as it was then.
///
/// ```
/// rewrite(alloc, &rewriter, &mut document)?;
/// ```
pub fn rewrite<T: Rebuild + Drop, R: Rewriter>(
    alloc: Global,
    rewriter: &R,
    item: &mut T,
) -> Result<(), AllocError>
    ensures ok { OnOk result
        (T.tree item.new ≡ T.rewritten (R.rewriting rewriter.now) (T.tree item.old)) }
    ensures kept { OnOk result (T.kept item.new ≡ T.kept item.old) }
    ensures err { OnErr result (item.new ≡ item.old) }
{
    if let Some(made) = item.rebuild(alloc, rewriter)? {
        *item = made;
    }
    Ok(())
}

/// Rebuilds a node at its location, as `Rebuild::rebuild` does.
pub fn rebuild_node<T: Rebuild + Drop, R: Rewriter>(
    alloc: Global,
    rewriter: &R,
    node: &Node<T>,
) -> Rebuilt<Node<T>>
    ensures tree { IfOk result (λ made.
        outcome (λ made. T.tree (node_value made)) (T.tree (node_value node.now)) made
        ≡ T.rewritten (R.rewriting rewriter.now) (T.tree (node_value node.now))) }
    ensures location { IfOk result (λ made.
        outcome node_location (node_location node.now) made ≡ node_location node.now) }
{
    match (**node).rebuild(alloc, rewriter)? {
        Some(made) => Ok(Some(node.same_location(alloc, made)?)),
        None => Ok(None),
    }
}

/// Rebuilds each node at its location, and returns `None` where none of them changes. Those that don't are shared.
#[tactic(auto, using(crate::proofs::Lists::made_steps, crate::proofs::Lists::stay_steps))]
pub fn rebuild_nodes<T: Rebuild + Drop, R: Rewriter>(
    alloc: Global,
    rewriter: &R,
    nodes: &[Node<T>],
) -> Rebuilt<Vec<Node<T>>>
    ensures trees { IfOk result (λ made.
        outcome (λ made. node_trees T.tree made.items) (node_trees T.tree nodes.now) made
        ≡ map (T.rewritten (R.rewriting rewriter.now)) (node_trees T.tree nodes.now)) }
    ensures locations { IfOk result (λ made.
        outcome (λ made. map node_location made.items) (map node_location nodes.now) made
        ≡ map node_location nodes.now) }
{
    let mut made = None;
    for (index, node) in nodes.iter().enumerate() {
        let changed = rebuild_node(alloc, rewriter, node)?;
        made = keep(alloc, made, nodes, index, changed)?;
    }
    Ok(made)
}
