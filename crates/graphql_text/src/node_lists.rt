//! Trees of one kind that are the parts of another, each a node: what is asked of them before they are written.
ghost use Rattle.std.specs.Prelude.{◌≡◌, map};
ghost use Rattle.std.specs.List.{flat_map, list_all};
ghost use Rattle.graphql_text.specs.code.IllFormed.{IsFirstFlaw};
ghost use Rattle.graphql_text.specs.parts.Greatest.{greatest};
ghost use Rattle.graphql_text.specs.trees.Leaves.{node_trees};
ghost use Rattle.graphql_text.specs.layout.Levels.{AreDepths};
ghost use Rattle.graphql_text.specs.layout.Nesting.{group_nesting};

use crate::depths::Depths;
use crate::engine::SyntaxTree;
use crate::ill_formed::IllFormed;
use graphql_base::node::Node;

/// Whether each part is well formed.
pub fn are_parts_well_formed<P: SyntaxTree>(parts: &[Node<P>]) -> bool
    ensures { result ≡ list_all P.kind.obeys (node_trees P.tree parts.now) }
{
    for part in parts {
        if !part.is_well_formed() {
            return false;
        }
    }
    true
}

/// Where the parts aren't well formed: the first of their flaws.
pub fn find_ill_formed_part<P: SyntaxTree>(parts: &[Node<P>]) -> Option<IllFormed<'_>>
    ensures { IsFirstFlaw (flat_map P.kind.flaws (node_trees P.tree parts.now)) result }
{
    for part in parts {
        if let Some(found) = part.find_ill_formed() {
            return Some(found.within(part.location()));
        }
    }
    None
}

/// The depths of parts between brackets, which nest one more than the part that nests most, and 0 without parts.
/// `None` if the nesting depth is above `usize::MAX`.
pub fn find_parts_depths<P: SyntaxTree>(parts: &[Node<P>]) -> Option<Depths>
    ensures { AreDepths result
        (group_nesting (map P.kind.nesting (node_trees P.tree parts.now)))
        (greatest P.list_depth (node_trees P.tree parts.now)) }
{
    let mut most = Depths::without_types(0);
    for part in parts {
        let Depths { nesting, lists } = part.find_depths()?;
        let nesting = nesting.checked_add(1)?;
        most = most.max(Depths { nesting, lists });
    }
    Some(most)
}
