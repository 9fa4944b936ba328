//! The flaws of parts that are nodes of one kind.
ghost use Rattle.std.specs.Prelude.{◌≡◌, OnOk};
ghost use Rattle.std.specs.List.{flat_map};
ghost use Rattle.graphql_text.specs.trees.Leaves.{node_trees};
ghost use Rattle.graphql_flaws.specs.FoundFlaws.{Finds};

use crate::find_flaws::FindFlaws;
use crate::found_flaw::PathStep::{self, Item, Member};
use crate::search::FlawSearch;
use graphql_ast::Node;
use std::alloc::AllocError;

/// To the text of the name of a node.
pub(crate) const NAME_TEXT: [PathStep; 2] = [Member("name"), Member("value")];

/// Finds the flaws of nodes, which are the items of a member.
pub(crate) fn push_nodes<'a, T: FindFlaws>(
    search: &mut FlawSearch<'a>,
    member: &'static str,
    nodes: &'a [Node<T>],
) -> Result<(), AllocError>
    ensures { OnOk result (Finds
        (flat_map T.kind.flaws (node_trees T.tree nodes.now)) search.old search.new) }
{
    for index in 0..nodes.len() {
        let node = &nodes[index];
        let outer = search.enter(&[Member(member), Item(index)], node.location())?;
        node.push_flaws(search)?;
        search.leave(outer);
    }
    Ok(())
}
