//! The fragments that are spread within a node.
ghost use Rattle.std.specs.Prelude.{◌≡◌, ◌++◌, IfOk};
ghost use Rattle.graphql_text.specs.trees.Leaves.{name_trees};
ghost use Rattle.graphql_visit.specs.Visits.{nodes_of, one};
ghost use Rattle.graphql_operations.specs.Fragments.{spreads_at, spreads_of};

use graphql_ast::Name;
use graphql_visit::{NodeRef, Reader, Walked, read};
use std::alloc::{AllocError, Global};

/// The names of the fragments that a walk came by.
#[derive(Drop)]
struct Spreads {
    names: Vec<Name>,
}

impl Reader for Spreads {
    type Error = AllocError;

    ghost reads = { λ node old result new. IfOk result (λ _.
        name_trees new.names.items ≡ name_trees old.names.items ++ spreads_at node) };

    fn read(&mut self, node: NodeRef<'_>) -> Result<(), AllocError> {
        if let NodeRef::FragmentSpread(spread) = node {
            self.names.push(spread.fragment_name.clone()?)?;
        }
        Ok(())
    }
}

/// The names of the fragments that are spread within a node, in order, as often as they are spread. `AllocError` if an
/// allocation fails.
///
/// ```
/// fragment_spreads(alloc, &operation)
/// ```
pub fn fragment_spreads<T: Walked>(alloc: Global, item: &T) -> Result<Vec<Name>, AllocError>
    ensures { IfOk result (λ names. name_trees names.items
        ≡ spreads_of (nodes_of (one T.visited (T.tree item.now)))) }
{
    let mut spreads = Spreads {
        names: Vec::new(alloc),
    };
    read(item, &mut spreads)?;
    Ok(spreads.names)
}
