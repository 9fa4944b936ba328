//! The variables of a node.
ghost use Rattle.std.specs.Prelude.{◌≡◌, ◌++◌, IfOk};
ghost use Rattle.graphql_text.specs.trees.Leaves.{name_trees};
ghost use Rattle.graphql_visit.specs.Variables.{variables_at, variables_of};
ghost use Rattle.graphql_visit.specs.Visits.{nodes_of, one};

use crate::node_ref::NodeRef;
use crate::reader::{Reader, read};
use crate::walked::Walked;
use graphql_ast::Name;
use std::alloc::{AllocError, Global};

/// The names of the variables that a walk came by.
#[derive(Drop)]
struct Variables {
    names: Vec<Name>,
}

impl Reader for Variables {
    type Error = AllocError;

    ghost reads = { λ node old result new. IfOk result (λ _.
        name_trees new.names.items ≡ name_trees old.names.items ++ variables_at node) };

    fn read(&mut self, node: NodeRef<'_>) -> Result<(), AllocError> {
        if let NodeRef::Value(value) = node {
            if let Some(name) = value.as_variable() {
                self.names.push(name.clone()?)?;
            }
        }
        Ok(())
    }
}

/// The names of the variables that are used in a node, in order, as often as they are used. Definitions of variables use
/// none but in their default values and directives. `AllocError` if an allocation fails.
///
/// ```
/// used_variables(alloc, &document)
/// ```
pub fn used_variables<T: Walked>(alloc: Global, item: &T) -> Result<Vec<Name>, AllocError>
    ensures { IfOk result (λ names. name_trees names.items
        ≡ variables_of (nodes_of (one T.visited (T.tree item.now)))) }
{
    let mut variables = Variables {
        names: Vec::new(alloc),
    };
    read(item, &mut variables)?;
    Ok(variables.names)
}
