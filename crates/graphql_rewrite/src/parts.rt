//! Parts of nodes that are made anew or copied.
ghost use Rattle.std.specs.Prelude.{◌≡◌, IfOk, List, Option, option_map};
ghost use Rattle.graphql_base.specs.Node.{node_value};
ghost use Rattle.graphql_text.specs.trees.Leaves.{node_trees};
ghost use Rattle.graphql_values.specs.kinds.Directives.{DirectiveTree};
ghost use Rattle.graphql_values.specs.kinds.Values.{ValueTree};
ghost use Rattle.graphql_values.specs.trees.DirectiveTrees.{directive_trees};
ghost use Rattle.graphql_values.specs.trees.ValueTrees.{value_tree};
ghost use Rattle.graphql_executable.specs.kinds.Selections.{SelectionTrees};
ghost use Rattle.graphql_executable.specs.trees.ExecutableTrees.{selection_trees};
ghost use Rattle.graphql_rewrite.specs.Outcomes.{outcome};

use crate::rebuild::Rebuild;
use graphql_ast::Node;
use graphql_ast::ast::{DirectiveList, Selection, Value};
use std::alloc::AllocError;

/// A part of a node.
pub(crate) trait Part: Sized {
    /// Its tree.
    ghost Tree: { Type 0 };

    ghost tree: { Self → Tree };

    /// Another one, which shares its nodes.
    fn copy(&self) -> Result<Self, AllocError>
        ensures { IfOk result (λ copy. tree copy ≡ tree self.now) };
}

impl<T: Rebuild + Drop> Part for Vec<Node<T>> {
    ghost Tree = { List T.Tree };

    ghost tree = { λ nodes. node_trees T.tree nodes.items };

    fn copy(&self) -> Result<Vec<Node<T>>, AllocError> {
        self.clone()
    }
}

impl Part for Vec<Selection> {
    ghost Tree = { SelectionTrees };

    ghost tree = { λ selections. selection_trees selections.items };

    fn copy(&self) -> Result<Vec<Selection>, AllocError> {
        self.clone()
    }
}

impl Part for DirectiveList {
    ghost Tree = { List DirectiveTree };

    ghost tree = { directive_trees };

    fn copy(&self) -> Result<DirectiveList, AllocError> {
        self.clone()
    }
}

impl Part for Option<Node<Value>> {
    ghost Tree = { Option ValueTree };

    ghost tree = { option_map (λ node. value_tree (node_value node)) };

    fn copy(&self) -> Result<Option<Node<Value>>, AllocError> {
        self.clone()
    }
}

/// The part that was made, or else a copy of the old one.
pub(crate) fn or_copy<P: Part>(made: Option<P>, old: &P) -> Result<P, AllocError>
    ensures { IfOk result (λ part. P.tree part ≡ outcome P.tree (P.tree old.now) made) }
{
    match made {
        Some(made) => Ok(made),
        None => old.copy(),
    }
}
