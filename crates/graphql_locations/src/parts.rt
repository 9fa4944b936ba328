//! Names, texts and nodes without locations, and parts that are optional or lists.
ghost use Rattle.std.specs.Prelude.{◌≡◌, IfOk, List, None, Option, map, option_map};
ghost use Rattle.graphql_base.specs.Name.{name_location, name_text};
ghost use Rattle.graphql_base.specs.Node.{node_value};
ghost use Rattle.graphql_text.specs.lexical.Literals.{NameText, StringText};
ghost use Rattle.graphql_text.specs.trees.Leaves.{description_tree, name_tree};
ghost use Rattle.graphql_locations.specs.Leaves.{list_locations, name_locations, node_locations, optional_locations, text_locations};

use crate::located::Located;
use graphql_ast::node::NodeStr;
use graphql_ast::{Name, Node};
use std::alloc::{AllocError, Global};

/// A name of the same text without a location. The text has the same form: a static one stays static, a shared one has one more
/// owner, and one in place is copied.
fn strip_name(alloc: Global, name: &Name) -> Result<Name, AllocError>
    ensures text { IfOk result (λ made. name_text made ≡ name_text name.now) }
    ensures location { IfOk result (λ made. name_location made ≡ None) }
{
    if let Some(text) = name.as_static_str() {
        return Ok(Name::new_static_unchecked(text));
    }
    if name.short_text().is_none() {
        if let Some(text) = name.to_cloned_arc()? {
            return Ok(Name::from_arc_unchecked(text));
        }
    }
    Name::compact_unchecked(alloc, name.as_str())
}

impl Located for Name {
    ghost Tree = { NameText };

    ghost tree = { name_tree };

    ghost locations = { name_locations };

    fn without_locations(&self, alloc: Global) -> Result<Name, AllocError> {
        strip_name(alloc, self)
    }
}

impl Located for NodeStr {
    ghost Tree = { StringText };

    ghost tree = { description_tree };

    ghost locations = { text_locations };

    /// The text is copied.
    #[tactic(auto, using(crate::proofs::PartsStripped::same_description))]
    fn without_locations(&self, alloc: Global) -> Result<NodeStr, AllocError> {
        NodeStr::new_str(alloc, self.as_str())
    }
}

impl<T: Located + Drop> Located for Node<T> {
    ghost Tree = { T.Tree };

    ghost tree = { λ node. T.tree (node_value node) };

    ghost locations = { node_locations T.locations };

    fn without_locations(&self, alloc: Global) -> Result<Node<T>, AllocError> {
        Node::new(alloc, (**self).without_locations(alloc)?)
    }
}

impl<T: Located> Located for Option<T> {
    ghost Tree = { Option T.Tree };

    ghost tree = { option_map T.tree };

    ghost locations = { optional_locations T.locations };

    fn without_locations(&self, alloc: Global) -> Result<Option<T>, AllocError> {
        match self {
            Some(part) => Ok(Some(part.without_locations(alloc)?)),
            None => Ok(None),
        }
    }
}

impl<T: Located + Drop> Located for Vec<T> {
    ghost Tree = { List T.Tree };

    ghost tree = { λ parts. map T.tree parts.items };

    ghost locations = { λ parts. list_locations T.locations parts.items };

    #[tactic(auto, using(crate::proofs::PartsStripped::list_steps))]
    fn without_locations(&self, alloc: Global) -> Result<Vec<T>, AllocError> {
        let mut made = Vec::with_capacity(alloc, self.len())?;
        for part in self {
            made.push(part.without_locations(alloc)?)?;
        }
        Ok(made)
    }
}
