//! Inline fragments.
ghost use Rattle.std.specs.Prelude.{◌≡◌, [], None};

pub(crate) mod print;

use crate::selection::Selection;
use graphql_base::name::NamedType;
use graphql_values::directive_list::DirectiveList;
use std::alloc::{AllocError, Global};

/// An inline fragment (`InlineFragment`, section 2.8).
///
/// Equality and hash ignore source locations.
///
/// ```
/// let mut fragment = InlineFragment::new(alloc);
/// fragment.type_condition = Some(name!(User));
/// fragment.selection_set.push(Selection::field(alloc, Field::new(alloc, name!(id)))?)?;
/// println!(rt; "{}", fragment.serialize().no_indent())?; // ... on User { id }
/// ```
#[cycle(selection)]
#[derive(PartialEq, Eq, Hash, Debug, Drop)]
pub struct InlineFragment {
    /// The type that stands after `on`: of values of other types nothing is selected.
    pub type_condition: Option<NamedType>,
    /// The directives before the selection set.
    pub directives: DirectiveList,
    /// What is selected. An inline fragment without a selection isn't well formed.
    pub selection_set: Vec<Selection>,
}

impl InlineFragment {
    /// An inline fragment without a type condition, directives and selections. It takes no memory, and isn't well
    /// formed before it has a selection.
    ///
    /// ```
    /// let mut fragment = InlineFragment::new(alloc);
    /// fragment.selection_set.push(Selection::field(alloc, Field::new(alloc, name!(id)))?)?; // ... { id }
    /// ```
    pub fn new(alloc: Global) -> InlineFragment
        ensures type_condition { result.type_condition ≡ None }
        ensures directives { result.directives.0.items ≡ [] }
        ensures selection_set { result.selection_set.items ≡ [] }
    {
        InlineFragment {
            type_condition: None,
            directives: DirectiveList::new(alloc),
            selection_set: Vec::new(alloc),
        }
    }
}

impl Clone for InlineFragment {
    ghost use Rattle.graphql_executable.specs.trees.ExecutableTrees.{IsInlineFragmentCloneOf};

    ghost is_clone = { IsInlineFragmentCloneOf };

    fn clone(&self) -> Result<InlineFragment, AllocError> {
        Ok(InlineFragment {
            type_condition: self.type_condition.clone()?,
            directives: self.directives.clone()?,
            selection_set: self.selection_set.clone()?,
        })
    }
}
