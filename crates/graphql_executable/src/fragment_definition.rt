//! Definitions of fragments.
ghost use Rattle.std.specs.Prelude.{◌≡◌, [], None};

pub(crate) mod print;

use crate::selection::Selection;
use graphql_base::name::{Name, NamedType};
use graphql_base::node::NodeStr;
use graphql_values::directive_list::DirectiveList;
use std::alloc::Global;

/// A fragment definition (`FragmentDefinition`, section 2.8).
///
/// Equality and hash ignore source locations.
///
/// ```
/// let mut fragment = FragmentDefinition::new(alloc, name!(F), name!(User));
/// fragment.selection_set.push(Selection::field(alloc, Field::new(alloc, name!(id)))?)?;
/// println!(rt; "{}", fragment.serialize().no_indent())?; // fragment F on User { id }
/// ```
#[derive(Clone, PartialEq, Eq, Hash, Debug, Drop)]
pub struct FragmentDefinition {
    /// The string before `fragment`.
    pub description: Option<NodeStr>,
    /// The name. A fragment named `on` isn't well formed.
    pub name: Name,
    /// The type that stands after `on`.
    pub type_condition: NamedType,
    /// The directives before the selection set.
    pub directives: DirectiveList,
    /// What is selected. A fragment without a selection isn't well formed.
    pub selection_set: Vec<Selection>,
}

impl FragmentDefinition {
    /// A fragment without a description, directives and selections. It takes no memory, and isn't well formed before it
    /// has a selection.
    ///
    /// ```
    /// let mut fragment = FragmentDefinition::new(alloc, name!(F), name!(T));
    /// fragment.selection_set.push(Selection::field(alloc, Field::new(alloc, name!(id)))?)?; // fragment F on T { id }
    /// ```
    pub fn new(alloc: Global, name: Name, type_condition: NamedType) -> FragmentDefinition
        ensures description { result.description ≡ None }
        ensures name { result.name ≡ name }
        ensures type_condition { result.type_condition ≡ type_condition }
        ensures directives { result.directives.0.items ≡ [] }
        ensures selection_set { result.selection_set.items ≡ [] }
    {
        FragmentDefinition {
            description: None,
            name,
            type_condition,
            directives: DirectiveList::new(alloc),
            selection_set: Vec::new(alloc),
        }
    }
}
