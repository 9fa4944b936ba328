//! Fragment spreads.
ghost use Rattle.std.specs.Prelude.{◌≡◌, []};

pub(crate) mod print;

use graphql_base::name::Name;
use graphql_values::directive_list::DirectiveList;
use std::alloc::Global;

/// A fragment spread (`FragmentSpread`, section 2.8).
///
/// Equality and hash ignore source locations.
///
/// ```
/// let mut spread = FragmentSpread::new(alloc, name!(F));
/// spread.directives.0.push(Node::new(alloc, Directive::new(alloc, name!(defer)))?)?;
/// println!(rt; "{spread}")?; // ...F @defer
/// ```
#[derive(Clone, PartialEq, Eq, Hash, Debug, Drop)]
pub struct FragmentSpread {
    /// The name of the fragment. A spread of `on` isn't well formed.
    pub fragment_name: Name,
    /// The directives behind the name.
    pub directives: DirectiveList,
}

impl FragmentSpread {
    /// A fragment spread without directives. It takes no memory.
    ///
    /// ```
    /// FragmentSpread::new(alloc, name!(F)) // ...F
    /// ```
    pub fn new(alloc: Global, fragment_name: Name) -> FragmentSpread
        ensures fragment_name { result.fragment_name ≡ fragment_name }
        ensures directives { result.directives.0.items ≡ [] }
    {
        FragmentSpread {
            fragment_name,
            directives: DirectiveList::new(alloc),
        }
    }
}
