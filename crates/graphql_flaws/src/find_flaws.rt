//! What may have flaws.
ghost use Rattle.std.specs.Prelude.{◌≡◌, IfOk, OnOk};
ghost use Rattle.graphql_flaws.specs.FoundFlaws.{Finds, flaws_of};

use crate::found_flaw::FoundFlaw;
use crate::search::FlawSearch;
use graphql_ast::serialize::SyntaxTree;
use std::alloc::{AllocError, Global};

/// What may have flaws: each of the thirty kinds of syntax trees.
///
/// ```
/// let union = UnionTypeExtension::new(alloc, name!(A));
/// for flaw in &union.flaws(alloc)? {
///     println!(rt; "{flaw}")?; // at the root: an extension that adds nothing: `A`
/// }
/// ```
pub trait FindFlaws: SyntaxTree {
    /// Finds the flaws of the tree, behind those that the search found before.
    ///
    /// The tree is the part that the search is at. `flaws` is the call for users. `AllocError` if an allocation fails.
    fn push_flaws<'a>(&'a self, search: &mut FlawSearch<'a>) -> Result<(), AllocError>
        ensures { OnOk result
            (Finds (Self.kind.flaws (Self.tree self.now)) search.old search.new) };

    /// All flaws of the tree, in the order of print, each with its path.
    ///
    /// They are the side conditions that the tree breaks, each as often as it breaks it, and none exactly if it is well formed;
    /// the first is what `find_ill_formed` finds. That the paths and the locations around are right is tested, and no part of
    /// the contract. A well-formed tree takes memory for the path to the part that nests most alone. `AllocError` if an
    /// allocation fails.
    ///
    /// ```
    /// let spread = FragmentSpread::new(alloc, name!(on));
    /// for flaw in &spread.flaws(alloc)? {
    ///     println!(rt; "{flaw}")?; // at `name.value`: a fragment named `on`: `on`
    /// }
    /// ```
    final fn flaws(&self, alloc: Global) -> Result<Vec<FoundFlaw<'_>>, AllocError>
        ensures { IfOk result (λ found.
            flaws_of found.items ≡ Self.kind.flaws (Self.tree self.now)) }
    {
        let mut search = FlawSearch::new(alloc);
        self.push_flaws(&mut search)?;
        Ok(search.into_found())
    }
}
