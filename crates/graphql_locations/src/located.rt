//! What may have source locations.
ghost use Rattle.std.specs.Prelude.{◌≡◌, [], IfOk, List};
ghost use Rattle.graphql_base.specs.declared.span.SourceSpan.{SourceSpan};

use std::alloc::{AllocError, Global};

/// What may have source locations: a document, each kind of node within one, and the parts of those.
///
/// ```
/// let id = Field::new(alloc, name!(id).with_location(span));
/// let plain = id.without_locations(alloc)?;
/// println!(rt; "{} {}", plain.name.location().is_none(), plain == id)?; // true true
/// ```
pub trait Located: Sized {
    /// Its tree, which has no locations.
    ghost Tree: { Type 0 };

    ghost tree: { Self → Tree };

    /// The locations of its names, texts and nodes, in order.
    ghost locations: { Self → List SourceSpan };

    /// Makes another one with the same tree, in which no name, text or node has a location. This one stays as it is, and
    /// shares no node with it. `AllocError` if an allocation fails.
    ///
    /// ```
    /// let field = field.without_locations(alloc)?;
    /// ```
    fn without_locations(&self, alloc: Global) -> Result<Self, AllocError>
        ensures tree { IfOk result (λ made. tree made ≡ tree self.now) }
        ensures locations { IfOk result (λ made. locations made ≡ []) };
}
