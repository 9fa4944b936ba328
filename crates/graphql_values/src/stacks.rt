//! The stacks that definitions are written with.
ghost use Rattle.std.specs.Prelude.{◌≡◌, ℕ, IfOk, IsOk};
ghost use Rattle.graphql_text.specs.layout.Levels.{Fits, capped};
ghost use Rattle.graphql_text.specs.declared.place.Place.{Place};
ghost use Rattle.graphql_values.specs.code.Stacks.{AreKept, CanWriteDefinition};

use crate::types::print::TypeEntry;
use crate::value::print::ValueEntry;
use graphql_text::writers::{Depths, Stack, WritingStacks};
use std::alloc::{AllocError, Global};

/// The stacks that a definition is written with: of the values in it, and of the types. Both are empty before and
/// after each of its parts.
#[derive(Drop)]
pub struct Stacks<'a> {
    /// For default values and the arguments of directives.
    pub values: Stack<ValueEntry<'a>>,
    /// For the types of input values.
    pub types: Stack<TypeEntry>,
}

impl<'a> Stacks<'a> {
    /// Stacks with room for values of a nesting depth, and for types of so many lists. For none no memory is asked
    /// for. `AllocError` where memory is refused, and where the lists are `usize::MAX` or more.
    pub fn reserve(alloc: Global, depths: Depths) -> Result<Stacks<'a>, AllocError>
        ensures ready { (lists : ℕ) → depths.lists ≡ capped lists →
            IfOk result (λ stacks. (place : Place) → Fits place.level depths.nesting →
            CanWriteDefinition place stacks depths.nesting lists) }
        ensures free { depths.nesting ≡ 0 → depths.lists ≡ 0 → IsOk result }
    {
        Ok(Stacks {
            values: Stack::reserve(Some(alloc), depths.nesting)?,
            types: Stack::reserve(Some(alloc), depths.lists)?,
        })
    }
}

impl WritingStacks for Stacks<'_> {
    ghost can_write = { CanWriteDefinition };

    ghost are_kept = { AreKept };
}
