//! The stacks that operations, fragments and selections are written with.
ghost use Rattle.std.specs.Prelude.{◌≡◌, ℕ, IfOk, IsOk};
ghost use Rattle.graphql_text.specs.layout.Levels.{Fits, capped};
ghost use Rattle.graphql_text.specs.declared.place.Place.{Place};
ghost use Rattle.graphql_executable.specs.code.ExecutableStacks.{AreAllKept, CanWriteExecutable};

use crate::selection::Selection;
use graphql_text::writers::{Depths, Stack, WritingStacks};
use graphql_values::writers::Stacks;
use std::alloc::{AllocError, Global};

/// A selection set that is open: what is left of its selections.
#[derive(Clone, Copy)]
pub struct SelectionEntry<'a> {
    pub(crate) rest: &'a [Selection],
}

/// The stacks that an operation, a fragment or a selection is written with: those of its values and types, and that of
/// its selection sets. All are empty before and after each of its parts.
#[derive(Drop)]
pub struct ExecutableStacks<'a> {
    /// For default values, the arguments of fields and directives, and the types of variables.
    pub definitions: Stacks<'a>,
    /// For selection sets.
    pub selections: Stack<SelectionEntry<'a>>,
}

impl<'a> ExecutableStacks<'a> {
    /// Stacks with room for values and selection sets of a nesting depth, and for types of so many lists. For none no
    /// memory is asked for. `AllocError` where memory is refused, and where the lists are `usize::MAX` or more.
    pub fn reserve(alloc: Global, depths: Depths) -> Result<ExecutableStacks<'a>, AllocError>
        ensures ready { (lists : ℕ) → depths.lists ≡ capped lists →
            IfOk result (λ stacks. (place : Place) → Fits place.level depths.nesting →
            CanWriteExecutable place stacks depths.nesting lists) }
        ensures free { depths.nesting ≡ 0 → depths.lists ≡ 0 → IsOk result }
    {
        Ok(ExecutableStacks {
            definitions: Stacks::reserve(alloc, depths)?,
            selections: Stack::reserve(Some(alloc), depths.nesting)?,
        })
    }
}

impl WritingStacks for ExecutableStacks<'_> {
    ghost can_write = { CanWriteExecutable };

    ghost are_kept = { AreAllKept };
}
