//! Trees that are written with stacks, and the whole layout of one.
ghost use Rattle.std.specs.Prelude.{◌≡◌, ℕ, false, IfOk, IsOk, OnErr, OnOk};
ghost use Rattle.graphql_text.specs.layout.Levels.{Fits, HasDepths};
ghost use Rattle.graphql_text.specs.code.Place.{breaks};
ghost use Rattle.graphql_text.specs.code.Stack.{CanWrite, IsKept};
ghost use Rattle.graphql_text.specs.code.Writing.{WritesLayout, WritesPart};
ghost use Rattle.graphql_text.specs.declared.place.Place.{Place};

use crate::depths::Depths;
use crate::engine::SyntaxTree;
use crate::place::{Place, Start};
use crate::stack::Stack;
use crate::target::Target;
use crate::writers::write_first_indent;
use std::alloc::AllocError;

/// The stacks that a tree is written with. They are empty before and after each part of it.
pub trait WritingStacks: Drop {
    /// A tree of a nesting depth, with types of so many lists, may be written from a place on: its levels can be
    /// counted, and there is room for it on the empty stacks.
    ghost can_write: { Place → Self → ℕ → ℕ → Type 0 };

    /// The stacks are empty again, and no room was lost.
    ghost are_kept: { Self → Self → Type 0 };
}

impl<T: Drop> WritingStacks for Stack<T> {
    ghost can_write = { λ place stack nesting lists. CanWrite place stack nesting };

    ghost are_kept = { IsKept };
}

/// A type whose trees are written with stacks, whose entries borrow from them.
pub trait Written<'t, S: WritingStacks>: SyntaxTree + Sized {
    /// Stacks with room for the tree, whose depths are handed over. For no entries no memory is asked for.
    /// `AllocError` where memory is refused.
    fn reserve(&'t self, depths: Depths) -> Result<S, AllocError>
        requires { HasDepths depths (Self.kind.nesting (Self.tree self.now))
            (Self.list_depth (Self.tree self.now)) }
        ensures ready { IfOk result
            (λ stacks. (place : Place) → Fits place.level depths.nesting →
            S.can_write place stacks depths.nesting (Self.list_depth (Self.tree self.now))) }
        ensures free { depths.nesting ≡ 0 →
            Self.list_depth (Self.tree self.now) ≡ 0 → IsOk result };

    /// Writes the tree behind what stands before it.
    fn write_at<O: Target>(&'t self, out: &mut O, place: &Place<'_>, stacks: &mut S)
        requires { S.can_write place.now stacks.old
            (Self.kind.nesting (Self.tree self.now)) (Self.list_depth (Self.tree self.now)) }
        ensures kept { S.are_kept stacks.old stacks.new }
        ensures written { WritesPart O.wrote out.old out.new place.now Self.kind
            (Self.tree self.now) };
}

/// Writes the whole layout of a tree that is written alike at the front and behind something else. Memory for its
/// stacks is asked for before the first byte: `AllocError` where it is refused, with nothing written.
pub fn write_whole<'t, S: WritingStacks, T: Written<'t, S>, O: Target>(
    tree: &'t T,
    out: &mut O,
    start: &Start<'_>,
) -> Result<(), AllocError>
    requires { HasDepths start.now.depths (T.kind.nesting (T.tree tree.now))
        (T.list_depth (T.tree tree.now)) }
    ensures ok { OnOk result (WritesLayout O.wrote out.old out.new start.now.place
        (T.kind.shape (breaks start.now.place) false (T.tree tree.now))) }
    ensures err { OnErr result (out.new ≡ out.old) }
    ensures free { start.now.depths.nesting ≡ 0 →
        T.list_depth (T.tree tree.now) ≡ 0 → IsOk result }
{
    let mut stacks = tree.reserve(start.depths)?;
    write_first_indent(out, &start.place);
    tree.write_at(out, &start.place, &mut stacks);
    Ok(())
}
