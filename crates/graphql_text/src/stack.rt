//! A stack whose memory is asked for once.
ghost use Rattle.std.specs.Prelude.{◌≡◌, ℕ, ◌≤◌, ◌<◌, ◌++◌, ◌∷◌, [], length, IfOk, IsOk, IsNone, MatchOption};

use std::alloc::{AllocError, Global};

/// What is still to be written of a tree, the last entry first.
///
/// Its memory is allocated before the first byte is written, so that no push can fail.
///
/// ```
/// let mut stack = Stack::reserve(Some(alloc), 2)?;
/// stack.push(1);
/// stack.pop() // Some(1)
/// ```
#[derive(Drop)]
pub struct Stack<T> {
    entries: Option<Vec<T>>,
}

impl<T: Drop> Stack<T> {
    ghost use Rattle.graphql_text.specs.code.Stack.{stack_entries, stack_room};
    ghost use Rattle.graphql_text.specs.layout.Levels.{capped};

    /// A stack with room for a count of entries, which `usize::MAX` stands for where it is more. For none no memory is
    /// asked for, and then no allocator is needed. `AllocError` where memory is refused, as it always is for as many
    /// as that.
    pub fn reserve(alloc: Option<Global>, count: usize) -> Result<Stack<T>, AllocError>
        requires { IsNone alloc → count ≡ 0 }
        ensures entries { IfOk result (λ s. stack_entries s ≡ []) }
        ensures room { IfOk result (λ s. count ≤ stack_room s) }
        ensures enough { (wanted : ℕ) → count ≡ capped wanted →
            IfOk result (λ s. wanted ≤ stack_room s) }
        ensures succeeds { count ≡ 0 → IsOk result }
    {
        match alloc {
            Some(alloc) => {
                if count == 0 {
                    return Ok(Stack { entries: None });
                }
                Ok(Stack {
                    entries: Some(Vec::with_capacity(alloc, count)?),
                })
            }
            None => Ok(Stack { entries: None }),
        }
    }

    /// Puts an entry on the stack, which has room to spare.
    #[inline(always)]
    pub fn push(&mut self, entry: T)
        requires { length (stack_entries self.old) < stack_room self.old }
        ensures entries { stack_entries self.new ≡ stack_entries self.old ++ entry ∷ [] }
        ensures room { stack_room self.old ≤ stack_room self.new }
    {
        if let Some(entries) = &mut self.entries {
            entries.push(entry).unwrap();
        }
    }

    /// Takes the last entry off the stack.
    #[inline(always)]
    pub fn pop(&mut self) -> Option<T>
        ensures entries { MatchOption result
            ((stack_entries self.old ≡ []) × (stack_entries self.new ≡ []))
            (λ entry. stack_entries self.old ≡ stack_entries self.new ++ entry ∷ []) }
        ensures room { stack_room self.old ≤ stack_room self.new }
    {
        match &mut self.entries {
            Some(entries) => entries.pop(),
            None => None,
        }
    }

    /// Gives up all entries.
    pub fn clear(&mut self)
        ensures entries { stack_entries self.new ≡ [] }
        ensures room { stack_room self.old ≤ stack_room self.new }
    {
        if let Some(entries) = &mut self.entries {
            entries.clear();
        }
    }
}
