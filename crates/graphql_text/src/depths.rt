//! How deep a tree is, which is found before it is printed.
ghost use Rattle.std.specs.Prelude.{◌≡◌, max};

/// How deep a tree is: its stacks have room for so many entries.
///
/// ```
/// let depths = query.find_depths()?;
/// depths.nesting // 2 for { me { id } }
/// ```
#[derive(Clone, Copy)]
pub struct Depths {
    /// The nesting depth of its groups.
    pub nesting: usize,
    /// How many lists are around the name in the type that has most of them. `usize::MAX` stands for that many and for
    /// more.
    pub lists: usize,
}

impl Depths {
    /// The depths of a tree without types.
    #[inline(always)]
    pub fn without_types(nesting: usize) -> Depths
        ensures nesting { result.nesting ≡ nesting }
        ensures lists { result.lists ≡ 0 }
    {
        Depths { nesting, lists: 0 }
    }

    /// The depths of two parts together: of each the greater.
    #[inline(always)]
    pub fn max(self, other: Depths) -> Depths
        ensures nesting { result.nesting ≡ max self.nesting other.nesting }
        ensures lists { result.lists ≡ max self.lists other.lists }
    {
        Depths {
            nesting: self.nesting.max(other.nesting),
            lists: self.lists.max(other.lists),
        }
    }
}
