//! Where a writer stands, and where a print begins.
ghost use Rattle.std.specs.Prelude.{◌≡◌, ◌↔◌, ◌+◌, ◌-◌, ◌<◌, ◌^◌, IsTrue, None, Some, codes, option_copied};
ghost use Rattle.graphql_text.specs.layout.Levels.{Fits};

use crate::depths::Depths;

/// Where a writer stands: the prefix of the lines, or none on one line, and the level, in levels of indentation.
///
/// ```
/// let place = Place::new(Some("  "), 0);
/// place.inner().level // 1
/// ```
#[derive(Clone, Copy)]
pub struct Place<'p> {
    pub prefix: Option<&'p str>,
    pub level: usize,
    // It is asked for at each break, and so found once a print.
    pub(crate) is_two_spaces: bool,
    pub(crate) ghost two_spaces: { IsTrue is_two_spaces
        ↔ (option_copied prefix ≡ Some (codes "  ")) },
}

fn is_two_spaces(prefix: Option<&str>) -> bool
    ensures { IsTrue result ↔ (option_copied prefix.entry ≡ Some (codes "  ")) }
{
    match prefix {
        Some(prefix) => prefix == "  ",
        None => false,
    }
}

impl<'p> Place<'p> {
    /// A place under a prefix, or on one line.
    pub fn new(prefix: Option<&'p str>, level: usize) -> Place<'p>
        ensures prefix { result.prefix ≡ prefix.entry }
        ensures level { result.level ≡ level }
    {
        Place {
            prefix,
            level,
            is_two_spaces: is_two_spaces(prefix),
        }
    }

    /// The same at the next level.
    #[inline(always)]
    pub fn inner(self) -> Place<'p>
        requires { self.level < 2 ^ 64 - 1 }
        ensures prefix { result.prefix ≡ self.entry.prefix }
        ensures level { result.level ≡ self.entry.level + 1 }
    {
        Place {
            prefix: self.prefix,
            level: self.level + 1,
            is_two_spaces: self.is_two_spaces,
        }
    }

    /// The same at the level before.
    #[inline(always)]
    pub fn outer(self) -> Place<'p>
        requires { 0 < self.level }
        ensures prefix { result.prefix ≡ self.entry.prefix }
        ensures level { result.level + 1 ≡ self.entry.level }
    {
        Place {
            prefix: self.prefix,
            level: self.level - 1,
            is_two_spaces: self.is_two_spaces,
        }
    }

    /// The same on one line.
    #[inline(always)]
    pub fn flat(self) -> Place<'p>
        ensures prefix { result.prefix ≡ None }
        ensures level { result.level ≡ self.entry.level }
    {
        Place::new(None, self.level)
    }
}

/// Where a print begins, and how deep its tree is, which was found before. All its levels can be counted.
#[derive(Clone, Copy)]
pub struct Start<'p> {
    pub place: Place<'p>,
    pub depths: Depths,
    pub(crate) ghost fits: { Fits place.level depths.nesting },
}
