//! Breaks under a prefix of two spaces, which are at hand.

ghost use Rattle.std.specs.Prelude.{◌≡◌, ◌≤◌, ◌++◌, codes};
ghost use Rattle.graphql_text.specs.layout.Layout.{break_text};
ghost use Rattle.graphql_text.specs.declared.ready_breaks.TheConstants.{READY_LEVELS};

use crate::padded::Padded;

/// Up to which level a break under a prefix of two spaces is at hand.
pub(crate) const READY_LEVELS: usize = 30;

/// A line feed and the spaces of a level more than that.
const BREAK_AND_SPACES: &str = "\n                                                               ";

/// A comma, a line feed and the spaces of a level more than that.
const COMMA_AND_SPACES: &str = ",\n                                                              ";

/// A break under a prefix of two spaces.
#[derive(Clone, Copy)]
pub(crate) struct ReadyBreak {
    level: usize,
    ghost fits: { level ≤ READY_LEVELS },
}

impl ReadyBreak {
    ghost use Rattle.graphql_text.specs.code.Breaks.{ready_text};

    #[inline(always)]
    pub(crate) fn new(level: usize) -> ReadyBreak
        requires { level ≤ READY_LEVELS }
        ensures { ready_text result ≡ break_text (codes "  ") level }
    {
        ReadyBreak { level }
    }
}

impl Padded for ReadyBreak {
    ghost use Rattle.graphql_text.specs.code.Breaks.{ready_text};

    ghost text = { ready_text };

    ghost padded_size = { 64 };

    #[inline(always)]
    fn size(&self) -> usize {
        64
    }

    #[inline(always)]
    fn copy_to(&self, bytes: &mut [u8]) {
        bytes.copy_from_slice(BREAK_AND_SPACES.as_bytes());
    }

    #[inline(always)]
    fn as_str(&self) -> &str {
        &BREAK_AND_SPACES[..2 * self.level + 1]
    }
}

/// A comma and a break under a prefix of two spaces.
#[derive(Clone, Copy)]
pub struct ReadyCommaBreak {
    level: usize,
    ghost fits: { level ≤ READY_LEVELS },
}

impl ReadyCommaBreak {
    ghost use Rattle.graphql_text.specs.code.Breaks.{ready_comma_text};

    #[inline(always)]
    pub(crate) fn new(level: usize) -> ReadyCommaBreak
        requires { level ≤ READY_LEVELS }
        ensures { ready_comma_text result ≡ codes "," ++ break_text (codes "  ") level }
    {
        ReadyCommaBreak { level }
    }
}

impl Padded for ReadyCommaBreak {
    ghost use Rattle.graphql_text.specs.code.Breaks.{ready_comma_text};

    ghost text = { ready_comma_text };

    ghost padded_size = { 64 };

    #[inline(always)]
    fn size(&self) -> usize {
        64
    }

    #[inline(always)]
    fn copy_to(&self, bytes: &mut [u8]) {
        bytes.copy_from_slice(COMMA_AND_SPACES.as_bytes());
    }

    #[inline(always)]
    fn as_str(&self) -> &str {
        &COMMA_AND_SPACES[..2 * self.level + 2]
    }
}
