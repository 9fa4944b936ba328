//! What is told of a check that fails.
use crate::checks::Check;
use std::alloc::{AllocError, Global};
use std::fmt;
use std::fmt::{Display, Formatter, Write};

/// How many characters are shown of a text, half of them before the first that differs.
const SHOWN: usize = 40;

/// What a case wants, and what was found in its place, from a little before the first character that differs.
#[derive(Drop)]
pub struct Difference {
    check: Check,
    /// How many characters both begin with.
    common: usize,
    wanted: String,
    found: String,
}

impl Difference {
    /// The difference of two texts, which are different.
    pub fn new(
        alloc: Global,
        check: Check,
        wanted: &str,
        found: &str,
    ) -> Result<Difference, AllocError> {
        let common = common_characters(wanted, found);
        Ok(Difference {
            check,
            common,
            wanted: around(alloc, wanted, common)?,
            found: around(alloc, found, common)?,
        })
    }
}

impl Display for Difference {
    fn fmt<W: Write>(&self, f: &mut Formatter<W>) -> fmt::Result {
        writeln!(f, "{}, behind {} characters", self.check, self.common)?;
        writeln!(f, "  wanted {:?}", self.wanted.as_str())?;
        write!(f, "  found  {:?}", self.found.as_str())
    }
}

/// How many characters two texts begin with alike.
fn common_characters(one: &str, other: &str) -> usize {
    let mut common: usize = 0;
    for (one, other) in one.chars().zip(other.chars()) {
        if one != other {
            break;
        }
        common = common.saturating_add(1);
    }
    common
}

/// The characters around an index.
fn around(alloc: Global, text: &str, index: usize) -> Result<String, AllocError> {
    let mut shown = String::new(alloc);
    for character in text
        .chars()
        .skip(index.saturating_sub(SHOWN / 2))
        .take(SHOWN)
    {
        shown.push(character)?;
    }
    Ok(shown)
}
