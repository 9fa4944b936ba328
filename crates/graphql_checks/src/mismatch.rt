//! What a check finds in place of what is wanted.
ghost use Rattle.std.specs.Prelude.{◌≡◌, OnOk, string_bytes};

use graphql_base::span::SourceSpan;
use graphql_text::engine::PrintError;
use graphql_text::ill_formed::SideCondition;
use std::alloc::AllocError;

/// What was found in place of what is wanted.
#[derive(Debug, Drop)]
pub enum Mismatch {
    /// Memory was refused, and is to be ample.
    Memory,
    /// A print failed.
    Print(PrintError),
    /// This text was made.
    Text(String),
    /// A sink has taken these bytes, and counted so many faults.
    Sink(Vec<u8>, u64),
    /// A clone isn't equal to what it is of.
    Clone,
    /// The tree is said to be well formed, or not to be.
    WellFormed(bool),
    /// The first flaw of the tree of this case, and where it is; or else the name of that flaw, or what `is_well_formed` says, isn't as wanted.
    Flaw(usize, Option<(SideCondition, Option<SourceSpan>)>),
}

impl From<AllocError> for Mismatch {
    fn from(_refused: AllocError) -> Mismatch {
        Mismatch::Memory
    }
}

impl From<PrintError> for Mismatch {
    fn from(error: PrintError) -> Mismatch {
        Mismatch::Print(error)
    }
}

/// That a text is the one that is wanted.
pub(crate) fn check_text(text: String, wanted: &str) -> Result<(), Mismatch>
    ensures { OnOk result (string_bytes text ≡ wanted.now) }
{
    if text.as_str() == wanted {
        Ok(())
    } else {
        Err(Mismatch::Text(text))
    }
}
