//! What a writer holds back.
ghost use Rattle.std.specs.Prelude.{◌≡◌, IsErrOf, IsOk, OnOk};
ghost use Rattle.std.specs.Io.KnownBytes.{Keeps};

use graphql_ast::serialize::PrintError;
use std::io::Write;

/// Has a writer hand on what it holds back, if all was written.
pub(crate) fn flushed<W: Write>(
    written: Result<(), PrintError>,
    mut out: W,
) -> (Result<(), PrintError>, W)
    ensures written { OnOk result.0 (IsOk written) }
    ensures kept { OnOk result.0 (Keeps (W.contents out) (W.contents result.1)) }
    ensures overflow { IsErrOf result.0 PrintError.LevelOverflow →
        IsErrOf written PrintError.LevelOverflow }
    ensures overflow_kept { IsErrOf result.0 PrintError.LevelOverflow → result.1 ≡ out }
    ensures memory { IsErrOf result.0 PrintError.Memory → IsErrOf written PrintError.Memory }
    ensures memory_kept { IsErrOf result.0 PrintError.Memory → result.1 ≡ out }
{
    if written.is_err() {
        return (written, out);
    }
    match out.flush() {
        Ok(()) => (Ok(()), out),
        Err(_) => (Err(PrintError::Sink), out),
    }
}
