//! Sinks: what takes the bytes of a print, and counts its faults.
ghost use Rattle.std.specs.Prelude.{◌≡◌, ℕ, ◌+◌, ◌<◌, ◌≤◌, List, length, Option, IfOk, OnOk, OnErr};
ghost use Rattle.std.specs.Io.KnownBytes.{WriteAppends};
ghost use Rattle.graphql_text.specs.code.Sinks.{CanFault, SinkTook, SinkFaulted};

mod stream;
mod vec;

pub use crate::sink::stream::StreamSink;
pub use crate::sink::vec::VecSink;
use thiserror::Error;

/// A sink did not take what it was given.
///
/// ```
/// match sink.put(b"{ id }") {
///     Ok(count) => println!(rt; "{count} bytes")?, // 6 bytes
///     Err(SinkFault) => println!(rt; "the writer failed")?,
/// }
/// ```
#[derive(Clone, Copy, Debug, PartialEq, Eq, Error)]
#[error("the writer failed")]
pub struct SinkFault;

/// What takes the bytes of a print, some or all of those that a call hands over, and counts its faults.
///
/// A print calls `put` with at least one byte, and never again after a fault.
///
/// ```
/// let mut sink = VecSink::new(alloc);
/// sink.put(b"{a}") // Ok(3)
/// sink.faults()    // 0
/// ```
pub trait TextSink {
    /// The bytes that it has taken, or `None` where the sink does not tell them.
    ghost taken: { Self → Option (List ℕ) };

    /// How many faults it has counted.
    ghost fault_count: { Self → ℕ };

    /// Takes a prefix of the bytes, and returns its length in bytes, at least 1 unless there are none. After an `Err`
    /// it has taken none of them, and counted one fault more.
    ///
    /// Condition: fewer than `u64::MAX` faults were counted.
    fn put(&mut self, bytes: &[u8]) -> Result<usize, SinkFault>
        requires { CanFault (fault_count self.old) }
        ensures bound { IfOk result (λ n. n ≤ length bytes.now) }
        ensures progress { IfOk result (λ n. 0 < length bytes.now → 0 < n) }
        ensures bytes { WriteAppends (taken self.old) (taken self.new) result bytes.now }
        ensures ok { OnOk result (fault_count self.new ≡ fault_count self.old) }
        ensures err { OnErr result (fault_count self.new ≡ fault_count self.old + 1) };

    /// How many faults it has counted.
    fn faults(&self) -> u64
        ensures { result ≡ fault_count self.now };
}

/// Puts all of the bytes, however many a call takes.
pub(crate) fn put_all<S: TextSink>(sink: &mut S, bytes: &[u8]) -> Result<(), SinkFault>
    requires { CanFault (S.fault_count sink.old) }
    ensures ok { OnOk result (SinkTook S.taken S.fault_count sink.old bytes.now sink.new) }
    ensures err { OnErr result (SinkFaulted S.taken S.fault_count sink.old bytes.now sink.new) }
{
    let mut rest = bytes;
    while !rest.is_empty() {
        let n = sink.put(rest)?;
        rest = &rest[n..];
    }
    Ok(())
}
