//! A sink that keeps the bytes in memory.
ghost use Rattle.std.specs.Prelude.{◌≡◌, ◌+◌, [], length, Some, IfOk, OnOk, OnErr};
ghost use Rattle.std.specs.Io.KnownBytes.{WriteAppends};
ghost use Rattle.graphql_text.specs.code.Sinks.{CanFault};

use crate::sink::{SinkFault, TextSink};
use std::alloc::Global;

/// A sink that keeps the bytes in memory.
///
/// It takes all that it is given, or faults where memory for it was refused.
///
/// ```
/// let mut sink = VecSink::new(alloc);
/// document.serialize().print_to(&mut sink)?;
/// sink.bytes() // the text in UTF-8
/// ```
#[derive(Drop)]
pub struct VecSink {
    bytes: Vec<u8>,
    faults: u64,
}

impl VecSink {
    /// A sink that has taken nothing, and counted no fault. It takes no memory yet.
    ///
    /// ```
    /// VecSink::new(alloc).bytes() // no bytes
    /// ```
    pub fn new(alloc: Global) -> VecSink
        ensures taken { ⟦<VecSink as TextSink>⟧.taken result ≡ Some [] }
        ensures faults { ⟦<VecSink as TextSink>⟧.fault_count result ≡ 0 }
    {
        VecSink {
            bytes: Vec::new(alloc),
            faults: 0,
        }
    }

    /// The bytes that it has taken.
    pub fn bytes(&self) -> &[u8]
        ensures { ⟦<VecSink as TextSink>⟧.taken self.now ≡ Some result.now }
    {
        self.bytes.as_slice()
    }

    /// The bytes that it has taken, as a vector.
    pub fn into_bytes(self) -> Vec<u8>
        ensures { ⟦<VecSink as TextSink>⟧.taken self ≡ Some result.items }
    {
        self.bytes
    }
}

impl TextSink for VecSink {
    ghost taken = { λ v. Some v.bytes.items };

    ghost fault_count = { λ v. v.faults };

    fn put(&mut self, bytes: &[u8]) -> Result<usize, SinkFault>
        requires { CanFault self.old.faults }
        ensures whole { IfOk result (λ n. n ≡ length bytes.now) }
        ensures bytes { WriteAppends (Some self.old.bytes.items)
            (Some self.new.bytes.items) result bytes.now }
        ensures ok { OnOk result (self.new.faults ≡ self.old.faults) }
        ensures err { OnErr result (self.new.faults ≡ self.old.faults + 1) }
    {
        match self.bytes.extend_from_slice(bytes) {
            Ok(()) => Ok(bytes.len()),
            Err(_) => {
                self.faults += 1;
                Err(SinkFault)
            }
        }
    }

    fn faults(&self) -> u64 {
        self.faults
    }
}
