//! A sink of one's own: it keeps what it takes, and hashes it at once.
ghost use Rattle.std.specs.Prelude.{◌≡◌, ◌++◌, [], ℕ, List, Some};
ghost use Rattle.sha2.specs.Hashers.{Holds256};
ghost use Rattle.sha2.specs.Sha256.{sha256};

use graphql_ast::sink::{SinkFault, TextSink, VecSink};
use sha2::{Digest, Sha256};
use std::alloc::Global;

/// A sink that keeps the bytes in memory, and hashes them while they come.
#[derive(Drop)]
pub struct HashingSink {
    sink: VecSink,
    hasher: Sha256,
    pub ghost hashed: { (bytes : List ℕ) → ⟦<VecSink as TextSink>⟧.taken sink ≡ Some bytes →
        ∥ Holds256 hasher bytes ∥₁ },
}

impl HashingSink {
    /// A sink that has taken nothing.
    pub fn new(alloc: Global) -> HashingSink
        ensures taken { ⟦<HashingSink as TextSink>⟧.taken result ≡ Some [] }
        ensures faults { ⟦<HashingSink as TextSink>⟧.fault_count result ≡ 0 }
    {
        HashingSink {
            sink: VecSink::new(alloc),
            hasher: Sha256::new(),
        }
    }

    /// The bytes that it has taken, and their SHA-256.
    pub fn finish(self) -> (Vec<u8>, [u8; 32])
        ensures bytes { ⟦<HashingSink as TextSink>⟧.taken self ≡ Some result.0.items }
        ensures digest { result.1 ≡ sha256 result.0.items }
    {
        let HashingSink { sink, hasher } = self;
        (sink.into_bytes(), hasher.finalize())
    }
}

impl TextSink for HashingSink {
    ghost taken = { λ s. ⟦<VecSink as TextSink>⟧.taken s.sink };

    ghost fault_count = { λ s. ⟦<VecSink as TextSink>⟧.fault_count s.sink };

    fn put(&mut self, bytes: &[u8]) -> Result<usize, SinkFault> {
        let HashingSink { sink, hasher } = self;
        let taken = sink.put(bytes)?;
        hasher.update(&bytes[..taken]);
        Ok(taken)
    }

    fn faults(&self) -> u64 {
        self.sink.faults()
    }
}
