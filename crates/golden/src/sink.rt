//! A sink that takes little.
ghost use Rattle.std.specs.Prelude.{◌≡◌, [], Some};

use graphql_ast::sink::{SinkFault, TextSink};
use std::alloc::Global;

/// A sink that takes one byte a call. It faults where it is given none, or gets no memory.
#[derive(Drop)]
pub struct ByteSink {
    bytes: Vec<u8>,
    faults: u64,
}

impl ByteSink {
    /// A sink that has taken nothing, and counted no fault.
    pub fn new(alloc: Global) -> ByteSink
        ensures taken { ⟦<ByteSink as TextSink>⟧.taken result ≡ Some [] }
        ensures faults { ⟦<ByteSink as TextSink>⟧.fault_count result ≡ 0 }
    {
        ByteSink {
            bytes: Vec::new(alloc),
            faults: 0,
        }
    }

    /// The bytes that it has taken.
    pub fn bytes(&self) -> &[u8]
        ensures { ⟦<ByteSink as TextSink>⟧.taken self.now ≡ Some result.now }
    {
        self.bytes.as_slice()
    }
}

impl TextSink for ByteSink {
    ghost taken = { λ sink. Some sink.bytes.items };

    ghost fault_count = { λ sink. sink.faults };

    fn put(&mut self, bytes: &[u8]) -> Result<usize, SinkFault> {
        if let Some(byte) = bytes.first()
            && self.bytes.push(*byte).is_ok()
        {
            return Ok(1);
        }
        self.faults += 1;
        Err(SinkFault)
    }

    fn faults(&self) -> u64 {
        self.faults
    }
}
