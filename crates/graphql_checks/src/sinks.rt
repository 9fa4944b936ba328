//! A sink that takes little.
ghost use Rattle.std.specs.Prelude.{◌≡◌, Some};

use graphql_text::sink::{SinkFault, TextSink};
use std::alloc::Global;

/// Takes one byte a call, so many in all, and then faults.
#[derive(Drop)]
pub struct Narrow {
    pub bytes: Vec<u8>,
    pub room: usize,
    pub faults: u64,
}

impl Narrow {
    /// A sink with room for so many bytes.
    pub fn with_room(alloc: Global, room: usize) -> Narrow
        ensures { result.faults ≡ 0 }
    {
        Narrow {
            bytes: Vec::new(alloc),
            room,
            faults: 0,
        }
    }
}

impl TextSink for Narrow {
    ghost taken = { λ sink. Some sink.bytes.items };

    ghost fault_count = { λ sink. sink.faults };

    fn put(&mut self, bytes: &[u8]) -> Result<usize, SinkFault> {
        let Some(byte) = bytes.first() else {
            return Ok(0);
        };
        if self.room > 0 && self.bytes.push(*byte).is_ok() {
            self.room -= 1;
            return Ok(1);
        }
        self.faults += 1;
        Err(SinkFault)
    }

    fn faults(&self) -> u64 {
        self.faults
    }
}
