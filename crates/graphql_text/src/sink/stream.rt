//! A sink that hands the bytes to a writer.
ghost use Rattle.std.specs.Prelude.{◌≡◌, ◌+◌, ◌<◌, ◌≤◌, None, IfOk, OnErr, OnOk, length, option_copied};
ghost use Rattle.std.specs.Io.KnownBytes.{WriteAppends};
ghost use Rattle.graphql_text.specs.code.Sinks.{CanFault};
ghost use Rattle.graphql_text.specs.code.Stream.{stream_error, stream_writer};

use crate::sink::{SinkFault, TextSink};
use std::io::{self, Write};

/// A sink that hands the bytes to a writer, by one `write` a call.
///
/// An error of the writer, an interrupted write too, is a fault, and so is a write that takes none of at least one
/// byte: nothing is tried again.
///
/// ```
/// let mut sink = StreamSink::new(rt.stdout());
/// document.serialize().print_to(&mut sink)?; // PrintError::Sink where the writer fails
/// ```
#[derive(Drop)]
pub struct StreamSink<W> {
    writer: W,
    faults: u64,
    last_error: Option<io::Error>,
}

impl<W: Write> StreamSink<W> {
    /// A sink over this writer, which has counted no fault.
    ///
    /// ```
    /// StreamSink::new(rt.stdout()).faults() // 0
    /// ```
    pub fn new(writer: W) -> StreamSink<W>
        ensures writer { stream_writer result ≡ writer }
        ensures taken { ⟦<StreamSink<W> as TextSink>⟧.taken result ≡ W.contents writer }
        ensures faults { ⟦<StreamSink<W> as TextSink>⟧.fault_count result ≡ 0 }
        ensures error { stream_error result ≡ None }
    {
        StreamSink {
            writer,
            faults: 0,
            last_error: None,
        }
    }

    /// The error that the writer returned last. `None` where it returned none, though a write may have taken no byte.
    pub fn last_error(&self) -> Option<&io::Error>
        ensures { option_copied result ≡ stream_error self.now }
    {
        self.last_error.as_ref()
    }

    /// The writer.
    pub fn into_inner(self) -> W
        ensures writer { result ≡ stream_writer self }
        ensures taken { W.contents result ≡ ⟦<StreamSink<W> as TextSink>⟧.taken self }
    {
        self.writer
    }
}

impl<W: Write> TextSink for StreamSink<W> {
    ghost taken = { λ s. W.contents s.writer };

    ghost fault_count = { λ s. s.faults };

    /// As of any sink; besides, after an `Ok` the last error is what it was.
    fn put(&mut self, bytes: &[u8]) -> Result<usize, SinkFault>
        requires { CanFault self.old.faults }
        ensures bound { IfOk result (λ n. n ≤ length bytes.now) }
        ensures progress { IfOk result (λ n. 0 < length bytes.now → 0 < n) }
        ensures bytes { WriteAppends (W.contents (stream_writer self.old))
            (W.contents (stream_writer self.new)) result bytes.now }
        ensures ok { OnOk result (self.new.faults ≡ self.old.faults) }
        ensures err { OnErr result (self.new.faults ≡ self.old.faults + 1) }
        ensures error { OnOk result (stream_error self.new ≡ stream_error self.old) }
    {
        match self.writer.write(bytes) {
            Ok(n) if n > 0 || bytes.is_empty() => Ok(n),
            Ok(_) => {
                self.faults += 1;
                Err(SinkFault)
            }
            Err(error) => {
                self.faults += 1;
                self.last_error = Some(error);
                Err(SinkFault)
            }
        }
    }

    fn faults(&self) -> u64 {
        self.faults
    }
}
