//! What is written as text, to a text in memory or to a sink: what the kinds' own prints are made of, for any other text.
ghost use Rattle.std.specs.Prelude.{◌≡◌, ℕ, List, IfOk, OnErr, OnOk, string_bytes};
ghost use Rattle.graphql_text.specs.code.Sinks.{CanFault, SinkFaulted, SinkTook};
ghost use Rattle.graphql_text.specs.code.Writing.{WritesSome};

use crate::buffer::Buffer;
use crate::sink::{SinkFault, TextSink};
use crate::target::{Target, ToSink, ToText, finish, into_text, write_piece};
use std::alloc::{AllocError, Global};

/// What can be written as text by itself.
///
/// ```
/// fn length_of<T: WriteText>(alloc: Global, written: &T) -> Result<usize, AllocError> {
///     Ok(text_of(alloc, written)?.len()) // in bytes
/// }
/// ```
pub trait WriteText {
    /// Which bytes may be written of it.
    ghost is_text: { Self → List ℕ → Type 0 };

    /// Writes the text.
    fn write_text<O: Target>(&self, out: &mut O)
        ensures { WritesSome O.wrote out.old (is_text self.now) out.new };
}

impl WriteText for String {
    ghost is_text = { λ text bytes. bytes ≡ string_bytes text };

    fn write_text<O: Target>(&self, out: &mut O) {
        write_piece(out, self.as_str());
    }
}

/// The text in memory. `AllocError` where memory for it is refused.
///
/// ```
/// let value = value!(in alloc; 4)?;
/// text_of(alloc, &AsAstJson { tree: &value })? // {"kind":"IntValue","value":"4"}
/// ```
pub fn text_of<T: WriteText>(alloc: Global, written: &T) -> Result<String, AllocError>
    ensures { IfOk result (λ text. T.is_text written.now (string_bytes text)) }
{
    let mut out = ToText {
        text: String::new(alloc),
        failed: false,
        buffer: Buffer::new(),
    };
    written.write_text(&mut out);
    into_text(out).ok_or(AllocError)
}

/// Sends the text to a sink, with no memory but a buffer on the stack. `Ok`: the sink has taken all of it. `SinkFault` at the
/// sink's first fault, after a beginning of the text.
///
/// Condition: `sink.faults()` is below `u64::MAX`.
///
/// ```
/// let mut sink = VecSink::new(alloc);
/// send_text(&AsAstJson { tree: &value }, &mut sink)?;
/// sink.bytes() // {"kind":"IntValue","value":"4"}
/// ```
pub fn send_text<T: WriteText, S: TextSink>(written: &T, sink: &mut S) -> Result<(), SinkFault>
    requires { CanFault (S.fault_count sink.old) }
    ensures sent { OnOk result (WritesSome (SinkTook S.taken S.fault_count) sink.old
        (T.is_text written.now) sink.new) }
    ensures stopped { OnErr result (WritesSome (SinkFaulted S.taken S.fault_count) sink.old
        (T.is_text written.now) sink.new) }
{
    let mut out = ToSink {
        sink,
        stopped: false,
        buffer: Buffer::new(),
    };
    written.write_text(&mut out);
    finish(&mut out);
    if out.stopped { Err(SinkFault) } else { Ok(()) }
}
