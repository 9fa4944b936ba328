//! What a printer writes to: a sink, a text, a formatter.
ghost use Rattle.std.specs.Prelude.{◌≡◌, ◌↔◌, ◌++◌, ℕ, [], List, IfSome, IsTrue, false, string_bytes};
ghost use Rattle.std.proofs.Common.{refl, ◌∙◌};
ghost use Rattle.graphql_text.specs.code.Buffer.{waiting_bytes, written_bytes};
ghost use Rattle.graphql_text.specs.code.Sinks.{Sends, SendsBuffered};
ghost use Rattle.graphql_text.specs.code.Targets.{TextGrew, FormatterTook};
ghost use Rattle.graphql_text.specs.lemmas.Sinks.{buffered_nothing, buffered_idle, buffered_more};
ghost use Rattle.graphql_text.specs.lemmas.Targets.{grew_nothing, grew_idle, grew_more, formatted_nothing, formatted_idle, formatted_more};

use crate::buffer::Buffer;
use crate::padded::Padded;
use crate::sink::{TextSink, put_all};
use std::fmt;

/// What a printer writes its text to. After a write that failed it takes no more, and remembers it: so the writers of
/// a tree return nothing, and only the whole print asks whether all was written.
pub trait Target {
    /// From one moment to the other these bytes were written, or writing stopped within them.
    ghost wrote: { Self → List ℕ → Self → Type 0 };

    /// Nothing is written any more.
    ghost stopped: { Self → Type 0 };

    /// Writes the text.
    fn text(&mut self, text: &str)
        ensures { wrote self.old text.now self.new };

    /// Writes a text that can be copied at a fixed size.
    fn padded<P: Padded>(&mut self, text: &P)
        ensures { wrote self.old (P.text text.now) self.new }
    {
        self.text(text.as_str());
    }

    /// Writes a text that can be copied at a fixed size, and words behind it.
    fn padded_then<P: Padded>(&mut self, text: &P, words: &str)
        ensures { wrote self.old (P.text text.now ++ words.now) self.new }
    {
        self.padded(text);
        self.text(words);
    }

    /// Whether a write failed. A long loop asks, to end early.
    fn is_stopped(&self) -> bool
        ensures { IsTrue result ↔ stopped self.now };

    ghost nothing: { (a : Self) → wrote a [] a };

    ghost idle: { (a : Self) (bytes : List ℕ) → stopped a → wrote a bytes a };

    ghost more: { (a b c : Self) (x y : List ℕ) → wrote a x b → wrote b y c → wrote a (x ++ y) c };
}

/// A target over a sink, with a buffer between them.
#[derive(Drop)]
pub(crate) struct ToSink<'a, S> {
    pub sink: &'a mut S,
    pub stopped: bool,
    pub buffer: Buffer,
}

/// Lets the text wait, where there is room for it alone; else sends what waits, and then lets the text wait, or sends
/// it too.
#[inline(never)]
#[tactic(auto, using(crate::proofs::code::SinkTwoPuts::put_steps))]
fn send<S: TextSink>(out: &mut ToSink<'_, S>, text: &str)
    ensures name { out.new.sink.ghost_name ≡ out.old.sink.ghost_name }
    ensures sent { SendsBuffered S.taken S.fault_count out.old.sink.now out.old.stopped
        (waiting_bytes out.old.buffer) text.now
        out.new.sink.now out.new.stopped (waiting_bytes out.new.buffer) }
{
    if out.stopped || out.buffer.add(text) {
        return;
    }
    if out.sink.faults() == u64::MAX {
        out.stopped = true;
        return;
    }
    let unsent = out.buffer.waiting();
    if put_all(&mut *out.sink, unsent).is_err() {
        out.stopped = true;
        return;
    }
    out.buffer.clear();
    if out.buffer.add(text) {
        return;
    }
    if put_all(&mut *out.sink, text.as_bytes()).is_err() {
        out.stopped = true;
    }
}

/// Sends what still waits, at the end.
pub(crate) fn finish<S: TextSink>(out: &mut ToSink<'_, S>)
    ensures name { out.new.sink.ghost_name ≡ out.old.sink.ghost_name }
    ensures sent { Sends S.taken S.fault_count out.old.sink.now out.old.stopped
        (waiting_bytes out.old.buffer)
        out.new.sink.now out.new.stopped }
{
    if out.stopped {
        return;
    }
    if out.sink.faults() == u64::MAX {
        out.stopped = true;
        return;
    }
    if put_all(&mut *out.sink, out.buffer.waiting()).is_err() {
        out.stopped = true;
    }
}

impl<'a, S: TextSink> Target for ToSink<'a, S> {
    ghost wrote = { λ a bytes b. (b.sink.ghost_name ≡ a.sink.ghost_name)
        × SendsBuffered S.taken S.fault_count a.sink.now a.stopped (waiting_bytes a.buffer) bytes
        b.sink.now b.stopped (waiting_bytes b.buffer) };

    ghost stopped = { λ a. IsTrue a.stopped };

    ghost nothing = { λ a. (
      refl,
      buffered_nothing S.taken S.fault_count a.sink.now a.stopped (waiting_bytes a.buffer),
    ) };

    ghost idle = { λ a bytes h. (
      refl,
      buffered_idle S.taken S.fault_count a.sink.now a.stopped
          (waiting_bytes a.buffer) bytes h,
    ) };

    ghost more = { λ a b c x y h k. (
      k.0 ∙ h.0,
      buffered_more S.taken S.fault_count a.sink.now b.sink.now c.sink.now a.stopped
          b.stopped c.stopped
          (waiting_bytes a.buffer) (waiting_bytes b.buffer) (waiting_bytes c.buffer) x y h.1 k.1,
    ) };

    #[inline(always)]
    fn text(&mut self, text: &str) {
        if !self.buffer.add(text) {
            send(self, text);
        }
    }

    #[inline(always)]
    fn padded<P: Padded>(&mut self, text: &P) {
        if !self.buffer.add_padded(text) {
            send(self, text.as_str());
        }
    }

    #[inline(always)]
    fn padded_then<P: Padded>(&mut self, text: &P, words: &str) {
        if !self.buffer.add_padded_then(text, words) {
            send(self, text.as_str());
            send(self, words);
        }
    }

    fn is_stopped(&self) -> bool {
        self.stopped
    }
}

/// A target that is a text in memory, with a buffer before it.
#[derive(Drop)]
pub(crate) struct ToText {
    pub text: String,
    pub failed: bool,
    pub buffer: Buffer,
}

/// Lets more wait, where there is room for it alone; else appends what waits to the text, and then lets more wait, or
/// appends that too.
#[inline(never)]
fn append(out: &mut ToText, more: &str)
    ensures { TextGrew (written_bytes out.old) out.old.failed more.now
        (written_bytes out.new) out.new.failed }
{
    if out.failed || out.buffer.add(more) {
        return;
    }
    if out.text.push_str(out.buffer.waiting_text()).is_err() {
        out.failed = true;
        return;
    }
    out.buffer.clear();
    if !out.buffer.add(more) {
        out.failed = out.text.push_str(more).is_err();
    }
}

/// The whole text, unless memory was refused.
pub(crate) fn into_text(out: ToText) -> Option<String>
    ensures { IfSome result
        (λ text. (out.failed ≡ false) × (string_bytes text ≡ written_bytes out)) }
{
    let ToText {
        mut text,
        failed,
        buffer,
    } = out;
    if failed || text.push_str(buffer.waiting_text()).is_err() {
        return None;
    }
    Some(text)
}

impl Target for ToText {
    ghost wrote = { λ a bytes b.
        TextGrew (written_bytes a) a.failed bytes (written_bytes b) b.failed };

    ghost stopped = { λ a. IsTrue a.failed };

    ghost nothing = { λ a. grew_nothing (written_bytes a) a.failed };

    ghost idle = { λ a bytes h. grew_idle (written_bytes a) a.failed bytes h };

    ghost more = { λ a b c x y h k.
        grew_more (written_bytes a) (written_bytes b)
        (written_bytes c) a.failed b.failed c.failed x y h k };

    // It may go on after a failure: what stands in it then is never handed out.
    #[inline(always)]
    fn text(&mut self, text: &str) {
        if !self.buffer.add(text) {
            append(self, text);
        }
    }

    #[inline(always)]
    fn padded<P: Padded>(&mut self, text: &P) {
        if !self.buffer.add_padded(text) {
            append(self, text.as_str());
        }
    }

    #[inline(always)]
    fn padded_then<P: Padded>(&mut self, text: &P, words: &str) {
        if !self.buffer.add_padded_then(text, words) {
            append(self, text.as_str());
            append(self, words);
        }
    }

    fn is_stopped(&self) -> bool {
        self.failed
    }
}

/// A target that is a formatter.
#[derive(Drop)]
pub struct ToFormatter<'a, W> {
    pub formatter: &'a mut fmt::Formatter<W>,
    pub failed: bool,
}

impl<'a, W: fmt::Write> Target for ToFormatter<'a, W> {
    ghost wrote = { λ a bytes b. (b.formatter.ghost_name ≡ a.formatter.ghost_name)
        × FormatterTook W.write_str_gives a.formatter.now a.failed bytes b.formatter.now b.failed };

    ghost stopped = { λ a. IsTrue a.failed };

    ghost nothing = { λ a. (refl, formatted_nothing W.write_str_gives a.formatter.now a.failed) };

    ghost idle = { λ a bytes h.
        (refl, formatted_idle W.write_str_gives a.formatter.now a.failed bytes h) };

    ghost more = { λ a b c x y h k. (
      k.0 ∙ h.0,
      formatted_more W.write_str_gives a.formatter.now b.formatter.now c.formatter.now
          a.failed b.failed c.failed x y h.1 k.1,
    ) };

    fn text(&mut self, text: &str) {
        if !self.failed {
            self.failed = self.formatter.write_str(text).is_err();
        }
    }

    fn is_stopped(&self) -> bool {
        self.failed
    }
}

/// Writes a text; an empty one is left out.
#[inline(always)]
pub(crate) fn write_piece<O: Target>(out: &mut O, text: &str)
    ensures { O.wrote out.old text.now out.new }
{
    if !text.is_empty() {
        out.text(text);
    }
}
