//! A buffer of text on its owner's frame.
ghost use Rattle.std.specs.Prelude.{◌≡◌, ◌≤◌, ◌+◌, ◌*◌, ◌++◌, [], IsTrue, IsUtf8, false, length, take};
ghost use Rattle.graphql_text.specs.declared.buffer.TheConstants.{SIZE};

use crate::padded::Padded;

/// How many bytes a buffer holds.
const SIZE: usize = 1024;

/// Copies the first `END` bytes and as many last ones, which together are all. All are read before any is written, so
/// each end is one move.
#[inline(always)]
fn copy_ends<const END: usize>(to: &mut [u8], from: &[u8])
    requires len { length to.old ≡ length from.now }
    requires within { END ≤ length from.now }
    requires all { length from.now ≤ 2 * END }
    ensures { to.new ≡ from.now }
{
    let last = from.len() - END;
    let mut first_bytes = [0u8; END];
    let mut last_bytes = [0u8; END];
    first_bytes.copy_from_slice(&from[..END]);
    last_bytes.copy_from_slice(&from[last..]);
    to[..END].copy_from_slice(&first_bytes);
    to[last..].copy_from_slice(&last_bytes);
}

/// Copies up to eight bytes.
#[inline(always)]
fn copy_few(to: &mut [u8], from: &[u8])
    requires len { length to.old ≡ length from.now }
    requires few { length from.now ≤ 8 }
    ensures { to.new ≡ from.now }
{
    if from.len() > 4 {
        copy_ends::<4>(to, from);
    } else if from.len() > 2 {
        copy_ends::<2>(to, from);
    } else if !from.is_empty() {
        copy_ends::<1>(to, from);
    }
}

/// Copies a piece. Most are short, and for those a call costs more than the copy.
#[inline(always)]
fn copy_piece(to: &mut [u8], from: &[u8])
    requires { length to.old ≡ length from.now }
    ensures { to.new ≡ from.now }
{
    match from.len() {
        0..=8 => copy_few(to, from),
        9..=16 => copy_ends::<8>(to, from),
        _ => to.copy_from_slice(from),
    }
}

/// Text that waits to be sent. It takes no memory.
#[derive(Drop)]
pub(crate) struct Buffer {
    used: usize,
    bytes: [u8; SIZE],
    ghost fits: { used ≤ SIZE },
    ghost utf8: { ∥ IsUtf8 (take used bytes) ∥₁ },
}

impl Buffer {
    ghost use Rattle.graphql_text.specs.code.Buffer.{waiting_bytes};

    pub(crate) fn new() -> Buffer
        ensures { waiting_bytes result ≡ [] }
    {
        Buffer {
            used: 0,
            bytes: [0u8; SIZE],
        }
    }

    pub(crate) fn waiting(&self) -> &[u8]
        ensures { result.now ≡ waiting_bytes self.now }
    {
        &self.bytes[..self.used]
    }

    pub(crate) fn waiting_text(&self) -> &str
        ensures { result.now ≡ waiting_bytes self.now }
    {
        unsafe { str::from_utf8_unchecked(self.waiting()) }
    }

    pub(crate) fn clear(&mut self)
        ensures { waiting_bytes self.new ≡ [] }
    {
        self.used = 0;
    }

    /// Adds the text, if there is room for all of it.
    #[inline(always)]
    pub(crate) fn add(&mut self, text: &str) -> bool
        ensures added { IsTrue result →
            waiting_bytes self.new ≡ waiting_bytes self.old ++ text.now }
        ensures full { result ≡ false → self.new ≡ self.old }
        ensures room { length (waiting_bytes self.old) + length text.now ≤ SIZE → IsTrue result }
    {
        let used = self.used;
        if text.len() <= SIZE - used {
            let end = used + text.len();
            copy_piece(&mut self.bytes[used..end], text.as_bytes());
            self.used = end;
            true
        } else {
            false
        }
    }

    /// Adds the text, if there is room for it and for what stands behind it. All of that is copied, so nothing depends
    /// on how long the text is.
    #[inline(always)]
    pub(crate) fn add_padded<P: Padded>(&mut self, text: &P) -> bool
        ensures added { IsTrue result →
            waiting_bytes self.new ≡ waiting_bytes self.old ++ P.text text.now }
        ensures full { result ≡ false → self.new ≡ self.old }
        ensures room { length (waiting_bytes self.old) + P.padded_size ≤ SIZE → IsTrue result }
    {
        let used = self.used;
        let size = text.size();
        if size <= SIZE - used {
            text.copy_to(&mut self.bytes[used..used + size]);
            self.used = used + text.as_str().len();
            true
        } else {
            false
        }
    }

    /// The same of the text and words behind it, which take the place of what stands there.
    #[inline(always)]
    pub(crate) fn add_padded_then<P: Padded>(&mut self, text: &P, words: &str) -> bool
        ensures added { IsTrue result →
            waiting_bytes self.new ≡ waiting_bytes self.old ++ (P.text text.now ++ words.now) }
        ensures full { result ≡ false → self.new ≡ self.old }
        ensures room { length (waiting_bytes self.old) + P.padded_size + length words.now ≤ SIZE →
            IsTrue result }
    {
        let used = self.used;
        let size = text.size();
        let room = SIZE - used;
        if size <= room && words.len() <= room - size {
            text.copy_to(&mut self.bytes[used..used + size]);
            let end = used + text.as_str().len();
            let all = end + words.len();
            copy_piece(&mut self.bytes[end..all], words.as_bytes());
            self.used = all;
            true
        } else {
            false
        }
    }
}
