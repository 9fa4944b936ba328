//! A short text that stands in its owner, and takes no memory.
ghost use Rattle.std.specs.Prelude.{◌≡◌, ◌≤◌, IsUtf8, length, take};

/// A text of at most `ROOM` bytes, which are stored in it.
///
/// ```
/// let text: ShortText<4> = ShortText::new("id");
/// text.as_str() // "id"
/// ```
#[derive(Clone, Copy)]
pub struct ShortText<const ROOM: usize> {
    used: u8,
    bytes: [u8; ROOM],
    ghost fits: { used ≤ ROOM },
    ghost utf8: { ∥ IsUtf8 (take used bytes) ∥₁ },
}

impl<const ROOM: usize> ShortText<ROOM> {
    ghost use Rattle.graphql_base.specs.ShortTexts.{short_bytes};

    /// The text, in place.
    pub fn new(text: &str) -> ShortText<ROOM>
        requires fits { length text.now ≤ ROOM }
        requires small { ROOM ≤ 255 }
        ensures { short_bytes result ≡ text.now }
    {
        let mut bytes = [0u8; ROOM];
        bytes[..text.len()].copy_from_slice(text.as_bytes());
        ShortText {
            used: text.len() as u8,
            bytes,
        }
    }

    /// How many bytes the text has.
    pub fn len(&self) -> usize
        ensures value { result ≡ length (short_bytes self.now) }
        ensures fits { result ≤ ROOM }
    {
        self.used as usize
    }

    pub fn as_str(&self) -> &str
        ensures { result.now ≡ short_bytes self.now }
    {
        unsafe { str::from_utf8_unchecked(&self.bytes[..self.used as usize]) }
    }

    /// The text, and behind it bytes of which nothing is said.
    #[inline(always)]
    pub fn padded(&self) -> [u8; ROOM]
        ensures { take (length (short_bytes self.now)) result ≡ short_bytes self.now }
    {
        self.bytes
    }
}
