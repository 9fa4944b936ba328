//! Texts that are copied at a fixed size.
ghost use Rattle.std.specs.Prelude.{◌≡◌, ℕ, List, length, take};

use graphql_base::short_text::ShortText;

/// A text that is copied together with bytes behind it, as many in all as its type says.
pub trait Padded {
    /// The bytes of the text.
    ghost text: { Self → List ℕ };

    /// How many bytes there are, with those behind the text.
    ghost padded_size: { ℕ };

    /// How many bytes there are, with those behind the text.
    fn size(&self) -> usize
        ensures { result ≡ padded_size };

    /// Copies the text and the bytes behind it, of which nothing is said.
    fn copy_to(&self, bytes: &mut [u8])
        requires { length bytes.old ≡ padded_size }
        ensures { take (length (text self.now)) bytes.new ≡ text self.now };

    fn as_str(&self) -> &str
        ensures { result.now ≡ text self.now };
}

impl<const ROOM: usize> Padded for ShortText<ROOM> {
    ghost use Rattle.graphql_base.specs.ShortTexts.{short_bytes};

    ghost text = { short_bytes };

    ghost padded_size = { ROOM };

    #[inline(always)]
    fn size(&self) -> usize {
        ROOM
    }

    // By way of an array of its own: the compiler then knows that the two don't overlap.
    #[inline(always)]
    fn copy_to(&self, bytes: &mut [u8]) {
        bytes.copy_from_slice(&self.padded());
    }

    #[inline(always)]
    fn as_str(&self) -> &str {
        ShortText::as_str(self)
    }
}
