//! Making and using the right to read.
ghost use Rattle.std.specs.Prelude.{◌≡◌, length};

use super::Readable;
use std::slice;

impl Readable {
    /// The address where static bytes lie, and the right to read them there.
    pub(crate) fn of(bytes: &'static [u8]) -> (*const u8, Readable)
        ensures { (result.1.at ≡ result.0) × (result.1.bytes ≡ bytes.now) }
    {
        (bytes.as_ptr(), Readable {})
    }

    /// The bytes, for the whole program.
    pub(crate) fn read(&self, at: *const u8, len: usize) -> &'static [u8]
        requires { (at ≡ self.now.at) × (len ≡ length self.now.bytes) }
        ensures { result.now ≡ self.now.bytes }
    {
        unsafe { slice::from_raw_parts(at, len) }
    }
}
