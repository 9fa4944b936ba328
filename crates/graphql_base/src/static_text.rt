//! A static text, seen as its bytes. Its type names no lifetime, so that what holds one, in a list or a
//! tree, can be lent for writing.
ghost use Rattle.std.specs.Prelude.{◌≡◌, ◌^◌, ◌<◌, ℕ, List, length};
ghost use denote.RawPtr.{Ptr};
ghost use Rattle.graphql_base.specs.StaticBytes.{IsPlaced, readable_forever};

use std::marker::Model;
use std::str;

mod reads;

/// The right to read these bytes at this address for the whole program.
#[derive(Drop)]
pub(crate) struct Readable {
    ghost at: { Ptr },
    ghost bytes: { List ℕ },
    ghost placed: { IsPlaced at × (length bytes < 2 ^ 63) },
}

impl Model for Readable {
    ghost also_owns = { λ readable. readable_forever readable.at readable.bytes };

    ghost also_shares = { λ readable _ _. readable_forever readable.at readable.bytes };
}

/// A static text. Contracts see its bytes.
#[derive(Drop)]
pub struct StaticText {
    at: *const u8,
    len: usize,
    readable: Readable,
}

impl Model for StaticText {
    ghost use Rattle.std.specs.Prelude.{◌≡◌, ℕ, List, length, IsUtf8};

    ghost Value = { List ℕ };

    ghost view = { λ text. text.readable.bytes };

    ghost invariant = { λ text. (text.at ≡ text.readable.at)
        × (text.len ≡ length text.readable.bytes) × IsUtf8 text.readable.bytes };
}

impl StaticText {
    pub fn new(text: &'static str) -> StaticText
        ensures { result ≡ text.now }
    {
        let (at, readable) = Readable::of(text.as_bytes());
        StaticText {
            at,
            len: text.len(),
            readable,
        }
    }

    pub fn as_str(&self) -> &'static str
        ensures { result.now ≡ self.now }
    {
        unsafe { str::from_utf8_unchecked(self.readable.read(self.at, self.len)) }
    }
}
