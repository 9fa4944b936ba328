//! A digest of all results.

const PRIME: u64 = 0x100000001b3;

/// FNV-1a, over words of eight bytes and then over the bytes that are left.
#[derive(Clone, Copy)]
pub struct Digest {
    pub hash: u64,
}

impl Digest {
    pub fn new() -> Digest {
        Digest {
            hash: 0xcbf29ce484222325,
        }
    }

    pub fn add_number(&mut self, number: u64) {
        self.hash = (self.hash ^ number).wrapping_mul(PRIME);
    }

    pub fn add(&mut self, text: &str) {
        let bytes = text.as_bytes();
        let words = bytes.len() / 8;
        for index in 0..words {
            let at = index * 8;
            self.add_number(u64::from_le_bytes([
                bytes[at],
                bytes[at + 1],
                bytes[at + 2],
                bytes[at + 3],
                bytes[at + 4],
                bytes[at + 5],
                bytes[at + 6],
                bytes[at + 7],
            ]));
        }
        for byte in &bytes[words * 8..] {
            self.add_number(*byte as u64);
        }
        self.add_number(bytes.len() as u64);
    }
}
