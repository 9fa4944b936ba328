//! What the offsets of locations count.
ghost use Rattle.std.specs.Prelude.{◌≡◌, ◌<◌, ◌^◌, ℕ, IfSome, None};
ghost use Rattle.graphql_base.specs.declared.span.SourceSpan.{SourceSpan};
ghost use Rattle.ast_json_nodes.specs.nodes.Offsets.{IsByteOf, IsByteSpanOf};

use graphql_base::span::SourceSpan;

/// What the offsets of a location count.
///
/// AST JSON has the numbers of the program that wrote it: graphql-js counts UTF-16 code units, graphql-core code
/// points.
///
/// ```
/// Offsets::Utf16.byte_offset("é {", 2) // Some(3)
/// Offsets::CodePoints.byte_offset("é {", 2) // Some(3)
/// Offsets::Bytes.byte_offset("é {", 1) // None: within a character
/// ```
#[derive(Clone, Copy, Debug, PartialEq, Eq)]
pub enum Offsets {
    Utf16,
    CodePoints,
    Bytes,
}

impl Offsets {
    ghost use Rattle.graphql_base.specs.Span.{span_end, span_start};
    ghost use Rattle.ast_json_nodes.specs.nodes.Offsets.{IsFront, units};

    /// How many units a character has.
    fn units(self, character: char) -> u64
        ensures { result ≡ units self character }
    {
        match self {
            Offsets::Utf16 => character.len_utf16() as u64,
            Offsets::CodePoints => 1,
            Offsets::Bytes => character.len_utf8() as u64,
        }
    }

    /// How many units and bytes the first characters have: so many characters that at least as many units stand before
    /// the next one as the offset tells, or all.
    fn front(self, text: &str, offset: u32) -> (u64, u64)
        ensures { IsFront self text.now offset result.0 result.1 }
    {
        let (mut count, mut byte) = (0u64, 0u64);
        for character in text.chars() {
            if count >= u64::from(offset) {
                break;
            }
            count += self.units(character);
            byte += character.len_utf8() as u64;
        }
        (count, byte)
    }

    /// The byte of the text before which so many units stand. `None` where the offset falls within a character or behind
    /// the text, or the byte is none of the first 2^32.
    ///
    /// ```
    /// Offsets::Utf16.byte_offset("é\u{1F600}x", 3) // Some(6): é has two bytes, the emoji two units and four bytes
    /// Offsets::Utf16.byte_offset("é\u{1F600}x", 2) // None: within the emoji
    /// ```
    pub fn byte_offset(self, text: &str, offset: u32) -> Option<u32>
        ensures some { IfSome result (IsByteOf self text.now offset) }
        ensures none { result ≡ None → (byte : ℕ) → byte < 2 ^ 32 →
            ¬ IsByteOf self text.now offset byte }
    {
        let (count, byte) = self.front(text, offset);
        if count == u64::from(offset) {
            u32::try_from(byte).ok()
        } else {
            None
        }
    }

    /// The same span of the text by its bytes. `None` where one of its offsets has no byte.
    pub fn byte_span(self, text: &str, span: SourceSpan) -> Option<SourceSpan>
        ensures some { IfSome result (IsByteSpanOf self text.now span) }
        ensures none { result ≡ None → (bytes : SourceSpan) →
            span_start bytes < 2 ^ 32 → span_end bytes < 2 ^ 32 →
            ¬ IsByteSpanOf self text.now span bytes }
    {
        let start = self.byte_offset(text, span.start())?;
        let end = self.byte_offset(text, span.end())?;
        SourceSpan::new(span.file_id(), start, end)
    }
}
