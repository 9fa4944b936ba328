//! Quoted strings.

ghost use Rattle.std.specs.Prelude.{◌≡◌, ◌<◌, ◌≤◌, IsTrue, false, nat_lt, length, flat_map, chars, encode_utf8_all};
ghost use Rattle.std.specs.List.{list_any};
ghost use Rattle.graphql_text.specs.strings.QuotedForm.{quoted_character, quoted_form};

use crate::target::{Target, write_piece};

/// Whether a byte is escaped.
fn is_escaped(byte: u8) -> bool
    ensures escaped { result ≡ nat_lt 1 (length (quoted_character byte)) }
    ensures ascii { IsTrue result → byte < 128 }
{
    (byte == b'"') | (byte == b'\\') | ((byte < b' ') & (byte != b'\t'))
}

/// The same for a byte alone: most stand behind the quotation mark.
#[inline(always)]
fn needs_escape(byte: u8) -> bool
    ensures escaped { result ≡ nat_lt 1 (length (quoted_character byte)) }
    ensures ascii { IsTrue result → byte < 128 }
{
    if byte > b'"' {
        byte == b'\\'
    } else {
        is_escaped(byte)
    }
}

/// Whether one of a few bytes is escaped. There is no early exit, so the compiler looks at all of them at once.
#[inline(always)]
fn has_escaped_byte(bytes: &[u8]) -> bool
    ensures { result ≡ list_any (λ byte. nat_lt 1 (length (quoted_character byte))) bytes.now }
{
    let mut found = false;
    for byte in bytes {
        found = found | is_escaped(*byte);
    }
    found
}

/// Whether some byte is escaped, looked for piece by piece. The last piece ends with the bytes, so no byte is left over
/// to be looked at alone.
#[inline(always)]
fn has_escaped_in_pieces(bytes: &[u8], size: usize) -> bool
    requires some { 0 < size }
    requires within { size ≤ length bytes.now }
    ensures { result ≡ list_any (λ byte. nat_lt 1 (length (quoted_character byte))) bytes.now }
{
    let last = bytes.len() - size;
    let mut i = 0;
    while i < last {
        if has_escaped_byte(&bytes[i..i + size]) {
            return true;
        }
        i += size;
    }
    has_escaped_byte(&bytes[last..])
}

/// Whether some byte is escaped.
pub(crate) fn has_escaped(text: &str) -> bool
    ensures { result ≡ list_any (λ byte. nat_lt 1 (length (quoted_character byte))) text.now }
{
    let bytes = text.as_bytes();
    match bytes.len() {
        0..=3 => has_escaped_byte(bytes),
        4..=7 => has_escaped_in_pieces(bytes, 4),
        8..=15 => has_escaped_in_pieces(bytes, 8),
        16..=31 => has_escaped_in_pieces(bytes, 16),
        _ => has_escaped_in_pieces(bytes, 32),
    }
}

/// The escape of a byte that has one.
fn escape(byte: u8) -> &'static str
    requires { IsTrue (nat_lt 1 (length (quoted_character byte))) }
    ensures { result.now ≡ quoted_character byte }
{
    match byte {
        b'"' => "\\\"",
        b'\\' => "\\\\",
        0x00 => "\\u0000",
        0x01 => "\\u0001",
        0x02 => "\\u0002",
        0x03 => "\\u0003",
        0x04 => "\\u0004",
        0x05 => "\\u0005",
        0x06 => "\\u0006",
        0x07 => "\\u0007",
        0x08 => "\\b",
        0x0A => "\\n",
        0x0B => "\\u000B",
        0x0C => "\\f",
        0x0D => "\\r",
        0x0E => "\\u000E",
        0x0F => "\\u000F",
        0x10 => "\\u0010",
        0x11 => "\\u0011",
        0x12 => "\\u0012",
        0x13 => "\\u0013",
        0x14 => "\\u0014",
        0x15 => "\\u0015",
        0x16 => "\\u0016",
        0x17 => "\\u0017",
        0x18 => "\\u0018",
        0x19 => "\\u0019",
        0x1A => "\\u001A",
        0x1B => "\\u001B",
        0x1C => "\\u001C",
        0x1D => "\\u001D",
        0x1E => "\\u001E",
        0x1F => "\\u001F",
        _ => "", // no other byte is escaped
    }
}

/// Writes the escape of a byte that has one. Most are of these three, and a text of a known length costs least to copy.
#[inline(always)]
fn write_escape<O: Target>(out: &mut O, byte: u8)
    requires { IsTrue (nat_lt 1 (length (quoted_character byte))) }
    ensures { O.wrote out.old (quoted_character byte) out.new }
{
    match byte {
        b'"' => out.text("\\\""),
        b'\\' => out.text("\\\\"),
        b'\n' => out.text("\\n"),
        _ => out.text(escape(byte)),
    }
}

/// Writes the string characters of a text: each run of plain characters as one piece.
fn write_runs<O: Target>(out: &mut O, text: &str)
    ensures { O.wrote out.old (flat_map quoted_character text.now) out.new }
{
    let mut from = 0;
    for (i, byte) in text.as_bytes().iter().enumerate() {
        if needs_escape(*byte) {
            if out.is_stopped() {
                return;
            }
            write_piece(out, &text[from..i]);
            write_escape(out, *byte);
            from = i + 1;
        }
    }
    write_piece(out, &text[from..]);
}

/// Writes the quoted form of a value of which nothing is escaped.
pub(crate) fn write_plain<O: Target>(out: &mut O, value: &str)
    requires { list_any (λ byte. nat_lt 1 (length (quoted_character byte))) value.now ≡ false }
    ensures { O.wrote out.old (encode_utf8_all (quoted_form (chars value.now))) out.new }
{
    out.text("\"");
    write_piece(out, value);
    out.text("\"");
}

/// Writes the quoted form of a value in runs.
pub(crate) fn write_quoted_runs<O: Target>(out: &mut O, value: &str)
    ensures { O.wrote out.old (encode_utf8_all (quoted_form (chars value.now))) out.new }
{
    out.text("\"");
    write_runs(out, value);
    out.text("\"");
}
