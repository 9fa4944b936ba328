//! Strings of JSON.
ghost use Rattle.std.specs.Prelude.{◌≡◌, ◌<◌, IsTrue, nat_lt, length, flat_map};
ghost use Rattle.json.specs.Print.{escape, escape_byte, quoted};

use graphql_text::writers::Target;

/// Whether a byte has an escape: a quotation mark, a backslash, or a control character.
#[inline(always)]
#[tactic(auto, unfolding(json::specs::Print::escape_byte))]
fn needs_escape(byte: u8) -> bool
    ensures escaped { result ≡ nat_lt 1 (length (escape_byte byte)) }
    ensures ascii { IsTrue result → byte < 128 }
{
    (byte == b'"') | (byte == b'\\') | (byte < b' ')
}

/// The escape of a byte that has one.
#[tactic(auto, unfolding(json::specs::Print::escape_byte))]
fn escape_of(byte: u8) -> &'static str
    requires { IsTrue (nat_lt 1 (length (escape_byte byte))) }
    ensures { result.now ≡ escape_byte byte }
{
    match byte {
        b'"' => "\\\"",
        b'\\' => "\\\\",
        0x00 => "\\u0000",
        0x01 => "\\u0001",
        0x02 => "\\u0002",
        0x03 => "\\u0003",
        0x04 => "\\u0004",
        0x05 => "\\u0005",
        0x06 => "\\u0006",
        0x07 => "\\u0007",
        0x08 => "\\b",
        0x09 => "\\t",
        0x0A => "\\n",
        0x0B => "\\u000b",
        0x0C => "\\f",
        0x0D => "\\r",
        0x0E => "\\u000e",
        0x0F => "\\u000f",
        0x10 => "\\u0010",
        0x11 => "\\u0011",
        0x12 => "\\u0012",
        0x13 => "\\u0013",
        0x14 => "\\u0014",
        0x15 => "\\u0015",
        0x16 => "\\u0016",
        0x17 => "\\u0017",
        0x18 => "\\u0018",
        0x19 => "\\u0019",
        0x1A => "\\u001a",
        0x1B => "\\u001b",
        0x1C => "\\u001c",
        0x1D => "\\u001d",
        0x1E => "\\u001e",
        0x1F => "\\u001f",
        _ => "", // no other byte has an escape
    }
}

/// Writes the escape of a byte that has one. Most are of these three, and a text of a known length costs least to copy.
#[inline(always)]
#[tactic(auto, unfolding(json::specs::Print::escape_byte))]
fn write_escape<O: Target>(out: &mut O, byte: u8)
    requires { IsTrue (nat_lt 1 (length (escape_byte byte))) }
    ensures { O.wrote out.old (escape_byte byte) out.new }
{
    match byte {
        b'"' => out.text("\\\""),
        b'\\' => out.text("\\\\"),
        b'\n' => out.text("\\n"),
        _ => out.text(escape_of(byte)),
    }
}

/// Writes a text; an empty one is left out.
#[inline(always)]
fn write_piece<O: Target>(out: &mut O, text: &str)
    ensures { O.wrote out.old text.now out.new }
{
    if !text.is_empty() {
        out.text(text);
    }
}

/// Writes the characters of a string: each run of those that have no escape as one piece.
fn write_runs<O: Target>(out: &mut O, text: &str)
    ensures { O.wrote out.old (escape text.now) out.new }
{
    let mut from = 0;
    for (i, byte) in text.as_bytes().iter().enumerate() {
        if needs_escape(*byte) {
            if out.is_stopped() {
                return;
            }
            write_piece(out, &text[from..i]);
            write_escape(out, *byte);
            from = i + 1;
        }
    }
    write_piece(out, &text[from..]);
}

/// Writes a string in quotation marks, with the escapes that it needs, the short ones where there are such.
pub fn write_string<O: Target>(out: &mut O, text: &str)
    ensures { O.wrote out.old (quoted text.now) out.new }
{
    out.text("\"");
    write_runs(out, text);
    out.text("\"");
}
