//! Block strings.

ghost use Rattle.std.specs.Prelude.{◌≡◌, ◌-◌, ◌==◌, ◌<◌, ℕ, get_or, IsTrue, true, false, nat_lt, Decides, length, drop, [], chars, codes, encode_utf8_all};
ghost use Rattle.std.specs.List.{list_any, repeat};
ghost use Rattle.graphql_text.specs.lexical.Characters.{begins_with, is_space_or_tab, quotes};
ghost use Rattle.graphql_text.specs.strings.BlockStringValue.{is_blank as holds_only_blanks, lines_of};
ghost use Rattle.graphql_text.specs.strings.QuotedForm.{quoted_character};
ghost use Rattle.graphql_text.specs.strings.BlockForm.{begins_unindented as has_no_indent, block_form, block_on_one_line, block_over_lines, block_text, broken_line, can_be_block as has_block_form, escape_quotes, would_join_closing_quotes};

use crate::breaks::line_break;
use crate::target::{Target, write_piece};

/// Whether a byte stands in a text. There is no early exit, so the compiler makes it a loop over vectors.
pub(crate) fn holds(text: &str, byte: u8) -> bool
    ensures { result ≡ list_any (λ other. other == byte) text.now }
{
    let mut found = false;
    for other in text.as_bytes() {
        found = found | (*other == byte);
    }
    found
}

fn is_space_or_tab_byte(byte: u8) -> bool
    ensures { result ≡ is_space_or_tab byte }
{
    byte == b' ' || byte == b'\t'
}

fn is_blank(line: &str) -> bool
    ensures { result ≡ holds_only_blanks line.now }
{
    line.bytes().all(|byte| is_space_or_tab_byte(byte))
}

pub(crate) fn begins_unindented(line: &str) -> bool
    ensures { result ≡ has_no_indent line.now }
{
    match line.bytes().next() {
        Some(byte) => !is_space_or_tab_byte(byte),
        None => false,
    }
}

/// Whether the first line holds white space only.
#[tactic(auto, using(crate::proofs::strings::LinesByBytes::first_line))]
fn begins_blank(value: &[u8]) -> bool
    ensures { result ≡ holds_only_blanks (get_or (lines_of value.now) 0 []) }
{
    let mut rest = value;
    while let Some((first, after)) = rest.split_first() {
        if *first == b'\n' {
            return true;
        }
        if !is_space_or_tab_byte(*first) {
            return false;
        }
        rest = after;
    }
    true
}

/// Whether the last line holds white space only. It is looked at from its end.
#[tactic(auto, using(crate::proofs::strings::LinesByBytes::last_line_steps))]
fn ends_blank(value: &[u8]) -> bool
    ensures { result ≡ holds_only_blanks
        (get_or (lines_of value.now) (length (lines_of value.now) - 1) []) }
{
    let mut rest = value;
    while let Some((last, before)) = rest.split_last() {
        if *last == b'\n' {
            return true;
        }
        if !is_space_or_tab_byte(*last) {
            return false;
        }
        rest = before;
    }
    true
}

/// Whether a line begins with something other than white space. The first line mostly does.
#[tactic(auto, using(crate::proofs::strings::LinesByBytes::unindented_steps))]
fn has_unindented_line(value: &[u8]) -> bool
    ensures { result ≡ list_any has_no_indent (lines_of value.now) }
{
    let mut is_line_start = true;
    let mut rest = value;
    while let Some((first, after)) = rest.split_first() {
        if is_line_start && *first != b'\n' && !is_space_or_tab_byte(*first) {
            return true;
        }
        is_line_start = *first == b'\n';
        rest = after;
    }
    false
}

/// Whether the printer may write a value as a block string.
pub fn can_be_block(value: &str) -> bool
    ensures { result ≡ has_block_form (chars value.now) }
{
    let bytes = value.as_bytes();
    if ends_blank(bytes) | begins_blank(bytes) {
        return false;
    }
    !holds(value, b'\r') & has_unindented_line(bytes)
}

/// Whether `"""` stands in a text. There is no early exit, so the compiler makes it a loop over vectors.
fn holds_quotes(text: &str) -> bool
    ensures { Decides result ((i : ℕ) × (begins_with quotes (drop i text.now) ≡ true)) }
{
    let bytes = text.as_bytes();
    let mut found = false;
    for i in 2..bytes.len() {
        found = found | ((bytes[i - 2] == b'"') & (bytes[i - 1] == b'"') & (bytes[i] == b'"'));
    }
    found
}

fn begins_with_quotes(bytes: &[u8]) -> bool
    ensures { result ≡ begins_with quotes bytes.now }
{
    match bytes {
        [a, b, c, ..] => *a == b'"' && *b == b'"' && *c == b'"',
        _ => false,
    }
}

/// Writes a text with each `"""` as `\"""`: each run between them as one piece.
fn write_runs<O: Target>(out: &mut O, text: &str)
    ensures { O.wrote out.old (escape_quotes text.now) out.new }
{
    let bytes = text.as_bytes();
    let mut from = 0;
    let mut i = 0;
    while i < bytes.len() {
        if out.is_stopped() {
            return;
        }
        if begins_with_quotes(&bytes[i..]) {
            write_piece(out, &text[from..i]);
            out.text("\\\"\"\"");
            i += 3;
            from = i;
        } else {
            i += 1;
        }
    }
    write_piece(out, &text[from..]);
}

/// Writes a text with each `"""` as `\"""`.
fn write_escaped<O: Target>(out: &mut O, text: &str)
    ensures { O.wrote out.old (escape_quotes text.now) out.new }
{
    if holds_quotes(text) {
        write_runs(out, text);
    } else {
        write_piece(out, text);
    }
}

/// Writes a break and the line, or a bare line feed for an empty line.
fn write_line<O: Target>(out: &mut O, prefix: &str, level: usize, line: &str)
    ensures { O.wrote out.old (broken_line (repeat level prefix.now) line.now) out.new }
{
    if line.is_empty() {
        return out.text("\n");
    }
    line_break(out, prefix, prefix == "  ", level);
    write_escaped(out, line);
}

/// Writes the block form with breaks.
fn write_over_lines<O: Target>(out: &mut O, prefix: &str, level: usize, value: &str)
    ensures { O.wrote out.old (block_over_lines (repeat level prefix.now) value.now) out.new }
{
    out.text("\"\"\"");
    for line in value.split('\n') {
        if out.is_stopped() {
            return;
        }
        write_line(out, prefix, level, line);
    }
    line_break(out, prefix, prefix == "  ", level);
    out.text("\"\"\"");
}

/// Writes the block form without breaks.
fn write_on_one_line<O: Target>(out: &mut O, value: &str)
    ensures { O.wrote out.old (block_on_one_line value.now) out.new }
{
    out.text("\"\"\"");
    write_escaped(out, value);
    out.text("\"\"\"");
}

/// Whether closing quotes cannot stand right after the value.
fn would_join_quotes(value: &[u8]) -> bool
    ensures { result ≡ would_join_closing_quotes value.now }
{
    match value {
        [.., last] => *last == b'"' || *last == b'\\',
        [] => false,
    }
}

/// Writes the block form of bytes.
fn write_block_bytes<O: Target>(out: &mut O, prefix: &str, level: usize, value: &str)
    ensures { O.wrote out.old
        (block_form (repeat level prefix.now) (nat_lt 70 (length value.now)) value.now) out.new }
{
    if holds(value, b'\n') | (value.len() > 70) | would_join_quotes(value.as_bytes()) {
        write_over_lines(out, prefix, level, value);
    } else {
        write_on_one_line(out, value);
    }
}

/// Writes the block form of a value that can be a block string.
pub(crate) fn write_block<O: Target>(out: &mut O, prefix: &str, level: usize, value: &str)
    ensures { O.wrote out.old
        (encode_utf8_all (block_text (chars prefix.now) level (chars value.now))) out.new }
{
    write_block_bytes(out, prefix, level, value);
}

/// Writes the block form of one line of which nothing is escaped, with breaks.
fn write_plain_over_lines<O: Target>(
    out: &mut O,
    prefix: &str,
    is_two_spaces: bool,
    level: usize,
    line: &str,
)
    requires two_spaces { IsTrue is_two_spaces → prefix.now ≡ codes "  " }
    requires some { 0 < length line.now }
    requires plain { list_any (λ byte. nat_lt 1 (length (quoted_character byte))) line.now ≡ false }
    ensures { O.wrote out.old (block_over_lines (repeat level prefix.now) line.now) out.new }
{
    out.text("\"\"\"");
    line_break(out, prefix, is_two_spaces, level);
    write_piece(out, line);
    line_break(out, prefix, is_two_spaces, level);
    out.text("\"\"\"");
}

/// Writes the block form of one line of which nothing is escaped, without breaks.
fn write_plain_on_one_line<O: Target>(out: &mut O, line: &str)
    requires { list_any (λ byte. nat_lt 1 (length (quoted_character byte))) line.now ≡ false }
    ensures { O.wrote out.old (block_on_one_line line.now) out.new }
{
    out.text("\"\"\"");
    write_piece(out, line);
    out.text("\"\"\"");
}

/// Writes the block form of a value of which nothing is escaped, and which so is one line.
pub(crate) fn write_plain_block<O: Target>(
    out: &mut O,
    prefix: &str,
    is_two_spaces: bool,
    level: usize,
    value: &str,
)
    requires two_spaces { IsTrue is_two_spaces → prefix.now ≡ codes "  " }
    requires plain { list_any (λ byte. nat_lt 1 (length (quoted_character byte))) value.now
        ≡ false }
    ensures { O.wrote out.old
        (encode_utf8_all (block_text (chars prefix.now) level (chars value.now))) out.new }
{
    if value.len() > 70 {
        write_plain_over_lines(out, prefix, is_two_spaces, level, value);
    } else {
        write_plain_on_one_line(out, value);
    }
}
