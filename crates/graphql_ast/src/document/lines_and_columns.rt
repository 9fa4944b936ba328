//! Positions in source texts: the line and the column, as messages name them.
ghost use Rattle.std.specs.Prelude.{◌≡◌, ◌+◌, ◌^◌, ◌<◌, ◌≤◌, ◌==◌, ◌&&◌, ◌||◌, [], ◌++◌, chars, codes, count_by, if◌then◌else◌, length, nat_lt, not, option_copied, string_bytes};
ghost use Rattle.std.specs.List.{after_last, suffix_len};
ghost use Rattle.graphql_text.specs.strings.BlockStringValue.{with_lf};
ghost use Rattle.graphql_ast.specs.LinesAndColumns.{IsPositionAt, IsStartPosition, position_behind, source_file_of};

use crate::document::{Document, SourceFile};
use graphql_base::span::{FileId, SourceSpan};

/// A position in a source text, for messages.
///
/// A line ends with a line terminator (`LineTerminator`, section 2.1.3).
///
/// ```
/// // the text of the file: "a\né {"
/// if let Some(LineColumn { line, column }) = file.line_column(4) {
///     println!(rt; "{line}:{column}")?; // 2:2
/// }
/// ```
#[derive(Clone, Copy, PartialEq, Eq, Hash, Debug)]
pub struct LineColumn {
    /// The number of the line, from 1.
    pub line: usize,
    /// The number of the character in its line, from 1.
    pub column: usize,
}

impl SourceFile {
    /// The line and the column at an offset, in bytes from the beginning of the text. The length of the text is an
    /// offset too: the position behind the last character. Between the CR and the LF of one line terminator the next
    /// line begins, as it does behind both.
    ///
    /// `None` exactly where the offset is behind the end of the text or within a character.
    ///
    /// ```
    /// file.line_column(4) // of the text "a\né {": line 2, column 2
    /// file.line_column(3) // None
    /// ```
    pub fn line_column(&self, offset: usize) -> Option<LineColumn>
        ensures { IsPositionAt (string_bytes self.now.text) offset result }
    {
        let text = self.text.as_str();
        if text.is_char_boundary(offset) {
            Some(position_behind(&text[..offset]))
        } else {
            None
        }
    }
}

impl Document {
    /// The source file of this id.
    pub(crate) fn source_file(&self, id: FileId) -> Option<&SourceFile>
        ensures { option_copied result ≡ source_file_of id self.now.sources.entries }
    {
        self.sources.get(&id)
    }

    /// The line and the column where a span of one of the source files begins.
    ///
    /// `None` exactly where the document has no source file of that id, or the span begins behind the end of its text
    /// or within a character.
    ///
    /// ```
    /// let position = document.line_column(node.location()?)?;
    /// ```
    pub fn line_column(&self, span: SourceSpan) -> Option<LineColumn>
        ensures { IsStartPosition self.now.sources.entries span result }
    {
        match self.source_file(span.file_id()) {
            Some(file) => file.line_column(span.start() as usize),
            None => None,
        }
    }
}

/// A text of fewer bytes is gone through by its characters, which takes less time than counting.
const FEW: usize = 64;

/// The position behind a text.
fn position_behind(text: &str) -> LineColumn
    requires { length text.now < 2 ^ 63 }
    ensures { result ≡ position_behind (chars text.now) }
{
    if text.len() < FEW {
        position_by_characters(text)
    } else {
        position_by_counts(text)
    }
}

/// The position behind a text, character by character.
fn position_by_characters(text: &str) -> LineColumn
    requires { length text.now < 2 ^ 63 }
    ensures { result ≡ position_behind (chars text.now) }
{
    let mut position = LineColumn { line: 1, column: 1 };
    let mut is_behind_return = false;
    for character in text.chars() {
        position = next_position(position, is_behind_return, character);
        is_behind_return = character == '\r';
    }
    position
}

/// The position behind one character more, where a CR may stand before it.
fn next_position(position: LineColumn, is_behind_return: bool, character: char) -> LineColumn
    requires { position.line + position.column < 2 ^ 63 + 2 }
    ensures { result ≡
        (if (character == 0xD) || ((character == 0xA) && not is_behind_return)
        then record { line = position.line + 1; column = 1 }
        else if character == 0xA then position
        else record { line = position.line; column = position.column + 1 }) }
{
    if character > '\r' {
        // Most characters are none of those below, and are told by one comparison.
        LineColumn {
            line: position.line,
            column: position.column + 1,
        }
    } else if character == '\r' || character == '\n' && !is_behind_return {
        LineColumn {
            line: position.line + 1,
            column: 1,
        }
    } else if character == '\n' {
        position
    } else {
        LineColumn {
            line: position.line,
            column: position.column + 1,
        }
    }
}

/// The position behind a text, by counts of its bytes. It isn't inlined, so that short texts don't pay for it.
#[inline(never)]
fn position_by_counts(text: &str) -> LineColumn
    requires { length text.now < 2 ^ 63 }
    ensures { result ≡ position_behind (chars text.now) }
{
    LineColumn {
        line: 1 + line_terminators(text),
        column: 1 + last_line_len(text),
    }
}

/// How many bytes are counted at a time: so few that their count fits in a byte, and many are counted by one instruction.
const CHUNK: usize = 240;

/// How many line terminators a text has.
fn line_terminators(text: &str) -> usize
    requires { length text.now < 2 ^ 63 }
    ensures count { result ≡ count_by (λ c. c == 0xA) (with_lf (chars text.now)) }
    ensures most { result ≤ length text.now }
{
    let mut count = 0;
    let mut is_behind_return = false;
    for bytes in text.as_bytes().chunks(CHUNK) {
        count += line_ends(bytes, is_behind_return) as usize;
        is_behind_return = match bytes.last() {
            Some(last) => *last == b'\r',
            None => is_behind_return,
        };
    }
    count
}

/// Whether a line ends with this byte, where a CR may stand before it: a LF ends none then.
fn ends_line(byte: u8, is_behind_return: bool) -> bool
    ensures { result ≡ ((byte == 0xD) || ((byte == 0xA) && not is_behind_return)) }
{
    byte == b'\r' || byte == b'\n' && !is_behind_return
}

/// How many line terminators more a text has with these bytes behind it, where it ends with a CR or not.
fn line_ends(bytes: &[u8], is_behind_return: bool) -> u8
    requires { length bytes.now < 256 }
    ensures { let before = if is_behind_return then codes "\r" else [] in
        count_by (λ c. c == 0xA) (with_lf (before ++ bytes.now))
        ≡ count_by (λ c. c == 0xA) (with_lf before) + result }
{
    let mut count = 0;
    let mut is_behind_return = is_behind_return;
    for byte in bytes {
        count += ends_line(*byte, is_behind_return) as u8;
        is_behind_return = *byte == b'\r';
    }
    count
}

/// Whether a character begins with this byte: each byte of one but the first is from 0x80 to 0xBF.
fn begins_character(byte: u8) -> bool
    ensures { result ≡ (nat_lt byte 0x80 || nat_lt 0xBF byte) }
{
    byte < 0x80 || byte > 0xBF
}

/// How many characters begin in these bytes.
fn characters_begun(bytes: &[u8]) -> u8
    requires { length bytes.now < 256 }
    ensures { result ≡ count_by (λ c. nat_lt c 0x80 || nat_lt 0xBF c) bytes.now }
{
    let mut count = 0;
    for byte in bytes {
        count += begins_character(*byte) as u8;
    }
    count
}

/// How many characters begin in these bytes behind the last CR or LF.
fn characters_behind_line_end(bytes: &[u8]) -> usize
    requires { length bytes.now < 2 ^ 63 }
    ensures count { result ≡ count_by (λ c. nat_lt c 0x80 || nat_lt 0xBF c)
        (after_last (λ c. (c == 0xD) || (c == 0xA)) bytes.now) }
    ensures most { result ≤ length bytes.now }
{
    let mut len = 0;
    for byte in bytes.iter().rev() {
        if ends_line(*byte, false) {
            return len;
        }
        if begins_character(*byte) {
            len += 1;
        }
    }
    len
}

/// How many characters stand behind the last line terminator of a text.
fn last_line_len(text: &str) -> usize
    requires { length text.now < 2 ^ 63 }
    ensures count { result ≡ suffix_len (λ c. not (c == 0xA)) (with_lf (chars text.now)) }
    ensures most { result ≤ length text.now }
{
    let mut len = 0;
    for bytes in text.as_bytes().rchunks(CHUNK) {
        if line_ends(bytes, false) > 0 {
            return len + characters_behind_line_end(bytes);
        }
        len += characters_begun(bytes) as usize;
    }
    len
}
