//! Line breaks, and the prefix that lines begin with.

ghost use Rattle.std.specs.Prelude.{◌≡◌, ◌≤◌, ◌++◌, IsSome, IsTrue, MatchOption, ⊤, chars, codes, encode_utf8_all};
ghost use Rattle.std.specs.List.{repeat};
ghost use Rattle.graphql_text.specs.layout.Layout.{break_text};
ghost use Rattle.graphql_text.specs.code.Breaks.{ready_text, ready_comma_text};
ghost use Rattle.graphql_text.specs.declared.ready_breaks.TheConstants.{READY_LEVELS};

use crate::ready_breaks::{READY_LEVELS, ReadyBreak, ReadyCommaBreak};
use crate::target::Target;

/// Writes the prefix as often as the level.
#[inline(never)]
pub(crate) fn indent<O: Target>(out: &mut O, prefix: &str, level: usize)
    ensures { O.wrote out.old (encode_utf8_all (repeat level (chars prefix.now))) out.new }
{
    if prefix.is_empty() {
        return;
    }
    for _ in 0..level {
        if out.is_stopped() {
            return;
        }
        out.text(prefix);
    }
}

/// A line feed, and the prefix as often as the level, where that is a text at hand.
#[inline(always)]
fn ready_break(prefix: &str, is_two_spaces: bool, level: usize) -> Option<ReadyBreak>
    requires { IsTrue is_two_spaces → prefix.now ≡ codes "  " }
    ensures { MatchOption result ⊤
        (λ ready. ready_text ready ≡ encode_utf8_all (break_text (chars prefix.now) level)) }
{
    if is_two_spaces && level <= READY_LEVELS {
        Some(ReadyBreak::new(level))
    } else {
        None
    }
}

/// A comma, a line feed, and the prefix as often as the level, where that is a text at hand.
#[inline(always)]
pub(crate) fn ready_comma_break(
    prefix: &str,
    is_two_spaces: bool,
    level: usize,
) -> Option<ReadyCommaBreak>
    requires { IsTrue is_two_spaces → prefix.now ≡ codes "  " }
    ensures text { MatchOption result ⊤ (λ ready.
        ready_comma_text ready
        ≡ codes "," ++ encode_utf8_all (break_text (chars prefix.now) level)) }
    ensures ready { IsTrue is_two_spaces → level ≤ READY_LEVELS → IsSome result }
{
    if is_two_spaces && level <= READY_LEVELS {
        Some(ReadyCommaBreak::new(level))
    } else {
        None
    }
}

/// Writes a line feed, and the prefix as often as the level, one by one.
#[inline(never)]
fn write_break<O: Target>(out: &mut O, prefix: &str, level: usize)
    ensures { O.wrote out.old (encode_utf8_all (break_text (chars prefix.now) level)) out.new }
{
    out.text("\n");
    indent(out, prefix, level);
}

/// Writes a comma, a line feed, and the prefix as often as the level, one by one.
#[inline(never)]
pub(crate) fn comma_break<O: Target>(out: &mut O, prefix: &str, level: usize)
    ensures { O.wrote out.old
        (codes "," ++ encode_utf8_all (break_text (chars prefix.now) level)) out.new }
{
    out.text(",\n");
    indent(out, prefix, level);
}

/// Writes a line feed, and the prefix as often as the level.
#[inline(always)]
pub(crate) fn line_break<O: Target>(out: &mut O, prefix: &str, is_two_spaces: bool, level: usize)
    requires { IsTrue is_two_spaces → prefix.now ≡ codes "  " }
    ensures { O.wrote out.old (encode_utf8_all (break_text (chars prefix.now) level)) out.new }
{
    match ready_break(prefix, is_two_spaces, level) {
        Some(ready) => out.padded(&ready),
        None => write_break(out, prefix, level),
    }
}
