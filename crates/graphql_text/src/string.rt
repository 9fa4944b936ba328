//! Strings, quoted or as block strings.

ghost use Rattle.std.specs.Prelude.{[], ◌∷◌, chars};
ghost use Rattle.graphql_text.specs.layout.Layout.{AsDescription, AsValue, StringItem};
ghost use Rattle.graphql_text.specs.code.Writing.{Writes};

use crate::block_string::{begins_unindented, can_be_block, holds, write_block, write_plain_block};
use crate::place::Place;
use crate::quoted_string::{has_escaped, write_plain, write_quoted_runs};
use crate::target::Target;

/// Writes a string value that may hold characters to escape.
#[inline(never)]
fn write_with_escapes<O: Target>(out: &mut O, place: &Place<'_>, value: &str)
    ensures { Writes O.wrote out.old out.new place.now (StringItem (chars value.now) AsValue ∷ []) }
{
    match place.prefix {
        Some(prefix) if holds(value, b'\n') && can_be_block(value) => {
            write_block(out, prefix, place.level, value)
        }
        _ => write_quoted_runs(out, value),
    }
}

/// Writes a string value: as a block string under a prefix, if the value holds a line feed and can be a block string,
/// else quoted.
///
/// A value can be a block string if it holds no carriage return, its first and its last line aren't blank, and at
/// least one line begins with a character that is neither a space nor a tab.
// A writer of values calls it last, and so needs no frame of its own for the values that are no strings.
#[inline(never)]
pub fn write_string_value<O: Target>(out: &mut O, place: &Place<'_>, value: &str)
    ensures { Writes O.wrote out.old out.new place.now (StringItem (chars value.now) AsValue ∷ []) }
{
    if has_escaped(value) {
        write_with_escapes(out, place, value);
    } else {
        write_plain(out, value);
    }
}

/// Writes a description that may hold characters to escape.
#[inline(never)]
fn write_description_with_escapes<O: Target>(out: &mut O, place: &Place<'_>, value: &str)
    ensures { Writes O.wrote out.old out.new place.now
        (StringItem (chars value.now) AsDescription ∷ []) }
{
    match place.prefix {
        Some(prefix) if can_be_block(value) => write_block(out, prefix, place.level, value),
        _ => write_quoted_runs(out, value),
    }
}

/// Writes a description, the string alone: as a block string under a prefix, if it can be one, else quoted.
pub fn write_description<O: Target>(out: &mut O, place: &Place<'_>, value: &str)
    ensures { Writes O.wrote out.old out.new place.now
        (StringItem (chars value.now) AsDescription ∷ []) }
{
    match place.prefix {
        _ if has_escaped(value) => write_description_with_escapes(out, place, value),
        Some(prefix) if begins_unindented(value) => {
            write_plain_block(out, prefix, place.is_two_spaces, place.level, value)
        }
        _ => write_plain(out, value),
    }
}
