//! What kinds of trees are written with. Each writer appends the text of some items, at a place.
ghost use Rattle.std.specs.Prelude.{◌≡◌, ℕ, ◌≤◌, List, Option, Some, [], ◌∷◌, ◌++◌, IsSome, IsTrue, MatchOption, ⊤, codes, option_copied};
ghost use Rattle.std.specs.Option.{option_map};
ghost use Rattle.graphql_base.specs.Name.{name_text};
ghost use Rattle.graphql_text.specs.parts.Descriptions.{description_shape};
ghost use Rattle.graphql_text.specs.code.Groups.{comma_lead};
ghost use Rattle.graphql_text.specs.layout.Layout.{Item, Word, Soft, Tight, Blank, Finish, last_comma};
ghost use Rattle.graphql_text.specs.trees.Leaves.{description_tree};
ghost use Rattle.graphql_text.specs.lexical.Literals.{is_int, is_float};
ghost use Rattle.graphql_text.specs.code.Place.{breaks, mode_of};
ghost use Rattle.graphql_text.specs.lexical.Tokens.{Name as NameToken, IntValue, FloatValue};
ghost use Rattle.graphql_text.specs.code.Writing.{IsCommaLead, Writes, WritesAnywhere, WritesItems, WritesLayout, fixed_text};

pub use crate::block_string::can_be_block;
use crate::breaks::{comma_break, indent, line_break, ready_comma_break};
pub use crate::depths::Depths;
pub use crate::ill_formed::ill_formed_unless;
pub use crate::node_lists::{are_parts_well_formed, find_ill_formed_part, find_parts_depths};
pub use crate::padded::Padded;
pub use crate::place::{Place, Start};
pub use crate::ready_breaks::ReadyCommaBreak;
pub use crate::stack::Stack;
pub use crate::string::{write_description, write_string_value};
pub use crate::target::{Target, ToFormatter};
pub use crate::written::{WritingStacks, Written, write_whole};
use graphql_base::name::Name;
use graphql_base::node::NodeStr;

/// Writes keywords, punctuators, spaces and commas, which stand alike at every place.
#[inline(always)]
pub fn write_words<O: Target>(out: &mut O, words: &str)
    ensures bytes { O.wrote out.old words.now out.new }
    ensures items { (mode : Option (List ℕ)) (level : ℕ) (items : List Item) →
        fixed_text items ≡ Some words.now →
        WritesItems O.wrote out.old out.new mode level items }
{
    out.text(words);
}

/// Writes a name.
#[inline(always)]
pub fn write_name<O: Target>(out: &mut O, name: &Name)
    ensures { WritesAnywhere O.wrote out.old out.new (Word (NameToken (name_text name.now)) ∷ []) }
{
    match name.short_text_or_str() {
        Ok(text) => out.padded(text),
        Err(text) => out.text(text),
    }
}

/// Writes a name, and keywords, punctuators and spaces behind it.
#[inline(always)]
pub fn write_name_then<O: Target>(out: &mut O, name: &Name, words: &str)
    ensures { (items : List Item) → fixed_text items ≡ Some words.now →
        WritesAnywhere O.wrote out.old out.new (Word (NameToken (name_text name.now)) ∷ items) }
{
    match name.short_text_or_str() {
        Ok(text) => out.padded_then(text, words),
        Err(text) => {
            out.text(text);
            write_words(out, words);
        }
    }
}

/// Writes an int.
#[inline(always)]
pub fn write_int<O: Target>(out: &mut O, int: &str)
    requires { IsTrue (is_int int.now) }
    ensures { WritesAnywhere O.wrote out.old out.new (Word (IntValue int.now) ∷ []) }
{
    out.text(int);
}

/// Writes an int that can be copied at a fixed size.
#[inline(always)]
pub fn write_padded_int<O: Target, P: Padded>(out: &mut O, int: &P)
    requires { IsTrue (is_int (P.text int.now)) }
    ensures { WritesAnywhere O.wrote out.old out.new (Word (IntValue (P.text int.now)) ∷ []) }
{
    out.padded(int);
}

/// Writes a float.
#[inline(always)]
pub fn write_float<O: Target>(out: &mut O, float: &str)
    requires { IsTrue (is_float float.now) }
    ensures { WritesAnywhere O.wrote out.old out.new (Word (FloatValue float.now) ∷ []) }
{
    out.text(float);
}

/// Writes a float that can be copied at a fixed size.
#[inline(always)]
pub fn write_padded_float<O: Target, P: Padded>(out: &mut O, float: &P)
    requires { IsTrue (is_float (P.text float.now)) }
    ensures { WritesAnywhere O.wrote out.old out.new (Word (FloatValue (P.text float.now)) ∷ []) }
{
    out.padded(float);
}

/// Writes a description and a break under a prefix, or a space on one line; nothing where there is no description.
pub fn write_leading_description<O: Target>(
    out: &mut O,
    place: &Place<'_>,
    description: Option<&NodeStr>,
)
    ensures { Writes O.wrote out.old out.new place.now
        (description_shape (option_map description_tree (option_copied description.entry))) }
{
    if let Some(description) = description {
        write_description(out, place, description.as_str());
        write_soft(out, place);
    }
}

/// Writes a break under a prefix, else a space.
pub fn write_soft<O: Target>(out: &mut O, place: &Place<'_>)
    ensures { Writes O.wrote out.old out.new place.now (Soft ∷ []) }
{
    match place.prefix {
        Some(prefix) => line_break(out, prefix, place.is_two_spaces, place.level),
        None => out.text(" "),
    }
}

/// Writes a break under a prefix, else nothing.
#[inline(always)]
pub fn write_tight<O: Target>(out: &mut O, place: &Place<'_>)
    ensures { Writes O.wrote out.old out.new place.now (Tight ∷ []) }
{
    match place.prefix {
        Some(prefix) => line_break(out, prefix, place.is_two_spaces, place.level),
        None => {} // there is no break on one line
    }
}

/// Writes an empty line and a break under a prefix, else a space.
pub fn write_blank<O: Target>(out: &mut O, place: &Place<'_>)
    ensures { Writes O.wrote out.old out.new place.now (Blank ∷ []) }
{
    match place.prefix {
        Some(prefix) => {
            out.text("\n");
            line_break(out, prefix, place.is_two_spaces, place.level);
        }
        None => write_words(out, " "),
    }
}

/// Writes a line feed under a prefix, else nothing: the end of a document.
pub fn write_finish<O: Target>(out: &mut O, place: &Place<'_>)
    ensures { Writes O.wrote out.old out.new place.now (Finish ∷ []) }
{
    match place.prefix {
        Some(_) => out.text("\n"),
        None => {}
    }
}

/// What stands before an item of a comma group that isn't the first, where that is at hand: under a prefix of two
/// spaces up to level 30. A writer of many items asks once.
#[inline(always)]
pub fn ready_comma_lead(place: &Place<'_>) -> Option<ReadyCommaBreak>
    ensures text { IsCommaLead (mode_of place.now.prefix) place.now.level result }
    ensures ready { MatchOption place.now.prefix ⊤
        (λ prefix. prefix.now ≡ codes "  " → place.now.level ≤ 30 → IsSome result) }
{
    match place.prefix {
        Some(prefix) => ready_comma_break(prefix, place.is_two_spaces, place.level),
        None => None,
    }
}

/// Writes what stands before an item of a comma group: a break under a prefix, after a comma unless it is the first
/// item; on one line a comma and a space, and nothing before the first item. What `ready_comma_lead` returns may be
/// passed, or none.
#[inline(always)]
pub fn write_comma_lead<O: Target>(
    out: &mut O,
    place: &Place<'_>,
    ready: Option<ReadyCommaBreak>,
    is_first: bool,
)
    requires { IsCommaLead (mode_of place.now.prefix) place.now.level ready }
    ensures { Writes O.wrote out.old out.new place.now (comma_lead is_first) }
{
    if is_first {
        return write_tight(out, place);
    }
    match place.prefix {
        Some(prefix) => match ready {
            Some(ready) => out.padded(&ready),
            None => comma_break(out, prefix, place.level),
        },
        None => out.text(", "),
    }
}

/// Writes the comma after the last item of a comma group, which only stands under a prefix.
pub fn write_last_comma<O: Target>(out: &mut O, place: &Place<'_>)
    ensures { Writes O.wrote out.old out.new place.now (last_comma (breaks place.now)) }
{
    match place.prefix {
        Some(_) => write_words(out, ","),
        None => {}
    }
}

/// Writes what stands before the closing bracket of a comma group, at the place of the bracket: under a prefix a comma
/// and a break, else nothing.
#[inline(always)]
pub fn write_comma_end<O: Target>(out: &mut O, place: &Place<'_>)
    ensures { Writes O.wrote out.old out.new place.now
        (last_comma (breaks place.now) ++ (Tight ∷ [])) }
{
    match place.prefix {
        Some(prefix) => match ready_comma_break(prefix, place.is_two_spaces, place.level) {
            Some(ready) => out.padded(&ready),
            None => comma_break(out, prefix, place.level),
        },
        None => {}
    }
}

/// Writes the indentation of the first line: with the items that are written after it, it makes their layout.
pub fn write_first_indent<O: Target>(out: &mut O, place: &Place<'_>)
    ensures { (last : O) (items : List Item) → Writes O.wrote out.new last place.now items →
        WritesLayout O.wrote out.old last place.now items }
{
    match place.prefix {
        Some(prefix) => indent(out, prefix, place.level),
        None => {}
    }
}
