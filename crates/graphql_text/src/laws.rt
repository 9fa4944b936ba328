//! Laws of the definitions in `specs/`. The functions have empty bodies: each stands for what its contract says.

ghost use Rattle.std.specs.Prelude.{◌≡◌, ℕ, true, false, List, [], ◌∷◌, ◌++◌, ◌↔◌, IsTrue, Option, None, Some, MatchOption, codes, encode_utf8_all};
ghost use Rattle.std.specs.List.{list_all};
ghost use Rattle.graphql_base.specs.Names.{begins_in, is_name, is_name_continue};
ghost use Rattle.graphql_text.specs.strings.BlockForm.{block_text, can_be_block};
ghost use Rattle.graphql_text.specs.strings.BlockStringValue.{block_string_value, is_blank};
ghost use Rattle.graphql_text.specs.lexical.Characters.{IsSourceText, is_ignored, follows_no_number, is_quote};
ghost use Rattle.graphql_text.specs.examples.LayoutExamples.{described_name, two_definitions, two_integers, two_names};
ghost use Rattle.graphql_text.specs.layout.Layout.{IsBlankMode, Item, StringRole, comma_group, curly_group, layout, string_text};
ghost use Rattle.graphql_text.specs.layout.Lines.{LinesAreIndented};
ghost use Rattle.graphql_text.specs.lexical.Literals.{is_float, is_int};
ghost use Rattle.graphql_text.specs.kinds.Printing.{print_mode, print_tree};
ghost use Rattle.graphql_text.specs.kinds.Reading.{ReadsAlone};
ghost use Rattle.graphql_text.specs.strings.QuotedForm.{quoted_form};
ghost use Rattle.graphql_text.specs.layout.Spelling.{AreApart, tokens_of_items};
ghost use Rattle.graphql_text.specs.strings.Strings.{IsBlock, IsQuoted};
ghost use Rattle.graphql_text.specs.lexical.Tokens.{FloatValue, IntValue, Lexes, LexesBefore, Name, Punctuation, Punctuator, StringValue, Token, lbracket, punctuator_text, rbracket};

use crate::engine::{PrintError, Serialize, Syntax};
use crate::sink::SinkFault;
use std::fmt::Display;

/// A text has one list of tokens at most, whoever wrote it. So have bytes: two texts with the same UTF-8 form have the
/// same tokens.
pub fn one_token_list()
    ensures texts { (text : List ℕ) (xs ys : List Token) → Lexes text xs → Lexes text ys → xs ≡ ys }
    ensures bytes { (a b : List ℕ) (xs ys : List Token) →
        encode_utf8_all a ≡ encode_utf8_all b → Lexes a xs →
        Lexes b ys → xs ≡ ys }
{}

/// Which tokens may stand side by side. A punctuator, a block string and a quoted string may stand before anything
/// (but `""` before no quote), a name before what doesn't begin with a letter, a digit or `_`, and a number before
/// none of these and no `.`. Ignored characters may stand anywhere, and a line terminator may follow any text, even
/// one that ends in a comment. Two texts of which the first may stand before the second have the tokens of both.
pub fn tokens_side_by_side()
    ensures punctuators { (mark : Punctuator) (after : List ℕ) →
        LexesBefore (punctuator_text mark) (Punctuation mark ∷ []) after }
    ensures names { (text after : List ℕ) → is_name text ≡ true →
        begins_in is_name_continue after ≡ false →
        LexesBefore text (Name text ∷ []) after }
    ensures ints { (text after : List ℕ) → is_int text ≡ true →
        begins_in follows_no_number after ≡ false →
        LexesBefore text (IntValue text ∷ []) after }
    ensures floats { (text after : List ℕ) → is_float text ≡ true →
        begins_in follows_no_number after ≡ false →
        LexesBefore text (FloatValue text ∷ []) after }
    ensures quoted { (spelling value after : List ℕ) → IsQuoted spelling value after →
        LexesBefore spelling (StringValue value ∷ []) after }
    ensures blocks { (spelling value after : List ℕ) → IsBlock spelling value →
        LexesBefore spelling (StringValue value ∷ []) after }
    ensures ignored { (text after : List ℕ) → list_all is_ignored text ≡ true →
        LexesBefore text [] after }
    ensures joined { (a b after : List ℕ) (xs ys : List Token) → LexesBefore a xs (b ++ after) →
        LexesBefore b ys after → LexesBefore (a ++ b) (xs ++ ys) after }
    ensures lines { (a b : List ℕ) (xs ys : List Token) → Lexes a xs → Lexes b ys →
        Lexes (a ++ (0xA ∷ b)) (xs ++ ys) }
{}

/// A printed string is the one token of its value. Its quoted form is, before whatever isn't a quote. So is the block
/// form of a value that may have one, at every level and under every prefix of spaces and tabs, whatever follows; and
/// so is the form of the two that a layout chooses.
pub fn strings_keep_their_value()
    ensures quoted { (value after : List ℕ) → begins_in is_quote after ≡ false →
        LexesBefore (quoted_form value) (StringValue value ∷ []) after }
    ensures block { (prefix : List ℕ) (level : ℕ) (value after : List ℕ) → is_blank prefix ≡ true →
        can_be_block value ≡ true →
        LexesBefore (block_text prefix level value) (StringValue value ∷ []) after }
    ensures printed { (mode : Option (List ℕ)) (level : ℕ) (value : List ℕ) (role : StringRole)
        (after : List ℕ) →
        IsBlankMode mode → begins_in is_quote after ≡ false →
        LexesBefore (string_text mode level value role) (StringValue value ∷ []) after }
    ensures alone { (mode : Option (List ℕ)) (level : ℕ) (value : List ℕ) (role : StringRole) →
        IsBlankMode mode → Lexes (string_text mode level value role) (StringValue value ∷ []) }
{}

/// The layout of items, each word and string of which may stand before what follows it, is a source text, and lexes
/// as the words and strings of the items, in order: under every prefix of spaces and tabs, at every level, and on one
/// line.
pub fn layouts_lex()
    ensures tokens { (mode : Option (List ℕ)) (level : ℕ) (items : List Item) → IsBlankMode mode →
        AreApart items → Lexes (layout mode level items) (tokens_of_items items) }
    ensures source { (mode : Option (List ℕ)) (level : ℕ) (items : List Item) → IsBlankMode mode →
        AreApart items → IsSourceText (layout mode level items) }
{}

/// What layouts give: groups, a description, and a blank between two parts with a line feed at the end.
#[tactic(auto, unfolding(crate::specs::layout::Layout::text_of_items, crate::specs::layout::Layout::each_after))]
pub fn worked_layouts()
    ensures curly_group { layout (Some (codes "  ")) 1 (curly_group two_names)
        ≡ codes "  {\n    a\n    b\n  }" }
    ensures curly_group_on_one_line { layout None 1 (curly_group two_names) ≡ codes "{ a b }" }
    ensures empty_curly_group { layout (Some (codes "  ")) 0 (curly_group []) ≡ codes "{}" }
    ensures comma_group { layout (Some (codes "\t")) 1
        (comma_group lbracket rbracket true two_integers)
        ≡ codes "\t[\n\t\t1,\n\t\t2,\n\t]" }
    ensures comma_group_on_one_line { layout None 1
        (comma_group lbracket rbracket false two_integers)
        ≡ codes "[1, 2]" }
    ensures empty_comma_group { layout (Some (codes "  ")) 0 (comma_group lbracket rbracket true [])
        ≡ codes "[]" }
    ensures description { layout (Some (codes "  ")) 1 described_name
        ≡ codes "  \"\"\"d\"\"\"\n  a" }
    ensures description_on_one_line { layout None 0 described_name ≡ codes "\"d\" a" }
    ensures document { layout (Some (codes "  ")) 1 two_definitions ≡ codes "  a\n\n  b\n" }
    ensures document_on_one_line { layout None 0 two_definitions ≡ codes "a b" }
{}

/// Texts that lex, and what to.
pub fn worked_texts()
    ensures list { Lexes (codes "[1 2,,3 #c\n]")
        (Punctuation lbracket ∷ IntValue (codes "1") ∷ IntValue (codes "2") ∷ IntValue (codes "3")
        ∷ Punctuation rbracket ∷ []) }
    ensures escapes { Lexes (codes "\"\\u0041\\/\"") (StringValue (codes "A/") ∷ []) }
    ensures block { Lexes (codes "\"\"\"\n\ta\n\"\"\"") (StringValue (codes "a") ∷ []) }
    ensures numbers { Lexes (codes "-0 1.50e-3")
        (IntValue (codes "-0") ∷ FloatValue (codes "1.50e-3") ∷ []) }
    ensures names { Lexes (codes "on_2\"\"") (Name (codes "on_2") ∷ StringValue [] ∷ []) }
    ensures nothing { Lexes [] [] }
{}

/// Texts that lex to nothing, a text that lexes to less than it seems to, and numbers that are no characters.
pub fn refused_texts()
    ensures no_digits { (tokens : List Token) → Lexes (codes "1e") tokens → ⊥ }
    ensures leading_zero { (tokens : List Token) → Lexes (codes "01") tokens → ⊥ }
    ensures name_after_number { (tokens : List Token) → Lexes (codes "1a") tokens → ⊥ }
    ensures unterminated { (tokens : List Token) → Lexes (codes "\"a") tokens → ⊥ }
    ensures line_in_quotes { (tokens : List Token) → Lexes (codes "\"a\nb\"") tokens → ⊥ }
    ensures surrogate { (tokens : List Token) → Lexes (codes "\"\\uD800\"") tokens → ⊥ }
    ensures in_comment { (tokens : List Token) → Lexes (codes "[1 #c]") tokens →
        tokens ≡ Punctuation lbracket ∷ IntValue (codes "1") ∷ [] }
    ensures no_surrogate { IsSourceText (0xD800 ∷ []) → ⊥ }
    ensures no_greater { IsSourceText (0x110000 ∷ []) → ⊥ }
{}

/// What raw values of block strings stand for: the example of the specification; each line terminator is a line feed;
/// the first line keeps its indentation; blank lines at the front and at the end are dropped; a line shorter than the
/// common indentation becomes empty; a tab counts as one.
pub fn block_string_values()
    ensures example { block_string_value
        (codes "\n    Hello,\n      World!\n\n    Yours,\n      GraphQL.\n  ")
        ≡ codes "Hello,\n  World!\n\nYours,\n  GraphQL." }
    ensures terminators { block_string_value (codes "a\r\nb\rc\nd") ≡ codes "a\nb\nc\nd" }
    ensures first_line { block_string_value (codes "  a\n  b") ≡ codes "  a\nb" }
    ensures blank { block_string_value (codes " \n\t\r\r\n") ≡ codes "" }
    ensures short_line { block_string_value (codes "a\n    b\n \n  c\n\n") ≡ codes "a\n  b\n\nc" }
    ensures tab { block_string_value (codes "\n\t a\n\t\t\n  b") ≡ codes "a\n\nb" }
{}

/// Texts of which each line that isn't empty begins with the prefix as often as the level and the brackets open there
/// say.
pub fn indented_texts()
    ensures group { LinesAreIndented (codes "  ") 0
        (codes "{\n  list: [\n    1,\n    2,\n  ],\n}") }
    ensures level { LinesAreIndented (codes "\t") 2 (codes "\t\t[\n\t\t\t1,\n\t\t]") }
    ensures block { LinesAreIndented (codes "  ") 0
        (codes "[\n  \"\"\"\n  [{(\n\n  ) \\\"\"\" ]\n  \"\"\",\n  \"({[\",\n  \"\",\n]") }
    ensures default { LinesAreIndented (codes "  ") 0
        (codes "f(\n  a: [Int] = [\n    1,\n  ] @x,\n): Int") }
    ensures document { LinesAreIndented (codes "  ") 1
        (codes "  type A\n\n  query {\n    a\n  }\n") }
{}

/// Texts of which one line isn't: an item, a closing bracket, the first line, and the inner lines of a block string,
/// where a bracket is none.
pub fn outdented_texts()
    ensures item { LinesAreIndented (codes "  ") 0 (codes "[\n  1,\n 2,\n]") → ⊥ }
    ensures closing { LinesAreIndented (codes "  ") 1 (codes "  [\n    1,\n ]") → ⊥ }
    ensures first { LinesAreIndented (codes "  ") 1 (codes "{ a }") → ⊥ }
    ensures block { LinesAreIndented (codes "  ") 0 (codes "[\n  \"\"\"\n)\n  \"\"\",\n]") → ⊥ }
    ensures block_end { LinesAreIndented (codes "  ") 0 (codes "[\n  \"\"\"\n  a\n \"\"\",\n]") →
        ⊥ }
{}

/// What is displayed of a well-formed tree, on one line or under a prefix of spaces and tabs, is read as that tree,
/// and as no other.
pub fn displayed_trees_are_read<'a, T: Syntax>(_printed: &Serialize<'a, T>)
    ensures { IsTrue (T.kind.obeys (T.tree (print_tree _printed.now))) →
        IsBlankMode (print_mode _printed.now) →
        MatchOption (⟦<Serialize<'a, T> as Display>⟧.output _printed.now) ⊥
        (λ bytes. ReadsAlone T.kind bytes (T.tree (print_tree _printed.now))) }
{}

/// A clone of a print is the same print: of the same tree, in the same layout.
pub fn clones_of_prints_are_the_same<'a, T>(_print: &Serialize<'a, T>, _clone: &Serialize<'a, T>)
    ensures { ⟦<Serialize<'a, T> as Clone>⟧.is_clone _print.now _clone.now →
        _clone.now ≡ _print.now }
{}

/// Two errors of a print are equal exactly if they are the same one.
pub fn print_errors_compare_by_variant(a: PrintError, b: PrintError)
    ensures { IsTrue (⟦<PrintError as PartialEq>⟧.eq a b) ↔ (a ≡ b) }
{}

/// Two faults of sinks are equal: a fault holds nothing.
pub fn sink_faults_are_equal(a: SinkFault, b: SinkFault)
    ensures { IsTrue (⟦<SinkFault as PartialEq>⟧.eq a b) }
{}
