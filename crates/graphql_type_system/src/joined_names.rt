//! Names that are joined by a punctuator: the interfaces of a type, the members of a union.
ghost use Rattle.std.specs.Prelude.{◌≡◌, ◌∷◌, [], Some};
ghost use Rattle.graphql_text.specs.parts.JoinedNames.{joined_names_shape};
ghost use Rattle.graphql_text.specs.layout.Layout.{Space, Word};
ghost use Rattle.graphql_text.specs.lexical.Literals.{NameText};
ghost use Rattle.graphql_text.specs.lexical.Tokens.{Punctuation, Punctuator, Token};
ghost use Rattle.graphql_text.specs.code.Writing.{WritesAnywhere, fixed_text};
ghost use Rattle.graphql_text.specs.trees.Leaves.{name_trees};

use graphql_base::name::Name;
use graphql_text::writers::{Target, write_name, write_words};

/// Writes an opening, a word between spaces, and names, with a separator between spaces among them; nothing where there
/// is no name.
pub(crate) fn write_joined_names<O: Target>(
    out: &mut O,
    opening: &str,
    separator: &str,
    names: &[Name],
)
    ensures { (word : Token) (mark : Punctuator) →
        fixed_text (Space ∷ Word word ∷ Space ∷ []) ≡ Some opening.now →
        fixed_text (Space ∷ Word (Punctuation mark) ∷ Space ∷ []) ≡ Some separator.now →
        WritesAnywhere O.wrote out.old out.new
        (joined_names_shape word mark (λ (name : NameText). name.text) (name_trees names.now)) }
{
    let Some((first, rest)) = names.split_first() else {
        return;
    };
    write_words(out, opening);
    write_name(out, first);
    for name in rest {
        if out.is_stopped() {
            return;
        }
        write_words(out, separator);
        write_name(out, name);
    }
}
