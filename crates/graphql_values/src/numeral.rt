//! The text of a number, which takes no memory where it is short.
ghost use Rattle.std.specs.Prelude.{◌≡◌, ◌↔◌, ◌≤◌, IfOk, IfSome, IsOk, IsSome, length, nat_eq};
ghost use Rattle.std.specs.Cmp.{partial_equiv_from_equiv};
ghost use Rattle.std.specs.Cmp.Lexicographic.{pointwise, nat_list_eq_equiv};
ghost use Rattle.std.specs.Cmp.Rules.{hashing};
ghost use Rattle.std.specs.Hash as fed;
ghost use Rattle.std.proofs.Common.{rules};
ghost use Rattle.graphql_base.specs.ShortTexts.{short_bytes};
ghost use Rattle.graphql_values.specs.declared.numeral.TheConstants.{ROOM};

use graphql_base::short_text::ShortText;
use std::alloc::{AllocError, Global};
use std::fmt::{self, Debug, Formatter, Write};
use std::hash::{Hash, Hasher};
use std::marker::Model;

/// The most bytes that a numeral holds in place. With more it would be longer than one that holds a `String`.
pub(crate) const ROOM: usize = 30;

#[derive(Drop)]
enum Form {
    Short(ShortText<ROOM>),
    Long(String),
}

/// The text of a number. One of at most `ROOM` bytes stands in place. Contracts see its bytes.
#[derive(Drop)]
pub struct Numeral {
    form: Form,
}

const _: () = prove!(size_of::<Numeral>() == 32);

impl Model for Numeral {
    ghost use Rattle.std.specs.Prelude.{List, ℕ};
    ghost use Rattle.graphql_values.specs.code.Numerals.{StandsInPlaceIfShort, form_bytes};

    ghost Value = { List ℕ };

    ghost view = { λ numeral. form_bytes numeral.form };

    ghost invariant = { λ numeral. StandsInPlaceIfShort numeral.form };
}

impl Numeral {
    pub fn new(alloc: Global, text: &str) -> Result<Numeral, AllocError>
        ensures text { IfOk result (λ numeral. numeral ≡ text.now) }
        ensures short { length text.now ≤ ROOM → IsOk result }
    {
        let form = if text.len() <= ROOM {
            Form::Short(ShortText::new(text))
        } else {
            Form::Long(String::from_str(alloc, text)?)
        };
        Ok(Numeral { form })
    }

    pub fn as_str(&self) -> &str
        ensures { result.now ≡ self.now }
    {
        match &self.form {
            Form::Short(text) => text.as_str(),
            Form::Long(text) => text.as_str(),
        }
    }

    /// The text, exactly if it stands in place.
    #[inline(always)]
    pub fn short_text(&self) -> Option<&ShortText<ROOM>>
        ensures some { IsSome result ↔ (length self.now ≤ ROOM) }
        ensures text { IfSome result (λ text. short_bytes text.now ≡ self.now) }
    {
        match &self.form {
            Form::Short(text) => Some(text),
            Form::Long(_) => None,
        }
    }
}

impl Clone for Numeral {
    ghost is_clone = { λ numeral copy. copy ≡ numeral };

    fn clone(&self) -> Result<Numeral, AllocError> {
        let form = match &self.form {
            Form::Short(text) => Form::Short(*text),
            Form::Long(text) => Form::Long(text.clone()?),
        };
        Ok(Numeral { form })
    }
}

impl PartialEq for Numeral {
    ghost eq = { λ x y. pointwise nat_eq x y };

    ghost laws = { partial_equiv_from_equiv nat_list_eq_equiv };

    fn eq(&self, other: &Numeral) -> bool {
        self.as_str() == other.as_str()
    }
}

impl Eq for Numeral {
    ghost laws = { nat_list_eq_equiv };
}

impl Hash for Numeral {
    ghost hash_input = { λ x. fed.str x };

    ghost respects_eq = { Prim.search (hashing, rules) };

    fn hash<H: Hasher>(&self, state: &mut H) {
        self.as_str().hash(state);
    }
}

impl Debug for Numeral {
    fn fmt<W: Write>(&self, f: &mut Formatter<W>) -> fmt::Result {
        self.as_str().fmt(f)
    }
}
