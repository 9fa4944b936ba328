//! A text that is static, shared or in place, and where it stands, seen as its bytes, that choice and an optional span.
ghost use Rattle.std.specs.Prelude.{◌≡◌, ◌↔◌, ◌+◌, ◌<◌, ◌≤◌, ◌^◌, IfErr, IfOk, IfSome, IsTrue, IsSome, IsOk, Some, None, length};
ghost use Rattle.std.specs.Prelude.{true, false, nat_eq, refl};
ghost use Rattle.std.specs.Ordering.{nat_cmp};
ghost use Rattle.std.specs.Cmp.{on_equiv, on_total, on_per, on_po, partial_equiv_from_equiv};
ghost use Rattle.std.specs.Cmp.Lexicographic.{pointwise, slice_cmp, nat_list_eq_equiv, nat_list_cmp_total, texts_ties, texts_po};
ghost use Rattle.std.specs.Cmp.Rules.{hashing};
ghost use Rattle.std.specs.Hash as fed;
ghost use Rattle.std.specs.Rc.{rc_str_bytes};
ghost use Rattle.std.proofs.Common.{rules};
ghost use Rattle.graphql_base.specs.ShortTexts.{short_bytes};
ghost use Rattle.graphql_base.specs.StoredTexts.{StaticForm, SharedForm, InPlaceForm};
ghost use Rattle.graphql_base.specs.StoredTexts.{is_static_form, is_shared_form, is_in_place_form};
ghost use Rattle.graphql_base.specs.Stretches.{text_stretch};

use crate::short_text::ShortText;
use crate::span::{FileId, SourceSpan};
use crate::static_text::StaticText;
use std::alloc::{AllocError, Global};
use std::cmp::Ordering;
use std::fmt::{self, Debug, Formatter, Write};
use std::hash::{Hash, Hasher};
use std::marker::Model;
use std::rc::RcStr;

/// The most bytes that stand in place. With more it would be longer than one that holds a static text and a location.
pub const IN_PLACE: usize = 18;

// A variant's fields lie right behind its tag. So `start` comes before a static or shared text, in the bytes up to
// it, and a text in place comes first: it takes 19 bytes, and with the tag they end where `start` may stand.
#[derive(Drop)]
enum Form {
    InPlace {
        text: ShortText<IN_PLACE>,
        alloc: Global,
    },
    InPlaceAt {
        text: ShortText<IN_PLACE>,
        start: u32,
        file_id: FileId,
        alloc: Global,
    },
    Static(StaticText),
    StaticAt {
        start: u32,
        text: StaticText,
        file_id: FileId,
    },
    Shared(RcStr),
    SharedAt {
        start: u32,
        text: RcStr,
        file_id: FileId,
    },
}

/// The stretch of a file from `start` on that is as long as a text.
fn stretch_of_text(file_id: FileId, start: u32, text: &str) -> Option<SourceSpan>
    requires { start + length text.now < 2 ^ 32 }
    ensures { result ≡ text_stretch file_id start text.now }
{
    SourceSpan::new(file_id, start, start + text.len() as u32)
}

/// A text that is static, shared or in place, and where it stands in a source text, if that is known. It stands on
/// as many bytes as it has, so the end of that stretch isn't kept. A text in place keeps the allocator, which takes no
/// room, for copies that are shared.
#[derive(Drop)]
pub struct LocatedText {
    form: Form,
}

const _: () = prove!(size_of::<LocatedText>() == 32);

impl Model for LocatedText {
    ghost use Rattle.graphql_base.specs.StoredTexts.{StoredText, stored, EndsInReach};

    ghost Value = { StoredText };

    ghost view = { λ text. stored text.form };

    ghost invariant = { λ text. EndsInReach text.form };
}

impl LocatedText {
    ghost use Rattle.graphql_base.specs.Span.{span_len};

    pub fn from_static(text: &'static str) -> LocatedText
        ensures { result ≡ record { bytes = text.now; form = StaticForm; location = None } }
    {
        LocatedText {
            form: Form::Static(StaticText::new(text)),
        }
    }

    pub fn from_shared(text: RcStr) -> LocatedText
        ensures { result
            ≡ record { bytes = rc_str_bytes text; form = SharedForm; location = None } }
    {
        LocatedText {
            form: Form::Shared(text),
        }
    }

    /// `alloc` is kept for copies that are shared: no memory is taken here.
    pub fn in_place(alloc: Global, text: ShortText<IN_PLACE>) -> LocatedText
        ensures { result
            ≡ record { bytes = short_bytes text; form = InPlaceForm; location = None } }
    {
        LocatedText {
            form: Form::InPlace { text, alloc },
        }
    }

    /// The same text at another source location.
    #[tactic(auto, using(crate::proofs::SpanStretches::filled))]
    pub fn at(self, span: SourceSpan) -> LocatedText
        requires { span_len span ≡ length self.bytes }
        ensures { result
            ≡ record { bytes = self.bytes; form = self.form; location = Some span } }
    {
        let LocatedText { form } = self;
        let start = span.start();
        let file_id = span.file_id();
        match form {
            Form::Static(text) | Form::StaticAt { text, .. } => LocatedText {
                form: Form::StaticAt {
                    start,
                    text,
                    file_id,
                },
            },
            Form::Shared(text) | Form::SharedAt { text, .. } => LocatedText {
                form: Form::SharedAt {
                    start,
                    text,
                    file_id,
                },
            },
            Form::InPlace { text, alloc } | Form::InPlaceAt { text, alloc, .. } => LocatedText {
                form: Form::InPlaceAt {
                    text,
                    start,
                    file_id,
                    alloc,
                },
            },
        }
    }

    pub fn location(&self) -> Option<SourceSpan>
        ensures value { result ≡ self.now.location }
        ensures length { IfSome result (λ span. span_len span ≡ length self.now.bytes) }
    {
        match &self.form {
            Form::StaticAt { start, file_id, .. }
            | Form::SharedAt { start, file_id, .. }
            | Form::InPlaceAt { start, file_id, .. } => stretch_of_text(
                *file_id,
                *start,
                self.as_str(),
            ),
            Form::Static(_) | Form::Shared(_) | Form::InPlace { .. } => None,
        }
    }

    pub fn as_str(&self) -> &str
        ensures { result.now ≡ self.now.bytes }
    {
        match &self.form {
            Form::Static(text) | Form::StaticAt { text, .. } => text.as_str(),
            Form::Shared(text) | Form::SharedAt { text, .. } => text.as_str(),
            Form::InPlace { text, .. } | Form::InPlaceAt { text, .. } => text.as_str(),
        }
    }

    pub fn as_static_str(&self) -> Option<&'static str>
        ensures some { IsSome result ↔ IsTrue (is_static_form self.now.form) }
        ensures value { IfSome result (λ text. text.now ≡ self.now.bytes) }
    {
        match &self.form {
            Form::Static(text) | Form::StaticAt { text, .. } => Some(text.as_str()),
            Form::Shared(_) | Form::SharedAt { .. } => None,
            Form::InPlace { .. } | Form::InPlaceAt { .. } => None,
        }
    }

    /// The text that stands in place, or else the text.
    #[inline(always)]
    pub fn short_text_or_str(&self) -> Result<&ShortText<IN_PLACE>, &str>
        ensures short { IfOk result (λ text. short_bytes text.now ≡ self.now.bytes) }
        ensures other { IfErr result (λ text. text.now ≡ self.now.bytes) }
        ensures in_place { IsOk result ↔ IsTrue (is_in_place_form self.now.form) }
    {
        match &self.form {
            Form::InPlace { text, .. } | Form::InPlaceAt { text, .. } => Ok(text),
            Form::Static(text) | Form::StaticAt { text, .. } => Err(text.as_str()),
            Form::Shared(text) | Form::SharedAt { text, .. } => Err(text.as_str()),
        }
    }

    pub fn to_shared(&self) -> Result<Option<RcStr>, AllocError>
        ensures static_text { IsTrue (is_static_form self.now.form) → result ≡ Ok None }
        ensures other_text { is_static_form self.now.form ≡ false → IfOk result IsSome }
        ensures value { IfOk result
            (λ copy. IfSome copy (λ text. rc_str_bytes text ≡ self.now.bytes)) }
    {
        match &self.form {
            Form::Static(_) | Form::StaticAt { .. } => Ok(None),
            Form::Shared(text) | Form::SharedAt { text, .. } => Ok(Some(text.clone()?)),
            Form::InPlace { text, alloc } | Form::InPlaceAt { text, alloc, .. } => Ok(Some(
                RcStr::from_str(*alloc, text.as_str())?,
            )),
        }
    }

    pub fn into_shared(self, alloc: Global) -> Result<RcStr, AllocError>
        ensures value { IfOk result (λ text. rc_str_bytes text ≡ self.bytes) }
        ensures succeeds { IsTrue (is_shared_form self.form) → IsOk result }
    {
        let LocatedText { form } = self;
        match form {
            Form::Static(text) | Form::StaticAt { text, .. } => RcStr::from_str(
                alloc,
                text.as_str(),
            ),
            Form::Shared(text) | Form::SharedAt { text, .. } => Ok(text),
            Form::InPlace { text, .. } | Form::InPlaceAt { text, .. } => RcStr::from_str(
                alloc,
                text.as_str(),
            ),
        }
    }
}

impl Clone for LocatedText {
    ghost is_clone = { λ text copy. copy ≡ text };

    fn clone(&self) -> Result<LocatedText, AllocError> {
        let copy = match &self.form {
            Form::Static(text) | Form::StaticAt { text, .. } => LocatedText::from_static(
                text.as_str(),
            ),
            Form::Shared(text) | Form::SharedAt { text, .. } => LocatedText::from_shared(
                text.clone()?,
            ),
            Form::InPlace { text, alloc } | Form::InPlaceAt { text, alloc, .. } =>
                LocatedText::in_place(*alloc, *text),
        };
        match self.location() {
            Some(span) => Ok(copy.at(span)),
            None => Ok(copy),
        }
    }
}

impl PartialEq for LocatedText {
    ghost eq = { λ x y. pointwise nat_eq x.bytes y.bytes };

    ghost laws = { on_per (λ x. x.bytes) (partial_equiv_from_equiv nat_list_eq_equiv) };

    fn eq(&self, other: &LocatedText) -> bool {
        self.as_str() == other.as_str()
    }
}

impl Eq for LocatedText {
    ghost laws = { on_equiv (λ x. x.bytes) nat_list_eq_equiv };
}

impl PartialOrd for LocatedText {
    ghost partial_cmp = { λ x y. Some (slice_cmp nat_cmp x.bytes y.bytes) };

    ghost laws = { on_po (λ x. x.bytes) texts_po };

    fn partial_cmp(&self, other: &LocatedText) -> Option<Ordering> {
        Some(self.cmp(other))
    }
}

impl Ord for LocatedText {
    ghost cmp = { λ x y. slice_cmp nat_cmp x.bytes y.bytes };

    ghost total = { on_total (λ x. x.bytes) nat_list_cmp_total };

    ghost matches_partial_cmp = { λ x y. refl };

    ghost matches_eq = { λ x y. texts_ties x.bytes y.bytes };

    fn cmp(&self, other: &LocatedText) -> Ordering {
        self.as_str().cmp(other.as_str())
    }
}

impl Hash for LocatedText {
    ghost hash_input = { λ x. fed.str x.bytes };

    ghost respects_eq = { Prim.search (hashing, rules) };

    fn hash<H: Hasher>(&self, state: &mut H) {
        self.as_str().hash(state);
    }
}

impl Debug for LocatedText {
    fn fmt<W: Write>(&self, f: &mut Formatter<W>) -> fmt::Result {
        self.as_str().fmt(f)
    }
}
