//! Names, with their syntax. Their texts are static, shared, or in place: in the name itself.
ghost use Rattle.std.specs.Prelude.{◌≡◌, ◌↔◌, ◌≤◌, false, length};
ghost use Rattle.std.specs.Prelude.{IfOk, IfErr, IfSome, IsTrue, IsSome, IsOk, Some, None};
ghost use Rattle.std.specs.List.{list_all};
ghost use Rattle.std.specs.Rc.{rc_str_bytes};
ghost use Rattle.graphql_base.specs.Names.{is_name, is_name_start, is_name_continue, begins_in};

use crate::located_text::{self, LocatedText};
use crate::short_text::ShortText;
use crate::span::SourceSpan;
use std::alloc::{AllocError, Global};
use std::fmt::{self, Debug, Display, Formatter, Write};
use std::rc::RcStr;
use thiserror::Error;

/// A name (`Name`, section 2.1.9): a letter or `_`, followed by letters, digits and `_`, all of ASCII.
///
/// A name is its text, and optionally its source location. The text has one of three forms:
///
/// - *static*: it lives for the whole program (`new_static`, `name!`);
/// - *shared*: it has an allocation of its own, which clones of the name share (`new`, `new_shared`);
/// - *in place*: at most `Name::IN_PLACE` bytes, stored in the name itself without an allocation (`compact`).
///
/// Equality, order and hash are those of the text alone: they ignore the source location and the form of the text. The
/// order is that of the bytes. A clone keeps the location and the form.
///
/// ```
/// let name = Name::new(alloc, "id")?;
/// name == name!(id) // true
/// ```
#[derive(Drop)]
#[derive_where(PartialEq, Eq, PartialOrd, Ord, Hash)]
pub struct Name {
    text: LocatedText,
    pub ghost valid: { IsTrue (is_name text.bytes) },
}

/// The name of a type (`NamedType`, section 2.11).
pub type NamedType = Name;

/// The error of a text that is no name.
///
/// ```
/// if let Err(NameError::Invalid(error)) = Name::new(alloc, "2nd search") {
///     println!(rt; "{error}")?; // `2nd search` is not a valid GraphQL name
/// }
/// ```
#[derive(Clone, Debug, Drop, PartialEq, Eq, Error)]
#[error("`{name}` is not a valid GraphQL name")]
pub struct InvalidNameError {
    /// The text.
    pub name: String,
    /// Where the text stands. The constructors of `Name` don't know it, and leave it out.
    pub location: Option<SourceSpan>,
}

/// Why a constructor of `Name` returned no name.
///
/// ```
/// match Name::new(alloc, "a-b") {
///     Ok(name) => println!(rt; "{name}")?,
///     Err(NameError::Invalid(error)) => println!(rt; "{}", error.name)?, // a-b
///     Err(NameError::Memory) => println!(rt; "out of memory")?,
/// }
/// ```
#[derive(Clone, Debug, Drop, PartialEq, Eq, Error)]
pub enum NameError {
    /// The text isn't in name syntax.
    #[error(transparent)]
    Invalid(InvalidNameError),
    /// Memory was refused, for the name or for the text of an error.
    #[error("out of memory")]
    Memory,
}

impl NameError {
    ghost use Rattle.graphql_base.specs.NameErrors.{IsRefusalOf};

    /// Whether memory was refused.
    pub fn is_memory(&self) -> bool
        ensures { IsTrue result ↔ (self.now ≡ NameError.Memory) }
    {
        matches!(self, Self::Memory)
    }

    /// The refusal of a text outside the syntax, which it holds where memory suffices.
    fn invalid(alloc: Global, text: &str) -> NameError
        requires { is_name text.now ≡ false }
        ensures { IsRefusalOf text.now result }
    {
        match String::from_str(alloc, text) {
            Ok(name) => NameError::Invalid(InvalidNameError {
                name,
                location: None,
            }),
            Err(_) => NameError::Memory,
        }
    }
}

fn starts_name(byte: u8) -> bool
    ensures { result ≡ is_name_start byte }
{
    byte.is_ascii_alphabetic() || byte == b'_'
}

fn begins_as_name(bytes: &[u8]) -> bool
    ensures { result ≡ begins_in is_name_start bytes.now }
{
    match bytes {
        [] => false,
        [first, ..] => starts_name(*first),
    }
}

fn continues_name(byte: u8) -> bool
    ensures { result ≡ is_name_continue byte }
{
    starts_name(byte) || byte.is_ascii_digit()
}

fn continues_as_name(bytes: &[u8]) -> bool
    ensures { result ≡ list_all is_name_continue bytes.now }
{
    bytes.iter().all(|byte| continues_name(*byte))
}

impl Name {
    ghost use Rattle.graphql_base.specs.Name.{name_text, name_form, name_location, IsNewName, compact_form};
    ghost use Rattle.graphql_base.specs.Name.{is_static_name, is_shared_name, is_name_in_place};
    ghost use Rattle.graphql_base.specs.NameErrors.{IsRefusalOf};
    ghost use Rattle.graphql_base.specs.ShortTexts.{short_bytes};
    ghost use Rattle.graphql_base.specs.Span.{span_len};
    ghost use Rattle.graphql_base.specs.StoredTexts.{StaticForm, SharedForm};
    ghost use Rattle.graphql_base.specs.declared.name.TheConstants.Name.{IN_PLACE};

    /// The most bytes of a text that stands in the name itself.
    pub const IN_PLACE: usize = located_text::IN_PLACE;

    /// Whether the text is in name syntax: the test of the condition that the constructors without a
    /// test have.
    pub fn is_valid_syntax(text: &str) -> bool
        ensures { result ≡ is_name text.now }
    {
        let bytes = text.as_bytes();
        begins_as_name(bytes) && continues_as_name(bytes)
    }

    /// A name over a copy of the text, which clones of the name share.
    ///
    /// `NameError::Invalid` for a text outside name syntax, and for no other: it holds the text and no
    /// location. `NameError::Memory` where memory is refused.
    ///
    /// ```
    /// Name::new(alloc, "id")      // a name
    /// Name::new(alloc, "1nvalid") // NameError::Invalid
    /// ```
    pub fn new(alloc: Global, text: &str) -> Result<Name, NameError>
        ensures ok { IfOk result (IsNewName text.now SharedForm) }
        ensures err { IfErr result (IsRefusalOf text.now) }
    {
        if !Name::is_valid_syntax(text) {
            return Err(NameError::invalid(alloc, text));
        }
        Name::new_unchecked(alloc, text).map_err(|_| NameError::Memory)
    }

    /// A name over a copy of the text, in the name itself where it fits: of at most `IN_PLACE` bytes. Clones
    /// of the name share a longer text. A text in name syntax that fits always gives a name, and takes no
    /// memory.
    ///
    /// `NameError::Invalid` for a text outside name syntax, and for no other: it holds the text and no
    /// location. `NameError::Memory` where memory is refused.
    ///
    /// ```
    /// Name::compact(alloc, "id") // a name, in place
    /// ```
    pub fn compact(alloc: Global, text: &str) -> Result<Name, NameError>
        ensures ok { IfOk result (IsNewName text.now (compact_form text.now)) }
        ensures err { IfErr result (IsRefusalOf text.now) }
        ensures short { length text.now ≤ IN_PLACE → IsTrue (is_name text.now) → IsOk result }
    {
        if !Name::is_valid_syntax(text) {
            return Err(NameError::invalid(alloc, text));
        }
        Name::compact_unchecked(alloc, text).map_err(|_| NameError::Memory)
    }

    /// A name over a shared text. A text in name syntax always gives a name, and takes no memory.
    ///
    /// `NameError::Invalid` for a text outside name syntax, and for no other: it holds the text and no
    /// location. `NameError::Memory` where memory for that text is refused.
    ///
    /// ```
    /// Name::new_shared(alloc, RcStr::from_str(alloc, "id")?)? // id
    /// ```
    pub fn new_shared(alloc: Global, text: RcStr) -> Result<Name, NameError>
        ensures valid { IsOk result ↔ IsTrue (is_name (rc_str_bytes text)) }
        ensures ok { IfOk result (IsNewName (rc_str_bytes text) SharedForm) }
        ensures err { IfErr result (IsRefusalOf (rc_str_bytes text)) }
    {
        if !Name::is_valid_syntax(text.as_str()) {
            return Err(NameError::invalid(alloc, text.as_str()));
        }
        Ok(Name::from_arc_unchecked(text))
    }

    /// A name over a static text. A text in name syntax always gives a name, and takes no memory.
    ///
    /// `NameError::Invalid` for a text outside name syntax, and for no other: it holds the text and no
    /// location. `NameError::Memory` where memory for that text is refused.
    ///
    /// ```
    /// Name::new_static(alloc, "id")? // id
    /// ```
    pub fn new_static(alloc: Global, text: &'static str) -> Result<Name, NameError>
        ensures valid { IsOk result ↔ IsTrue (is_name text.now) }
        ensures ok { IfOk result (IsNewName text.now StaticForm) }
        ensures err { IfErr result (IsRefusalOf text.now) }
    {
        if !Name::is_valid_syntax(text) {
            return Err(NameError::invalid(alloc, text));
        }
        Ok(Name::new_static_unchecked(text))
    }

    /// A name over a copy of a text that is in name syntax, without a test. `AllocError` where memory is
    /// refused.
    ///
    /// ```
    /// Name::new_unchecked(alloc, "id")? // id
    /// ```
    pub fn new_unchecked(alloc: Global, text: &str) -> Result<Name, AllocError>
        requires { IsTrue (is_name text.now) }
        ensures { IfOk result (IsNewName text.now SharedForm) }
    {
        Ok(Name::from_arc_unchecked(RcStr::from_str(alloc, text)?))
    }

    /// A name over a copy of a text that is in name syntax, in the name itself where it fits, without a
    /// test. `AllocError` only for a longer text, where memory is refused.
    ///
    /// ```
    /// Name::compact_unchecked(alloc, "id")? // id, in place
    /// ```
    pub fn compact_unchecked(alloc: Global, text: &str) -> Result<Name, AllocError>
        requires { IsTrue (is_name text.now) }
        ensures ok { IfOk result (IsNewName text.now (compact_form text.now)) }
        ensures short { length text.now ≤ IN_PLACE → IsOk result }
    {
        if text.len() > Name::IN_PLACE {
            return Name::new_unchecked(alloc, text);
        }
        Ok(Name {
            text: LocatedText::in_place(alloc, ShortText::new(text)),
        })
    }

    /// A name over a shared text that is in name syntax, without a test. It takes no memory.
    ///
    /// ```
    /// Name::from_arc_unchecked(RcStr::from_str(alloc, "id")?) // id
    /// ```
    pub fn from_arc_unchecked(text: RcStr) -> Name
        requires { IsTrue (is_name (rc_str_bytes text)) }
        ensures { IsNewName (rc_str_bytes text) SharedForm result }
    {
        Name {
            text: LocatedText::from_shared(text),
        }
    }

    /// A name over a static text that is in name syntax, without a test. It takes no memory; `name!`
    /// calls it.
    ///
    /// ```
    /// Name::new_static_unchecked("id") // id
    /// ```
    pub fn new_static_unchecked(text: &'static str) -> Name
        requires { IsTrue (is_name text.now) }
        ensures { IsNewName text.now StaticForm result }
    {
        Name {
            text: LocatedText::from_static(text),
        }
    }

    /// This name with another source location: a span of as many bytes as the name has.
    ///
    /// ```
    /// let span = SourceSpan::new(FileId::new(5), 10, 12)?;
    /// name!(id).with_location(span) == name!(id) // true
    /// ```
    pub fn with_location(self, span: SourceSpan) -> Name
        requires { span_len span ≡ length (name_text self) }
        ensures text { name_text result ≡ name_text self }
        ensures form { name_form result ≡ name_form self }
        ensures location { name_location result ≡ Some span }
    {
        Name {
            text: self.text.at(span),
        }
    }

    /// The source location of the name, which is as long as the name. A name just made has none.
    pub fn location(&self) -> Option<SourceSpan>
        ensures value { result ≡ name_location self.now }
        ensures length { IfSome result (λ span. span_len span ≡ length (name_text self.now)) }
    {
        self.text.location()
    }

    /// How many bytes the text has, which is also how many characters.
    pub fn len(&self) -> usize
        ensures { result ≡ length (name_text self.now) }
    {
        self.as_str().len()
    }

    /// The text, which is in name syntax.
    pub fn as_str(&self) -> &str
        ensures text { result.now ≡ name_text self.now }
        ensures syntax { IsTrue (is_name result.now) }
    {
        self.text.as_str()
    }

    /// The text, exactly if it is static.
    pub fn as_static_str(&self) -> Option<&'static str>
        ensures some { IsSome result ↔ IsTrue (is_static_name self.now) }
        ensures text { IfSome result (λ text. text.now ≡ name_text self.now) }
    {
        self.text.as_static_str()
    }

    /// The text, exactly if it stands in the name itself.
    pub fn short_text(&self) -> Option<&ShortText<{ Name::IN_PLACE }>>
        ensures some { IsSome result ↔ IsTrue (is_name_in_place self.now) }
        ensures text { IfSome result (λ text. short_bytes text.now ≡ name_text self.now) }
    {
        self.short_text_or_str().ok()
    }

    /// The text, as writers copy it: the short text that stands in the name itself, or else, as `Err`, the text.
    #[inline(always)]
    pub fn short_text_or_str(&self) -> Result<&ShortText<{ Name::IN_PLACE }>, &str>
        ensures short { IfOk result (λ text. short_bytes text.now ≡ name_text self.now) }
        ensures other { IfErr result (λ text. text.now ≡ name_text self.now) }
        ensures in_place { IsOk result ↔ IsTrue (is_name_in_place self.now) }
    {
        self.text.short_text_or_str()
    }

    /// The text as a shared one: one more owner of it, if it is shared, and a copy, if it stands in place;
    /// `Ok(None)` exactly if it is static.
    ///
    /// `AllocError` only for a text that is not static, where one more owner or memory for the copy is
    /// refused.
    pub fn to_cloned_arc(&self) -> Result<Option<RcStr>, AllocError>
        ensures static_text { IsTrue (is_static_name self.now) → result ≡ Ok None }
        ensures other_text { is_static_name self.now ≡ false → IfOk result IsSome }
        ensures text { IfOk result
            (λ copy. IfSome copy (λ text. rc_str_bytes text ≡ name_text self.now)) }
    {
        self.text.to_shared()
    }

    /// The text as a shared one: the name's own, if it is shared, and else a copy.
    ///
    /// `AllocError` only for a text that is not shared, where memory for the copy is refused.
    pub fn into_shared(self, alloc: Global) -> Result<RcStr, AllocError>
        ensures text { IfOk result (λ text. rc_str_bytes text ≡ name_text self) }
        ensures shared { IsTrue (is_shared_name self) → IsOk result }
    {
        self.text.into_shared(alloc)
    }
}

impl AsRef<Name> for Name {
    fn as_ref(&self) -> &Name
        ensures { result.now ≡ self.now }
    {
        self
    }
}

impl Clone for Name {
    ghost is_clone = { λ name copy. copy ≡ name };

    fn clone(&self) -> Result<Name, AllocError> {
        Ok(Name {
            text: self.text.clone()?,
        })
    }
}

impl Display for Name {
    ghost use Rattle.graphql_base.specs.Name.{name_text};

    ghost output = { λ name. Some (name_text name) };

    fn fmt<W: Write>(&self, f: &mut Formatter<W>) -> fmt::Result {
        f.pad(self.as_str())
    }
}

impl Debug for Name {
    fn fmt<W: Write>(&self, f: &mut Formatter<W>) -> fmt::Result {
        self.text.fmt(f)
    }
}

/// A name over a static text, of any length: an identifier, or a text literal. It takes no memory.
///
/// That the text is in name syntax is proved at the call, so `name!("1nvalid")` is refused by the check.
/// It stands in the body of a function.
///
/// ```
/// name!(Query)
/// name!("__typename")
/// ```
#[macro_export]
macro_rules! name {
    ($word:ident) => {
        $crate::name::Name::new_static_unchecked(stringify!($word))
    };
    ($text:literal) => {
        $crate::name::Name::new_static_unchecked($text)
    };
}
