//! JSON is parsed from a text, in which its own texts lie then: one loop goes over the tokens, and keeps the arrays and objects
//! that are open in a list.
ghost use Rattle.std.specs.Prelude.{◌≡◌, ℕ, ◌-◌, ◌++◌, ◌∷◌, [], IfOk, IsTrue, None, false, length, not, option_map, vec_len};
ghost use Rattle.std.specs.Bool.{MatchBool};
ghost use Rattle.json.specs.Reads.{token_of};
ghost use Rattle.json.specs.Token as token;
ghost use Rattle.json.specs.Value.{value_view};
ghost use Rattle.serde_json.specs.Read.{max_depth, read};
ghost use Rattle.parsed_json.specs.Depth.{IsTooDeep, IsWithin};
ghost use Rattle.parsed_json.specs.OpenJson.{AreWithin, IsProgress, IsReadingOf, ended_array, ended_object, innermost_takes_value, open_tokens, read_tokens, so_far, takes_name, takes_value, value_tokens};
ghost use Rattle.parsed_json.specs.ParsedJson.{leaf_of, parsed_data};

use crate::numbers::number_of;
use json::{Reader, Scratch, Token, Value as Parsed};
use std::alloc::{AllocError, Global};

/// The greatest nesting depth of arrays and objects at which the JSON of a text is read.
const MAX_DEPTH: usize = 127;

/// For a text of so many bytes the scratch takes spare room.
const LONG: usize = 1 << 17;

/// The spare room. The C library gives the end of its heap back to the system where that is above twice the largest block that was
/// freed: the scratch and one long text of the tree would be, at each call, and each page of theirs be mapped anew.
const SPARE: usize = 1 << 18;

/// An array or object that the text has begun and not ended yet.
#[derive(Drop)]
enum Open<'t> {
    /// The items so far.
    Array(Vec<Parsed<'t>>),
    Object(Members<'t>),
}

/// The members of an object so far, and the name whose value comes next.
#[derive(Drop)]
struct Members<'t> {
    found: Vec<(&'t str, Parsed<'t>)>,
    name: Option<&'t str>,
}

/// What comes of the tokens that were read.
#[derive(Drop)]
enum Progress<'t> {
    /// More has to come.
    Unfinished,
    /// They are a value.
    Whole(Parsed<'t>),
    /// Some JSON begins so, but it nests deeper than is read.
    TooDeep,
    /// No JSON that is read begins so, however deep it nests.
    Refused,
}

/// What a text is.
#[derive(Drop)]
enum Reading<'t> {
    Json(Parsed<'t>),
    /// Its arrays and objects nest deeper than is read.
    TooDeep,
    NotJson,
}

impl<'t> Open<'t> {
    fn takes_value(&self) -> bool
        ensures { result ≡ takes_value self.now }
    {
        match self {
            Open::Array(_) => true,
            Open::Object(members) => members.name.is_some(),
        }
    }

    /// The array, where a bracket ends it. None of an object.
    fn ended_array(self) -> Option<Parsed<'t>>
        ensures { option_map value_view result ≡ ended_array self.entry }
    {
        match self {
            Open::Array(items) => Some(Parsed::Array(items)),
            Open::Object(_) => None,
        }
    }

    /// The object, where a brace ends it. None of an array, and where a value has to come.
    fn ended_object(self) -> Option<Parsed<'t>>
        ensures { option_map value_view result ≡ ended_object self.entry }
    {
        match self {
            Open::Object(Members { found, name: None }) => Some(Parsed::Object(found)),
            _ => None,
        }
    }

    /// Adds a value. False where none may come.
    #[inline(always)]
    fn add(&mut self, value: Parsed<'t>) -> Result<bool, AllocError>
        ensures added { IfOk result (λ added. MatchBool added
            (open_tokens self.new ≡ open_tokens self.old ++ value_tokens value.entry)
            (takes_value self.old ≡ false)) }
        ensures within { (d : ℕ) → IsWithin d (so_far self.old)
            → IsWithin (d - 1) (value_view value.entry)
            → IfOk result (λ added. IsTrue added → IsWithin d (so_far self.new)) }
    {
        match self {
            Open::Array(items) => {
                items.push(value)?;
                Ok(true)
            }
            Open::Object(members) => members.add(value),
        }
    }

    /// Adds the name of a member. False where none may come.
    fn add_name(&mut self, name: &'t str) -> bool
        ensures added { MatchBool result
            (open_tokens self.new ≡ open_tokens self.old ++ token.key name.now ∷ [])
            (takes_name self.old ≡ false) }
        ensures same { so_far self.new ≡ so_far self.old }
    {
        match self {
            Open::Object(members) if members.name.is_none() => {
                members.name = Some(name);
                true
            }
            _ => false,
        }
    }
}

impl<'t> Members<'t> {
    fn new(alloc: Global) -> Members<'t>
        ensures found { result.found.items ≡ [] }
        ensures name { result.name ≡ None }
    {
        Members {
            found: Vec::new(alloc),
            name: None,
        }
    }

    /// Adds the value of the name. False where there is no name.
    #[inline(always)]
    fn add(&mut self, value: Parsed<'t>) -> Result<bool, AllocError>
        ensures { IfOk result (λ added. MatchBool added
            ((self.new.name ≡ None) × (Some self.new.found.items
            ≡ option_map (λ name. self.old.found.items ++ (name, value.entry) ∷ []) self.old.name))
            (self.old.name ≡ None)) }
    {
        let Some(name) = self.name.take() else {
            return Ok(false);
        };
        self.found.push((name, value))?;
        Ok(true)
    }
}

/// The value that a token is by itself. None where the token only begins or ends something, and for a number that is too large
/// for a float.
#[inline(always)]
fn leaf<'t>(token: Token<'t>) -> Option<Parsed<'t>>
    ensures { option_map value_view result ≡ leaf_of (token_of token.entry) }
{
    match token {
        Token::Null => Some(Parsed::Null),
        Token::Bool(is_so) => Some(Parsed::Bool(is_so)),
        Token::String(text) => Some(Parsed::String(text)),
        Token::Number(text) if number_of(text).is_some() => Some(Parsed::Number(text)),
        _ => None,
    }
}

/// Adds a value to the innermost. Where nothing is open, it is the whole.
#[inline(always)]
fn add<'t>(opened: &mut Vec<Open<'t>>, value: Parsed<'t>) -> Result<Progress<'t>, AllocError>
    requires open_within { AreWithin max_depth opened.old.items }
    requires value_within { IsWithin (max_depth - vec_len opened.old) (value_view value) }
    ensures { IfOk result (λ progress. IsProgress
        (read_tokens opened.old.items ++ value_tokens value.entry) progress opened.new.items) }
{
    let Some(innermost) = opened.last_mut() else {
        return Ok(Progress::Whole(value));
    };
    if innermost.add(value)? {
        Ok(Progress::Unfinished)
    } else {
        Ok(Progress::Refused)
    }
}

/// Adds the name of a member to the innermost.
fn add_name<'t>(opened: &mut Vec<Open<'t>>, name: &'t str) -> Progress<'t>
    requires open_within { AreWithin max_depth opened.old.items }
    ensures { IsProgress (read_tokens opened.old.items ++ token.key name.now ∷ [])
        result opened.new.items }
{
    let Some(innermost) = opened.last_mut() else {
        return Progress::Refused;
    };
    if innermost.add_name(name) {
        Progress::Unfinished
    } else {
        Progress::Refused
    }
}

/// Whether a value may come next. One has to, where nothing is open.
fn innermost_takes_value(opened: &[Open<'_>]) -> bool
    ensures { result ≡ innermost_takes_value opened.now }
{
    match opened.last() {
        Some(innermost) => innermost.takes_value(),
        None => true,
    }
}

/// Begins an array or object, which has nothing in it yet.
#[inline(always)]
fn begin<'t>(opened: &mut Vec<Open<'t>>, empty: Open<'t>) -> Result<Progress<'t>, AllocError>
    requires open_within { AreWithin max_depth opened.old.items }
    requires empty { IsWithin 1 (so_far empty) }
    ensures { IfOk result (λ progress. IsProgress
        (read_tokens opened.old.items ++ open_tokens empty.entry) progress opened.new.items) }
{
    if !innermost_takes_value(opened) {
        return Ok(Progress::Refused);
    }
    if opened.len() == MAX_DEPTH {
        return Ok(Progress::TooDeep);
    }
    opened.push(empty)?;
    Ok(Progress::Unfinished)
}

/// Ends the innermost by a bracket.
fn end_array<'t>(opened: &mut Vec<Open<'t>>) -> Result<Progress<'t>, AllocError>
    requires open_within { AreWithin max_depth opened.old.items }
    ensures { IfOk result (λ progress. IsProgress
        (read_tokens opened.old.items ++ token.end_array ∷ []) progress opened.new.items) }
{
    let Some(innermost) = opened.pop() else {
        return Ok(Progress::Refused);
    };
    match innermost.ended_array() {
        Some(array) => add(opened, array),
        None => Ok(Progress::Refused),
    }
}

/// Ends the innermost by a brace.
fn end_object<'t>(opened: &mut Vec<Open<'t>>) -> Result<Progress<'t>, AllocError>
    requires open_within { AreWithin max_depth opened.old.items }
    ensures { IfOk result (λ progress. IsProgress
        (read_tokens opened.old.items ++ token.end_object ∷ []) progress opened.new.items) }
{
    let Some(innermost) = opened.pop() else {
        return Ok(Progress::Refused);
    };
    match innermost.ended_object() {
        Some(object) => add(opened, object),
        None => Ok(Progress::Refused),
    }
}

/// Reads one more token.
#[inline(always)]
fn read_token<'t>(
    alloc: Global,
    opened: &mut Vec<Open<'t>>,
    token: Token<'t>,
) -> Result<Progress<'t>, AllocError>
    requires open_within { AreWithin max_depth opened.old.items }
    ensures { IfOk result (λ progress. IsProgress
        (read_tokens opened.old.items ++ token_of token.entry ∷ []) progress opened.new.items) }
{
    match token {
        Token::BeginArray => begin(opened, Open::Array(Vec::new(alloc))),
        Token::EndArray => end_array(opened),
        Token::BeginObject => begin(opened, Open::Object(Members::new(alloc))),
        Token::EndObject => end_object(opened),
        Token::Key(name) => Ok(add_name(opened, name)),
        token => match leaf(token) {
            Some(value) => add(opened, value),
            None => Ok(Progress::Refused),
        },
    }
}

/// Reads a text.
#[inline(always)]
fn read_text<'t>(
    alloc: Global,
    text: &'t str,
    scratch: &'t mut Scratch,
) -> Result<Reading<'t>, AllocError>
    ensures { IfOk result (λ reading. IsReadingOf text.now reading) }
{
    if text.len() >= LONG {
        scratch.reserve(text.len() + SPARE)?;
    }
    let mut reader = Reader::new(text, scratch)?;
    let mut opened = Vec::new(alloc);
    while let Some(token) = reader.next() {
        match read_token(alloc, &mut opened, token)? {
            Progress::Unfinished => {}
            Progress::Whole(value) => match reader.next() {
                None => return Ok(Reading::Json(value)),
                Some(_) => return Ok(Reading::NotJson),
            },
            Progress::TooDeep => return Ok(Reading::TooDeep),
            Progress::Refused => return Ok(Reading::NotJson),
        }
    }
    Ok(Reading::NotJson)
}

/// The JSON that a text is, or `None` where it is none that is read.
///
/// It may be no JSON, the nesting depth of its arrays and objects may be above 127, or a number may be too large.
/// `serde_json`, which reads none of these, tells which.
///
/// Its texts lie in the text, or in the scratch where they have escapes. The scratch takes as much memory as the text has
/// bytes, and 256 KiB more for a text of 128 KiB and more. `AllocError` if an allocation fails.
#[inline(never)]
pub fn parse_json<'t>(
    alloc: Global,
    text: &'t str,
    scratch: &'t mut Scratch,
) -> Result<Option<Parsed<'t>>, AllocError>
    ensures { IfOk result (λ found. option_map parsed_data found ≡ read text.now) }
{
    match read_text(alloc, text, scratch)? {
        Reading::Json(value) => Ok(Some(value)),
        Reading::TooDeep | Reading::NotJson => Ok(None),
    }
}

/// Whether a text is no JSON that is read because its arrays and objects nest deeper than 127 levels.
///
/// It begins as some JSON does, and as none does that nests at most 127 deep: a fault before the bracket or brace of level
/// 128 counts, and whatever follows that doesn't.
///
/// `AllocError` if an allocation fails: it takes the memory that `parse_json` takes.
///
/// ```
/// let deep = "[".repeat(alloc, 128)?;
/// println!(rt; "{} {}", is_too_deep(alloc, deep.as_str())?, is_too_deep(alloc, "[")?)?; // true false
/// ```
#[inline(never)]
pub fn is_too_deep(alloc: Global, text: &str) -> Result<bool, AllocError>
    ensures deep { IfOk result (λ deep. MatchBool deep
        (IsTooDeep text.now) (¬ IsTooDeep text.now)) }
    ensures unread { IfOk result (λ deep. IsTrue deep → read text.now ≡ None) }
{
    let mut scratch = Scratch::new(alloc);
    match read_text(alloc, text, &mut scratch)? {
        Reading::TooDeep => Ok(true),
        Reading::Json(_) | Reading::NotJson => Ok(false),
    }
}
