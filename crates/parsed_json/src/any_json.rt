//! JSON that is read: a value of `serde_json`, or one that was parsed from a text in which its own texts lie.
ghost use Rattle.std.specs.Prelude.{◌≡◌, ◌<◌, ◌==◌, IfSome, get_or, is_some, length, option_and_then, option_map};
ghost use Rattle.json.specs.Value.{members_view as parsed_members};
ghost use Rattle.serde_json.specs.Data.{no_members, null, number, object, unsigned};
ghost use Rattle.serde_json.specs.Find.{as_array, as_bool, as_null, as_number, as_object, as_str, as_u64, get};
ghost use Rattle.serde_json.specs.View.{view};
ghost use Rattle.parsed_json.specs.AnyJson.{any_data, item_datas, items_data, two_numbers};
ghost use Rattle.parsed_json.specs.ParsedJson.{parsed_data, with_members};

use crate::numbers::unsigned_number;
use json::Value as Parsed;
use serde_json::Value as Json;

/// JSON in either form: a value of `serde_json`, or one that `parse_json` made of a text.
///
/// ```
/// let mut scratch = Scratch::new(alloc);
/// if let Some(value) = parse_json(alloc, r#"{"kind":"Name"}"#, &mut scratch)? {
///     let kind = AnyJson::Parsed(&value).get("kind").and_then(AnyJson::as_str); // Some("Name")
/// }
/// ```
#[derive(Clone, Copy)]
pub enum AnyJson<'j, 't> {
    Owned(&'j Json),
    Parsed(&'j Parsed<'t>),
}

/// The items of an array in either form.
///
/// ```
/// let json = serde_json::Value::from_str(alloc, "[true, null]")?;
/// if let Some(items) = AnyJson::Owned(&json).as_items() {
///     println!(rt; "{} {}", items.len(), items.at(1).is_null())?; // 2 true
/// }
/// ```
#[derive(Clone, Copy)]
pub enum AnyItems<'j, 't> {
    Owned(&'j [Json]),
    Parsed(&'j [Parsed<'t>]),
}

/// The number that a member of this name is, if it is an integer from 0 on that 64 bits hold.
fn number_named(member: &(&str, Parsed<'_>), name: &str) -> Option<u64>
    ensures named { IfSome result (λ n. member.now.0.now ≡ name.now) }
    ensures number { IfSome result (λ n. parsed_data member.now.1 ≡ number (unsigned n)) }
{
    if member.0 != name {
        return None;
    }
    match &member.1 {
        Parsed::Number(text) => unsigned_number(text),
        _ => None,
    }
}

/// The numbers that these members are, if there are two, of these names in this order.
fn two_numbers(members: &[(&str, Parsed<'_>)], first: &str, second: &str) -> Option<(u64, u64)>
    ensures { IfSome result (λ n. object (with_members (parsed_members members.now) no_members)
        ≡ two_numbers first.now n.0 second.now n.1) }
{
    if members.len() != 2 {
        return None;
    }
    let first_number = number_named(&members[0], first)?;
    let second_number = number_named(&members[1], second)?;
    Some((first_number, second_number))
}

impl<'j, 't> AnyJson<'j, 't> {
    /// The member of this name, the last one where it stands twice.
    pub fn get(self, name: &str) -> Option<AnyJson<'j, 't>>
        ensures { option_map any_data result ≡ get name.now (any_data self.entry) }
    {
        match self {
            AnyJson::Owned(json) => match json.get(name) {
                Some(member) => Some(AnyJson::Owned(member)),
                None => None,
            },
            AnyJson::Parsed(json) => match json.get(name) {
                Some(member) => Some(AnyJson::Parsed(member)),
                None => None,
            },
        }
    }

    /// The text, if it is one.
    pub fn as_str(self) -> Option<&'j str>
        ensures { option_map (λ text. text.now) result ≡ as_str (any_data self.entry) }
    {
        match self {
            AnyJson::Owned(json) => json.as_str(),
            AnyJson::Parsed(json) => json.as_str(),
        }
    }

    /// The boolean, if it is one.
    pub fn as_bool(self) -> Option<bool>
        ensures { result ≡ as_bool (any_data self.entry) }
    {
        match self {
            AnyJson::Owned(json) => json.as_bool(),
            AnyJson::Parsed(json) => json.as_bool(),
        }
    }

    /// The number, if it is an integer from 0 on that 64 bits hold.
    pub fn as_u64(self) -> Option<u64>
        ensures { result ≡ option_and_then as_u64 (as_number (any_data self.entry)) }
    {
        match self {
            AnyJson::Owned(json) => json.as_u64(),
            AnyJson::Parsed(json) => match json.as_number() {
                Some(text) => unsigned_number(text),
                None => None,
            },
        }
    }

    /// The items, if it is an array.
    pub fn as_items(self) -> Option<AnyItems<'j, 't>>
        ensures { option_map items_data result ≡ as_array (any_data self.entry) }
    {
        match self {
            AnyJson::Owned(json) => match json {
                Json::Array(items) => Some(AnyItems::Owned(items.as_slice())),
                _ => None,
            },
            AnyJson::Parsed(json) => match json {
                Parsed::Array(items) => Some(AnyItems::Parsed(items.as_slice())),
                _ => None,
            },
        }
    }

    /// The numbers of an object that was parsed and has two members, these in this order, each an integer from 0 on that 64 bits
    /// hold: the form in which nearly each location comes. Whether an object in another form has them isn't told.
    #[doc(hidden)]
    pub fn two_numbers(self, first: &str, second: &str) -> Option<(u64, u64)>
        ensures { IfSome result (λ n.
            any_data self.entry ≡ two_numbers first.now n.0 second.now n.1) }
    {
        match self {
            AnyJson::Parsed(value) => match value {
                Parsed::Object(members) => two_numbers(members.as_slice(), first, second),
                _ => None,
            },
            AnyJson::Owned(_) => None,
        }
    }

    /// Whether it is null.
    pub fn is_null(self) -> bool
        ensures { result ≡ is_some (as_null (any_data self.entry)) }
    {
        match self {
            AnyJson::Owned(json) => json.is_null(),
            AnyJson::Parsed(json) => json.is_null(),
        }
    }

    /// Whether it is an object.
    pub fn is_object(self) -> bool
        ensures { result ≡ is_some (as_object (any_data self.entry)) }
    {
        match self {
            AnyJson::Owned(json) => json.is_object(),
            AnyJson::Parsed(json) => matches!(json, Parsed::Object(_)),
        }
    }
}

impl<'j, 't> AnyItems<'j, 't> {
    /// How many there are.
    pub fn len(self) -> usize
        ensures { result ≡ length (item_datas self.entry) }
    {
        match self {
            AnyItems::Owned(items) => items.len(),
            AnyItems::Parsed(items) => items.len(),
        }
    }

    /// Whether there is none.
    pub fn is_empty(self) -> bool
        ensures { result ≡ (length (item_datas self.entry) == 0) }
    {
        self.len() == 0
    }

    /// The item of this index.
    pub fn at(self, index: usize) -> AnyJson<'j, 't>
        requires { index < length (item_datas self) }
        ensures { any_data result ≡ get_or (item_datas self.entry) index null }
    {
        match self {
            AnyItems::Owned(items) => AnyJson::Owned(&items[index]),
            AnyItems::Parsed(items) => AnyJson::Parsed(&items[index]),
        }
    }
}
