//! JSON that was parsed, as a value of `serde_json`.
ghost use Rattle.std.specs.Prelude.{◌≡◌, IfOk};
ghost use Rattle.json.specs.Value.{members_view as parsed_members};
ghost use Rattle.serde_json.specs.Data.{no_members};
ghost use Rattle.serde_json.specs.Read.{number_of};
ghost use Rattle.serde_json.specs.View.{items_view, members_view, number_view, view};
ghost use Rattle.parsed_json.specs.ParsedJson.{number_or_minus_one, parsed_data, parsed_items, with_members};

use crate::numbers::number_of;
use json::Value as Parsed;
use serde_json::{Map, Number, Value as Json, push, put};
use std::alloc::{AllocError, Global};

/// The number of a text that stands for one, or -1 where it is too large for a float.
fn number_or_minus_one(text: &str) -> Number
    ensures { number_view result ≡ number_or_minus_one (number_of text.now) }
{
    match number_of(text) {
        Some(number) => number,
        None => Number::from(-1i64),
    }
}

/// The same JSON as a value of `serde_json`. `AllocError` if an allocation fails.
#[cycle(owned)]
pub fn owned_json(alloc: Global, value: &Parsed<'_>) -> Result<Json, AllocError>
    ensures { IfOk result (λ json. view json ≡ parsed_data value.now) }
{
    match value {
        Parsed::Null => Ok(Json::Null),
        Parsed::Bool(is_so) => Ok(Json::Bool(*is_so)),
        Parsed::Number(text) => Ok(Json::Number(number_or_minus_one(text))),
        Parsed::String(text) => Json::try_from_str(alloc, text),
        Parsed::Array(items) => Ok(Json::Array(owned_items(alloc, items.as_slice())?)),
        Parsed::Object(members) => Ok(Json::Object(owned_members(alloc, members.as_slice())?)),
    }
}

#[cycle(owned)]
fn owned_items(alloc: Global, items: &[Parsed<'_>]) -> Result<Vec<Json>, AllocError>
    ensures { IfOk result (λ owned. items_view owned.items ≡ parsed_items items.now) }
{
    let mut owned = Vec::new(alloc);
    for item in items {
        push(&mut owned, owned_json(alloc, item)?)?;
    }
    Ok(owned)
}

#[cycle(owned)]
fn owned_members(
    alloc: Global,
    members: &[(&str, Parsed<'_>)],
) -> Result<Map<String, Json>, AllocError>
    ensures { IfOk result (λ owned.
        members_view owned.entries ≡ with_members (parsed_members members.now) no_members) }
{
    let mut owned = Map::new(alloc);
    for (name, value) in members {
        put(&mut owned, alloc, name, owned_json(alloc, value)?)?;
    }
    Ok(owned)
}
