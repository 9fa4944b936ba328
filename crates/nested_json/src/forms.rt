//! Nodes in one another, as values of `serde_json`.

use serde_json::{Map, Value as Json, put};
use std::alloc::{AllocError, Global};

/// What stands in one another.
#[derive(Clone, Copy)]
pub enum Form {
    Fields,
    InlineFragments,
    ListTypes,
    NonNullListTypes,
    Lists,
    Objects,
    Flaw,
}

fn text(alloc: Global, text: &str) -> Result<Json, AllocError> {
    Ok(Json::String(String::from_str(alloc, text)?))
}

/// A node of this kind, which has this member.
fn node(alloc: Global, kind: &str, name: &str, member: Json) -> Result<Json, AllocError> {
    let mut members = Map::new(alloc);
    put(&mut members, alloc, "kind", text(alloc, kind)?)?;
    put(&mut members, alloc, name, member)?;
    Ok(Json::Object(members))
}

/// The same, with a name too.
fn named_node(alloc: Global, kind: &str, name: &str, member: Json) -> Result<Json, AllocError> {
    let mut members = Map::new(alloc);
    put(&mut members, alloc, "kind", text(alloc, kind)?)?;
    let value = text(alloc, "n")?;
    put(
        &mut members,
        alloc,
        "name",
        node(alloc, "Name", "value", value)?,
    )?;
    put(&mut members, alloc, name, member)?;
    Ok(Json::Object(members))
}

/// An array of this item.
fn array(alloc: Global, item: Json) -> Result<Json, AllocError> {
    let mut items = Vec::new(alloc);
    items.push(item)?;
    Ok(Json::Array(items))
}

fn set(alloc: Global, selection: Json) -> Result<Json, AllocError> {
    node(
        alloc,
        "SelectionSet",
        "selections",
        array(alloc, selection)?,
    )
}

impl Form {
    /// What stands innermost.
    fn innermost(self, alloc: Global) -> Result<Json, AllocError> {
        match self {
            Form::Fields | Form::InlineFragments => named_node(alloc, "Field", "alias", Json::Null),
            Form::ListTypes | Form::NonNullListTypes => {
                named_node(alloc, "NamedType", "loc", Json::Null)
            }
            Form::Lists | Form::Objects => node(alloc, "IntValue", "value", text(alloc, "4")?),
            Form::Flaw => node(alloc, "EnumValue", "value", text(alloc, "null")?),
        }
    }

    /// One level more.
    fn around(self, alloc: Global, inner: Json) -> Result<Json, AllocError> {
        match self {
            Form::Fields => named_node(alloc, "Field", "selectionSet", set(alloc, inner)?),
            Form::InlineFragments => {
                node(alloc, "InlineFragment", "selectionSet", set(alloc, inner)?)
            }
            Form::ListTypes => node(alloc, "ListType", "type", inner),
            Form::NonNullListTypes => {
                let list = node(alloc, "ListType", "type", inner)?;
                node(alloc, "NonNullType", "type", list)
            }
            Form::Lists | Form::Flaw => node(alloc, "ListValue", "values", array(alloc, inner)?),
            Form::Objects => {
                let field = named_node(alloc, "ObjectField", "value", inner)?;
                node(alloc, "ObjectValue", "fields", array(alloc, field)?)
            }
        }
    }

    /// So many levels in one another.
    pub fn nested(self, alloc: Global, levels: u32) -> Result<Json, AllocError> {
        let mut json = self.innermost(alloc)?;
        for _ in 0..levels {
            json = self.around(alloc, json)?;
        }
        Ok(json)
    }
}
