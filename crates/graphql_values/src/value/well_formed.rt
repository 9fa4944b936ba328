//! Where a value isn't well formed.
ghost use Rattle.std.specs.Prelude.{◌≡◌};
ghost use Rattle.graphql_text.specs.code.IllFormed.{IsFirstFlaw};
ghost use Rattle.graphql_values.specs.kinds.Values.{is_enum_name, object_fields_flaws, object_fields_obey, value_flaws, value_obeys, values_flaws, values_obey};
ghost use Rattle.graphql_values.specs.trees.ValueTrees.{constness_of, object_field_trees, value_tree, value_trees};

use crate::constness::Constness;
use crate::value::Value;
use graphql_base::name::Name;
use graphql_base::node::Node;
use graphql_text::ill_formed::{IllFormed, SideCondition};
use graphql_text::writers::ill_formed_unless;

/// Whether a name can be an enum value (`EnumValue`, section 2.9.6): any but `true`, `false` and `null`.
pub fn is_enum_name(name: &str) -> bool
    ensures { result ≡ is_enum_name name.now }
{
    name != "true" && name != "false" && name != "null"
}

/// Whether no enum value in the value is `true`, `false` or `null`, and no variable stands in it where the context is
/// constant.
#[cycle(value_is_well_formed)]
pub fn is_value_well_formed(value: &Value, constness: Constness) -> bool
    ensures { result ≡ value_obeys (constness_of constness) (value_tree value.now) }
{
    match value {
        Value::Enum(name) => is_enum_name(name.as_str()),
        Value::Variable(_) => constness.admits_variables(),
        Value::List(items) => are_items_well_formed(items, constness),
        Value::Object(fields) => are_fields_well_formed(fields, constness),
        Value::Null | Value::String(_) | Value::Float(_) | Value::Int(_) | Value::Boolean(_) =>
            true,
    }
}

#[cycle(value_is_well_formed)]
fn are_items_well_formed(items: &[Node<Value>], constness: Constness) -> bool
    ensures { result ≡ values_obey (constness_of constness) (value_trees items.now) }
{
    for item in items {
        if !is_value_well_formed(item, constness) {
            return false;
        }
    }
    true
}

#[cycle(value_is_well_formed)]
fn are_fields_well_formed(fields: &[(Name, Node<Value>)], constness: Constness) -> bool
    ensures { result ≡ object_fields_obey (constness_of constness) (object_field_trees fields.now) }
{
    for field in fields {
        if !is_value_well_formed(&field.1, constness) {
            return false;
        }
    }
    true
}

/// Where a value isn't well formed: the first enum value in it that is `true`, `false` or `null`, or variable where the
/// context is constant.
#[cycle(find_ill_formed_value)]
pub(crate) fn find_ill_formed_value(value: &Value, constness: Constness) -> Option<IllFormed<'_>>
    ensures { IsFirstFlaw (value_flaws (constness_of constness) (value_tree value.now)) result }
{
    match value {
        Value::Enum(name) => ill_formed_unless(
            is_enum_name(name.as_str()),
            SideCondition::IsNotReserved,
            Some(name),
        ),
        Value::Variable(name) => ill_formed_unless(
            constness.admits_variables(),
            SideCondition::IsConstant,
            Some(name),
        ),
        Value::List(items) => find_ill_formed_item(items, constness),
        Value::Object(fields) => find_ill_formed_field(fields, constness),
        Value::Null | Value::String(_) | Value::Float(_) | Value::Int(_) | Value::Boolean(_) =>
            None,
    }
}

#[cycle(find_ill_formed_value)]
fn find_ill_formed_item(items: &[Node<Value>], constness: Constness) -> Option<IllFormed<'_>>
    ensures { IsFirstFlaw (values_flaws (constness_of constness) (value_trees items.now)) result }
{
    for item in items {
        if let Some(found) = find_ill_formed_value(item, constness) {
            return Some(found.within(item.location()));
        }
    }
    None
}

#[cycle(find_ill_formed_value)]
fn find_ill_formed_field(
    fields: &[(Name, Node<Value>)],
    constness: Constness,
) -> Option<IllFormed<'_>>
    ensures { IsFirstFlaw
        (object_fields_flaws (constness_of constness) (object_field_trees fields.now)) result }
{
    for field in fields {
        if let Some(found) = find_ill_formed_value(&field.1, constness) {
            return Some(found.within(field.1.location()));
        }
    }
    None
}
