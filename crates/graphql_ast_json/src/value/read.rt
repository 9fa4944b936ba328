//! Values from AST JSON.
ghost use Rattle.std.specs.Prelude.{◌≡◌, ◌≢◌, Bool, IfOk, IfErr, Some, codes};
ghost use Rattle.serde_json.specs.Data.{string};
ghost use Rattle.graphql_base.specs.Node.{node_location, node_value};
ghost use Rattle.graphql_text.specs.trees.Leaves.{name_tree};
ghost use Rattle.graphql_text.specs.lexical.Literals.{FloatText, IntText, NameText};
ghost use Rattle.graphql_values.specs.trees.Literals.{float_tree, int_tree};
ghost use Rattle.graphql_values.specs.kinds.Values.{ValueTree, ValueTrees, ObjectFieldTrees, variable, int_value, float_value, boolean_value, list_value, object_value};
ghost use Rattle.graphql_values.specs.trees.ValueTrees.{value_tree, value_trees, object_field_trees};
ghost use Rattle.parsed_json.specs.AnyJson.{items_data};
ghost use Rattle.ast_json_nodes.specs.code.Errors.{IsMemory};
ghost use Rattle.ast_json_nodes.specs.code.JsonNodes.{node_data, IsFromNone, IsReadFrom};
ghost use Rattle.ast_json_nodes.specs.code.NodeReading.{IsInFile, StandsAt};
ghost use Rattle.ast_json_nodes.specs.code.ToldErrors.{IsToldOfBoolean, IsToldOfItemBy, IsToldOfLeaf, IsToldOfText, IsToldOfValue, IsToldOfVariable};
ghost use Rattle.graphql_ast_json.specs.code.ToldValues.{IsField, IsToldInside, IsToldOfListValue, IsToldOfLocated, IsToldOfNamed, IsToldOfObjectValue, OfValues};
ghost use Rattle.graphql_ast_json.specs.kinds.ValueJson.{IsValue, AreValues, AreObjectFields, IsNamedValue};
ghost use Rattle.ast_json_nodes.specs.nodes.Nodes.{IsLocated, member_of};

use crate::ast_json::node_at;
use crate::members::member;
use crate::name::name_of_kind;
use crate::string::string_text;
use ast_json_nodes::JsonNode;
use ast_json_nodes::error::AstJsonError;
use graphql_ast::ast::{FloatValue, IntValue, Value};
use graphql_ast::name::Name;
use graphql_base::node::Node;
use parsed_json::AnyItems;

/// The name of a variable.
pub(crate) fn variable_name(node: JsonNode<'_, '_>) -> Result<Name, AstJsonError>
    requires { IsLocated node.unknown (node_data node) }
    ensures ok { IfOk result (λ name. IsReadFrom IsValue node.entry (variable (name_tree name))) }
    ensures err { IfErr result (λ error. ¬ IsMemory error
        → (name : NameText) → ¬ IsReadFrom IsValue node.entry (variable name)) }
    ensures told { IfErr result (λ error. ¬ IsMemory error → IsToldOfVariable node.entry error) }
{
    node.check("Variable", &["name"])?;
    member::<Name>(node, "name")
}

/// An integer.
fn int(node: JsonNode<'_, '_>) -> Result<IntValue, AstJsonError>
    requires { IsLocated node.unknown (node_data node) }
    ensures ok { IfOk result (λ int. IsReadFrom IsValue node.entry (int_value (int_tree int))) }
    ensures err { IfErr result (λ error. ¬ IsMemory error
        → (int : IntText) → ¬ IsReadFrom IsValue node.entry (int_value int)) }
    ensures told { IfErr result (λ error. ¬ IsMemory error
        → IsToldOfText node.entry (codes "IntValue") (codes "an integer") error) }
{
    let text = node.text_of_kind("IntValue")?;
    if IntValue::valid_syntax(text) {
        Ok(IntValue::new_parsed(node.alloc, text)?)
    } else {
        Err(node.wrong_text("value", text, "an integer"))
    }
}

/// A number with a fraction or an exponent.
fn float(node: JsonNode<'_, '_>) -> Result<FloatValue, AstJsonError>
    requires { IsLocated node.unknown (node_data node) }
    ensures ok { IfOk result (λ float.
        IsReadFrom IsValue node.entry (float_value (float_tree float))) }
    ensures err { IfErr result (λ error. ¬ IsMemory error
        → (float : FloatText) → ¬ IsReadFrom IsValue node.entry (float_value float)) }
    ensures told { IfErr result (λ error. ¬ IsMemory error
        → IsToldOfText node.entry (codes "FloatValue") (codes "a float") error) }
{
    let text = node.text_of_kind("FloatValue")?;
    if FloatValue::valid_syntax(text) {
        Ok(FloatValue::new_parsed(node.alloc, text)?)
    } else {
        Err(node.wrong_text("value", text, "a float"))
    }
}

/// A boolean.
fn boolean(node: JsonNode<'_, '_>) -> Result<bool, AstJsonError>
    requires { IsLocated node.unknown (node_data node) }
    ensures ok { IfOk result (λ is_true. IsReadFrom IsValue node.entry (boolean_value is_true)) }
    ensures err { IfErr result (λ error. ¬ IsMemory error
        → (is_true : Bool) → ¬ IsReadFrom IsValue node.entry (boolean_value is_true)) }
    ensures told { IfErr result (λ error. ¬ IsMemory error
        → IsToldOfBoolean node.entry error) }
{
    node.check("BooleanValue", &["value"])?;
    node.boolean("value")
}

/// The value that a node of this kind is of, if it is one that has no other values in it.
// It has a frame of its own, so that the frames of lists and objects in one another are small.
#[inline(never)]
fn leaf(node: JsonNode<'_, '_>, kind: &str) -> Result<Value, AstJsonError>
    requires located { IsLocated node.unknown (node_data node) }
    requires kind { member_of (codes "kind") (node_data node) ≡ Some (string kind.now) }
    requires list { kind.now ≢ codes "ListValue" }
    requires object { kind.now ≢ codes "ObjectValue" }
    ensures ok { IfOk result (λ value. IsReadFrom IsValue node.entry (value_tree value)) }
    ensures err { IfErr result (λ error. ¬ IsMemory error → IsFromNone IsValue node.entry) }
    ensures told { IfErr result (λ error. ¬ IsMemory error
        → IsToldOfLeaf node.entry kind.now error) }
{
    match kind {
        "NullValue" => {
            node.check("NullValue", &[])?;
            Ok(Value::Null)
        }
        "EnumValue" => Ok(Value::Enum(name_of_kind(node, "EnumValue")?)),
        "Variable" => Ok(Value::Variable(variable_name(node)?)),
        "StringValue" => {
            let text = string_text(node)?;
            Ok(Value::String(String::from_str(node.alloc, text)?))
        }
        "FloatValue" => Ok(Value::Float(float(node)?)),
        "IntValue" => Ok(Value::Int(int(node)?)),
        "BooleanValue" => Ok(Value::Boolean(boolean(node)?)),
        _ => Err(node.wrong_kind(kind, "a value")),
    }
}

/// The value that a node is of, whose location was read.
///
/// `{"kind":"IntValue","value":"4"}` is of the value `4`.
#[cycle(value)]
pub(crate) fn read_value(node: JsonNode<'_, '_>) -> Result<Value, AstJsonError>
    requires { IsLocated node.unknown (node_data node) }
    ensures ok { IfOk result (λ value. IsReadFrom IsValue node.entry (value_tree value)) }
    ensures err { IfErr result (λ error. ¬ IsMemory error → IsFromNone IsValue node.entry) }
    ensures told { IfErr result (λ error. ¬ IsMemory error → IsToldOfValue node.entry error) }
    ensures nested { IfErr result (λ error. ¬ IsMemory error
        → OfValues (λ Told. Told node.entry error)) }
{
    let kind = node.text("kind")?;
    match kind {
        "ListValue" => Ok(Value::List(list_items(node)?)),
        "ObjectValue" => Ok(Value::Object(object_fields(node)?)),
        _ => leaf(node, kind),
    }
}

/// The value as a node, at its location.
#[cycle(value)]
fn read_value_node(node: JsonNode<'_, '_>) -> Result<Node<Value>, AstJsonError>
    ensures ok { IfOk result (λ value.
        IsReadFrom IsValue node.entry (value_tree (node_value value))) }
    ensures stands { IfOk result (λ value. StandsAt (node_location value) (node_data node.entry)) }
    ensures file { IfOk result (λ value. IsInFile node.entry.source (node_location value)) }
    ensures err { IfErr result (λ error. ¬ IsMemory error → IsFromNone IsValue node.entry) }
    ensures told { IfErr result (λ error. ¬ IsMemory error
        → OfValues (λ Told. IsToldOfLocated Told node.entry error)) }
{
    let location = node.location()?;
    let value = read_value(node)?;
    Ok(node_at(node.alloc, location, value)?)
}

/// The items of a list.
#[cycle(value)]
fn list_items(node: JsonNode<'_, '_>) -> Result<Vec<Node<Value>>, AstJsonError>
    requires { IsLocated node.unknown (node_data node) }
    ensures ok { IfOk result (λ items.
        IsReadFrom IsValue node.entry (list_value (value_trees items.items))) }
    ensures err { IfErr result (λ error. ¬ IsMemory error
        → (items : ValueTrees) → ¬ IsReadFrom IsValue node.entry (list_value items)) }
    ensures told { IfErr result (λ error. ¬ IsMemory error
        → OfValues (λ Told. IsToldOfListValue Told node.entry error)) }
{
    node.check("ListValue", &["values"])?;
    let items = node.items("values")?;
    match values(node, items) {
        Ok(values) => Ok(values),
        Err(error) => Err(node.within("values", error)),
    }
}

#[cycle(value)]
fn values(node: JsonNode<'_, '_>, items: AnyItems<'_, '_>) -> Result<Vec<Node<Value>>, AstJsonError>
    ensures ok { IfOk result (λ values.
        AreValues node.entry.unknown (value_trees values.items) (items_data items.entry)) }
    ensures err { IfErr result (λ error. ¬ IsMemory error
        → (trees : ValueTrees) → ¬ AreValues node.entry.unknown trees (items_data items.entry)) }
    ensures told { IfErr result (λ error. ¬ IsMemory error
        → OfValues (λ Told. IsToldOfItemBy (IsValue node.entry.unknown)
        (IsToldInside Told node.entry) (items_data items.entry) error)) }
{
    let mut values = Vec::with_capacity(node.alloc, items.len())?;
    for index in 0..items.len() {
        let json = items.at(index);
        match read_value_node(JsonNode { json, ..node }) {
            Ok(value) => values.push(value)?,
            Err(error) => return Err(error.in_item(node.alloc, index)),
        }
    }
    Ok(values)
}

/// The fields of an object.
#[cycle(value)]
fn object_fields(node: JsonNode<'_, '_>) -> Result<Vec<(Name, Node<Value>)>, AstJsonError>
    requires { IsLocated node.unknown (node_data node) }
    ensures ok { IfOk result (λ fields.
        IsReadFrom IsValue node.entry (object_value (object_field_trees fields.items))) }
    ensures err { IfErr result (λ error. ¬ IsMemory error
        → (fields : ObjectFieldTrees)
        → ¬ IsReadFrom IsValue node.entry (object_value fields)) }
    ensures told { IfErr result (λ error. ¬ IsMemory error
        → OfValues (λ Told. IsToldOfObjectValue Told node.entry error)) }
{
    node.check("ObjectValue", &["fields"])?;
    let items = node.items("fields")?;
    match fields(node, items) {
        Ok(fields) => Ok(fields),
        Err(error) => Err(node.within("fields", error)),
    }
}

#[cycle(value)]
fn fields(
    node: JsonNode<'_, '_>,
    items: AnyItems<'_, '_>,
) -> Result<Vec<(Name, Node<Value>)>, AstJsonError>
    ensures ok { IfOk result (λ fields.
        AreObjectFields node.entry.unknown (object_field_trees fields.items)
        (items_data items.entry)) }
    ensures err { IfErr result (λ error. ¬ IsMemory error
        → (trees : ObjectFieldTrees) → ¬ AreObjectFields node.entry.unknown trees
        (items_data items.entry)) }
    ensures told { IfErr result (λ error. ¬ IsMemory error
        → OfValues (λ Told. IsToldOfItemBy (IsField node.entry.unknown)
        (IsToldInside (IsToldOfNamed (codes "ObjectField") Told) node.entry)
        (items_data items.entry) error)) }
{
    let mut fields = Vec::with_capacity(node.alloc, items.len())?;
    for index in 0..items.len() {
        let json = items.at(index);
        match object_field(JsonNode { json, ..node }) {
            Ok(field) => fields.push(field)?,
            Err(error) => return Err(error.in_item(node.alloc, index)),
        }
    }
    Ok(fields)
}

/// A field of an object. Where it stands is tested and left out.
#[cycle(value)]
fn object_field(node: JsonNode<'_, '_>) -> Result<(Name, Node<Value>), AstJsonError>
    ensures ok { IfOk result (λ pair. IsNamedValue node.entry.unknown (codes "ObjectField")
        (name_tree pair.0) (IsValue node.entry.unknown (value_tree (node_value pair.1)))
        (node_data node.entry)) }
    ensures err { IfErr result (λ error. ¬ IsMemory error
        → (name : NameText) → (value : ValueTree) → ¬ IsNamedValue node.entry.unknown
        (codes "ObjectField") name (IsValue node.entry.unknown value) (node_data node.entry)) }
    ensures told { IfErr result (λ error. ¬ IsMemory error
        → OfValues (λ Told.
        IsToldOfLocated (IsToldOfNamed (codes "ObjectField") Told) node.entry error)) }
{
    node.location()?;
    named_value(node, "ObjectField")
}

/// The name and the value of a node of this kind that has both.
#[cycle(value)]
pub(crate) fn named_value(
    node: JsonNode<'_, '_>,
    kind: &str,
) -> Result<(Name, Node<Value>), AstJsonError>
    requires { IsLocated node.unknown (node_data node) }
    ensures ok { IfOk result (λ pair. IsNamedValue node.entry.unknown kind.now
        (name_tree pair.0) (IsValue node.entry.unknown (value_tree (node_value pair.1)))
        (node_data node.entry)) }
    ensures err { IfErr result (λ error. ¬ IsMemory error
        → (name : NameText) → (value : ValueTree) → ¬ IsNamedValue node.entry.unknown
        kind.now name (IsValue node.entry.unknown value) (node_data node.entry)) }
    ensures told { IfErr result (λ error. ¬ IsMemory error
        → OfValues (λ Told. IsToldOfNamed kind.now Told node.entry error)) }
{
    node.check(kind, &["name", "value"])?;
    let name = member::<Name>(node, "name")?;
    let json = node.required("value")?;
    match read_value_node(JsonNode { json, ..node }) {
        Ok(value) => Ok((name, value)),
        Err(error) => Err(node.within("value", error)),
    }
}
