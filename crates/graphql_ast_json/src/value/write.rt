//! Values are written.
ghost use Rattle.std.specs.Prelude.{◌≡◌, ◌∷◌, [], IfOk, IsSomeAnd, Some, codes};
ghost use Rattle.serde_json.specs.Find.{as_array, get};
ghost use Rattle.serde_json.specs.View.{view};
ghost use Rattle.graphql_text.specs.trees.Leaves.{name_tree};
ghost use Rattle.graphql_values.specs.kinds.Values.{variable};
ghost use Rattle.graphql_values.specs.trees.ValueTrees.{object_field_trees, value_tree, value_trees};
ghost use Rattle.graphql_ast_json.specs.code.Drafts.{location_of};
ghost use Rattle.ast_json_nodes.specs.code.NodeReading.{StandsAt};
ghost use Rattle.ast_json_nodes.specs.declared.read.Unknown.{Unknown};
ghost use Rattle.graphql_ast_json.specs.kinds.ValueJson.{AreObjectFields, AreValues, IsValue};
ghost use Rattle.ast_json_nodes.specs.nodes.Nodes.{IsName, IsNode, Member};

use crate::ast_json::AstJson;
use crate::string::{is_block_value, write_string};
use crate::write::NodeWriter;
use graphql_ast::ast::Value;
use graphql_ast::name::Name;
use graphql_base::node::Node;
use serde_json::{Value as Json, push};
use std::alloc::{AllocError, Global};

/// The value as a node. The names and the nodes in it have their own locations. `AllocError` if an allocation fails.
#[cycle(value)]
pub(crate) fn write_value(node: NodeWriter, value: &Value) -> Result<Json, AllocError>
    ensures ok { IfOk result (λ json. (unknown : Unknown)
        → IsValue unknown (value_tree value.now) (view json)) }
    ensures stands { IfOk result (λ json. StandsAt (location_of node) (view json)) }
{
    match value {
        Value::List(items) => {
            let values = write_items(&node, items.as_slice())?;
            node.with_member("ListValue", "values", values)
        }
        Value::Object(fields) => {
            let fields = write_fields(&node, fields.as_slice())?;
            node.with_member("ObjectValue", "fields", fields)
        }
        Value::Null => node.with_none("NullValue"),
        Value::Enum(name) => node.with_text("EnumValue", name.as_str()),
        Value::Variable(name) => write_variable(node, name),
        Value::String(text) => {
            let characters = text.as_str();
            let is_block = is_block_value(&node, characters);
            write_string(node, characters, is_block)
        }
        Value::Float(float) => node.with_text("FloatValue", float.as_str()),
        Value::Int(int) => node.with_text("IntValue", int.as_str()),
        Value::Boolean(is_true) => {
            node.with_member("BooleanValue", "value", Json::Bool(*is_true))
        }
    }
}

/// A variable.
pub(crate) fn write_variable(node: NodeWriter, name: &Name) -> Result<Json, AllocError>
    ensures ok { IfOk result (λ json. (unknown : Unknown)
        → IsValue unknown (variable (name_tree name.now)) (view json)) }
    ensures stands { IfOk result (λ json. StandsAt (location_of node) (view json)) }
{
    let inner = name.to_ast_json(node.allocator())?;
    node.with_member("Variable", "name", inner)
}

#[cycle(value)]
fn write_items(node: &NodeWriter, items: &[Node<Value>]) -> Result<Json, AllocError>
    ensures { IfOk result (λ json. (unknown : Unknown)
        → IsSomeAnd (as_array (view json)) (AreValues unknown (value_trees items.now))) }
{
    let mut values = Vec::new(node.allocator());
    for item in items {
        let value = write_value(node.inner(item.location()), item)?;
        push(&mut values, value)?;
    }
    Ok(Json::Array(values))
}

#[cycle(value)]
fn write_fields(node: &NodeWriter, fields: &[(Name, Node<Value>)]) -> Result<Json, AllocError>
    ensures { IfOk result (λ json. (unknown : Unknown) → IsSomeAnd (as_array (view json))
        (AreObjectFields unknown (object_field_trees fields.now))) }
{
    let mut list = Vec::new(node.allocator());
    for field in fields {
        let value = write_value(node.inner(field.1.location()), &field.1)?;
        let json = write_field(node.allocator(), &field.0, value)?;
        push(&mut list, json)?;
    }
    Ok(Json::Array(list))
}

/// A field of an object, which has no location of its own.
fn write_field(alloc: Global, name: &Name, value: Json) -> Result<Json, AllocError>
    ensures node { IfOk result (λ node. (unknown : Unknown)
        → IsNode unknown (codes "ObjectField") (codes "name" ∷ codes "value" ∷ []) (view node)) }
    ensures name { IfOk result (λ node. (unknown : Unknown)
        → Member (codes "name") (view node) (IsName unknown (name_tree name.now))) }
    ensures value { IfOk result (λ node. get (codes "value") (view node) ≡ Some (view value)) }
{
    let mut node = NodeWriter::new(alloc, None);
    node.begin("ObjectField")?;
    node.put::<Name>("name", name)?;
    node.put_json("value", value)?;
    Ok(node.into_json())
}
