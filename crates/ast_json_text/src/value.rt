//! Values as the text of their AST JSON.
ghost use Rattle.std.specs.Prelude.{◌≡◌, ◌++◌, ℕ, IsSomeAnd, List, codes};
ghost use Rattle.json.specs.Print.{quoted};
ghost use Rattle.serde_json.specs.Find.{as_array};
ghost use Rattle.graphql_text.specs.trees.Leaves.{name_tree};
ghost use Rattle.graphql_values.specs.kinds.Values.{boolean_value, list_value, null_value, object_value, variable};
ghost use Rattle.graphql_values.specs.trees.ValueTrees.{object_field_trees, value_tree, value_trees};
ghost use Rattle.ast_json_nodes.specs.code.NodeReading.{IsTextNode, StandsAt};
ghost use Rattle.ast_json_nodes.specs.declared.read.Unknown.{Unknown};
ghost use Rattle.graphql_ast_json.specs.kinds.ValueJson.{AreObjectFields, AreValues, IsValue};
ghost use Rattle.json_text.specs.Texts.{WritesJson};

use crate::context::NodeContext;
use crate::string::{is_block_value, write_string_node};
use crate::text::WriteAstNode;
use crate::write::{write_boolean, write_location, write_member, write_text};
use graphql_ast::ast::Value;
use graphql_ast::name::Name;
use graphql_base::node::Node;
use graphql_base::span::SourceSpan;
use graphql_text::writers::Target;
use json_text::write_comma;

/// Writes a node whose one member is a text. It opens with a brace and its kind.
pub(crate) fn write_text_node<O: Target>(
    out: &mut O,
    opening: &str,
    location: Option<SourceSpan>,
    text: &str,
)
    ensures { (kind : List ℕ) → opening.now ≡ codes "{\"kind\":" ++ quoted kind →
        WritesJson O.wrote out.old out.new (λ json.
        ((unknown : Unknown) → IsTextNode unknown kind text.now json) × StandsAt location json) }
{
    out.text(opening);
    write_location(out, location);
    write_text(out, ",\"value\":", text);
    out.text("}");
}

/// Writes a variable.
pub(crate) fn write_variable<O: Target>(out: &mut O, location: Option<SourceSpan>, name: &Name)
    ensures { WritesJson O.wrote out.old out.new (λ json.
        ((unknown : Unknown) → IsValue unknown (variable (name_tree name.now)) json)
        × StandsAt location json) }
{
    out.text("{\"kind\":\"Variable\"");
    write_location(out, location);
    write_member::<Name, O>(out, ",\"name\":", name);
    out.text("}");
}

/// Writes the value as a node. The names and the nodes in it have their own locations.
#[cycle(value)]
pub(crate) fn write_value<O: Target>(out: &mut O, context: NodeContext, value: &Value)
    ensures { WritesJson O.wrote out.old out.new (λ json.
        ((unknown : Unknown) → IsValue unknown (value_tree value.now) json)
        × StandsAt context.location json) }
{
    match value {
        Value::List(items) => write_list_value(out, context, items.as_slice()),
        Value::Object(fields) => write_object_value(out, context, fields.as_slice()),
        Value::Null => write_null(out, context.location),
        Value::Enum(name) => {
            write_text_node(
                out,
                "{\"kind\":\"EnumValue\"",
                context.location,
                name.as_str(),
            );
        }
        Value::Variable(name) => write_variable(out, context.location, name),
        Value::String(text) => {
            let characters = text.as_str();
            let is_block = is_block_value(context, characters);
            write_string_node(out, context.location, characters, is_block);
        }
        Value::Float(float) => {
            write_text_node(
                out,
                "{\"kind\":\"FloatValue\"",
                context.location,
                float.as_str(),
            );
        }
        Value::Int(int) => {
            write_text_node(
                out,
                "{\"kind\":\"IntValue\"",
                context.location,
                int.as_str(),
            );
        }
        Value::Boolean(is_true) => write_boolean_value(out, context.location, *is_true),
    }
}

/// Writes a list of these values.
#[cycle(value)]
fn write_list_value<O: Target>(out: &mut O, context: NodeContext, items: &[Node<Value>])
    ensures { WritesJson O.wrote out.old out.new (λ json.
        ((unknown : Unknown) → IsValue unknown (list_value (value_trees items.now)) json)
        × StandsAt context.location json) }
{
    out.text("{\"kind\":\"ListValue\"");
    write_location(out, context.location);
    out.text(",\"values\":");
    write_items(out, context, items);
    out.text("}");
}

/// Writes an array of these values.
#[cycle(value)]
fn write_items<O: Target>(out: &mut O, context: NodeContext, items: &[Node<Value>])
    ensures { WritesJson O.wrote out.old out.new (λ json. (unknown : Unknown)
        → IsSomeAnd (as_array json) (AreValues unknown (value_trees items.now))) }
{
    out.text("[");
    let mut is_behind = false;
    for item in items {
        write_comma(out, is_behind);
        write_value(out, context.inner(item.location()), item);
        is_behind = true;
    }
    out.text("]");
}

/// Writes an object of these fields.
#[cycle(value)]
fn write_object_value<O: Target>(out: &mut O, context: NodeContext, fields: &[(Name, Node<Value>)])
    ensures { WritesJson O.wrote out.old out.new (λ json.
        ((unknown : Unknown) → IsValue unknown (object_value (object_field_trees fields.now)) json)
        × StandsAt context.location json) }
{
    out.text("{\"fields\":");
    write_fields(out, context, fields);
    out.text(",\"kind\":\"ObjectValue\"");
    write_location(out, context.location);
    out.text("}");
}

/// Writes an array of these fields, which have no location of their own.
#[cycle(value)]
fn write_fields<O: Target>(out: &mut O, context: NodeContext, fields: &[(Name, Node<Value>)])
    ensures { WritesJson O.wrote out.old out.new (λ json. (unknown : Unknown)
        → IsSomeAnd (as_array json) (AreObjectFields unknown (object_field_trees fields.now))) }
{
    out.text("[");
    let mut is_behind = false;
    for field in fields {
        write_comma(out, is_behind);
        write_member::<Name, O>(out, "{\"kind\":\"ObjectField\",\"name\":", &field.0);
        out.text(",\"value\":");
        write_value(out, context.inner(field.1.location()), &field.1);
        out.text("}");
        is_behind = true;
    }
    out.text("]");
}

/// Writes the null value.
fn write_null<O: Target>(out: &mut O, location: Option<SourceSpan>)
    ensures { WritesJson O.wrote out.old out.new (λ json.
        ((unknown : Unknown) → IsValue unknown null_value json) × StandsAt location json) }
{
    out.text("{\"kind\":\"NullValue\"");
    write_location(out, location);
    out.text("}");
}

/// Writes a boolean value.
fn write_boolean_value<O: Target>(out: &mut O, location: Option<SourceSpan>, is_true: bool)
    ensures { WritesJson O.wrote out.old out.new (λ json.
        ((unknown : Unknown) → IsValue unknown (boolean_value is_true) json)
        × StandsAt location json) }
{
    out.text("{\"kind\":\"BooleanValue\"");
    write_location(out, location);
    write_boolean(out, ",\"value\":", is_true);
    out.text("}");
}

impl WriteAstNode for Value {
    fn write_ast_node<O: Target>(&self, out: &mut O, context: NodeContext) {
        write_value(out, context, self);
    }
}
