//! Members of nodes, arrays and locations are written.
ghost use Rattle.std.specs.Prelude.{◌≡◌, ◌<◌, ◌^◌, ◌∷◌, [], IfSome, IsSomeAnd, codes, map, option_map};
ghost use Rattle.serde_json.specs.Data.{boolean, string};
ghost use Rattle.serde_json.specs.Find.{as_array};
ghost use Rattle.graphql_base.specs.Node.{node_value};
ghost use Rattle.graphql_base.specs.Span.{span_end};
ghost use Rattle.graphql_values.specs.trees.DirectiveTrees.{directive_trees};
ghost use Rattle.graphql_values.specs.trees.ValueTrees.{value_tree};
ghost use Rattle.ast_json_nodes.specs.declared.read.Unknown.{Unknown};
ghost use Rattle.ast_json_nodes.specs.nodes.Nodes.{Each, IsOptional};
ghost use Rattle.graphql_ast_json.specs.code.Drafts.{location_json};
ghost use Rattle.graphql_ast_json.specs.kinds.DirectiveJson.{IsDirective};
ghost use Rattle.graphql_ast_json.specs.kinds.ValueJson.{IsValue};
ghost use Rattle.json_text.specs.Texts.{WritesJson, optional_text};
ghost use Rattle.ast_json_text.specs.Members.{WritesMember, WritesOptional};

use crate::context::NodeContext;
use crate::form::{OnOneLine, WriteForm};
use crate::text::WriteAstNode;
use graphql_ast::ast::{Directive, DirectiveList, Value};
use graphql_base::node::Node;
use graphql_base::span::SourceSpan;
use graphql_text::writers::Target;
use json_text::{write_comma, write_number, write_string};

/// Writes a key, and the JSON of this tree.
pub(crate) fn write_member<F: WriteForm, O: Target>(out: &mut O, key: &str, value: &F::Value)
    ensures { WritesMember O.wrote out.old key.now out.new (λ json. (unknown : Unknown)
        → F.is_json_of unknown (F.tree value.now) json) }
{
    out.text(key);
    F::write_form(out, value);
}

/// Writes a key, and the JSON of this tree, if there is one.
pub(crate) fn write_optional<F: WriteForm, O: Target>(
    out: &mut O,
    key: &str,
    value: &Option<F::Value>,
)
    ensures { WritesOptional O.wrote out.old key.now [] out.new (λ json. (unknown : Unknown)
        → IsOptional (F.is_json_of unknown) (option_map F.tree value.now) json) }
{
    match value {
        Some(value) => write_member::<F, O>(out, key, value),
        None => {}
    }
}

/// The same with a comma behind it, of a member that stands before one which is always there.
pub(crate) fn write_leading<F: WriteForm, O: Target>(
    out: &mut O,
    key: &str,
    value: &Option<F::Value>,
)
    ensures { WritesOptional O.wrote out.old key.now (codes ",") out.new (λ json.
        (unknown : Unknown)
        → IsOptional (F.is_json_of unknown) (option_map F.tree value.now) json) }
{
    match value {
        Some(value) => {
            write_member::<F, O>(out, key, value);
            out.text(",");
        }
        None => {}
    }
}

/// Writes a key `defaultValue`, and the JSON of this value, if there is one, which the default layout prints on one line if
/// it prints the node so.
pub(crate) fn write_default_value<O: Target>(
    out: &mut O,
    context: NodeContext,
    value: &Option<Node<Value>>,
)
    ensures { WritesOptional O.wrote out.old (codes "\"defaultValue\":") (codes ",") out.new
        (λ json. (unknown : Unknown) → IsOptional (IsValue unknown)
        (option_map (λ node. value_tree (node_value node)) value.now) json) }
{
    if context.is_on_one_line {
        write_leading::<OnOneLine<Value>, O>(out, "\"defaultValue\":", value);
    } else {
        write_leading::<Node<Value>, O>(out, "\"defaultValue\":", value);
    }
}

/// Writes an array of the JSON of these trees, one by one.
pub(crate) fn write_array<F: WriteForm, O: Target>(out: &mut O, values: &[F::Value])
    ensures { WritesJson O.wrote out.old out.new (λ json. (unknown : Unknown)
        → IsSomeAnd (as_array json) (Each (F.is_json_of unknown) (map F.tree values.now))) }
{
    out.text("[");
    let mut is_behind = false;
    for value in values {
        write_comma(out, is_behind);
        F::write_form(out, value);
        is_behind = true;
    }
    out.text("]");
}

/// Writes a key, and an array of the JSON of these trees.
pub(crate) fn write_list<F: WriteForm, O: Target>(out: &mut O, key: &str, values: &[F::Value])
    ensures { WritesMember O.wrote out.old key.now out.new (λ json. (unknown : Unknown)
        → IsSomeAnd (as_array json) (Each (F.is_json_of unknown) (map F.tree values.now))) }
{
    out.text(key);
    write_array::<F, O>(out, values);
}

/// The same of nodes that the default layout prints over lines, or on one line.
pub(crate) fn write_parameters<T: WriteAstNode + Drop, O: Target>(
    out: &mut O,
    key: &str,
    parameters: &[Node<T>],
    over_lines: bool,
)
    ensures { WritesMember O.wrote out.old key.now out.new (λ json. (unknown : Unknown)
        → IsSomeAnd (as_array json) (Each (T.is_node unknown)
        (map (λ node. T.tree (node_value node)) parameters.now))) }
{
    if over_lines {
        write_list::<Node<T>, O>(out, key, parameters);
    } else {
        write_list::<OnOneLine<T>, O>(out, key, parameters);
    }
}

/// Writes a key, and an array of these directives.
pub(crate) fn write_directives<O: Target>(out: &mut O, key: &str, list: &DirectiveList)
    ensures { WritesMember O.wrote out.old key.now out.new (λ json. (unknown : Unknown)
        → IsSomeAnd (as_array json) (Each (IsDirective unknown) (directive_trees list.now))) }
{
    write_list::<Node<Directive>, O>(out, key, list.0.as_slice());
}

/// Writes a key, and a string.
pub(crate) fn write_text<O: Target>(out: &mut O, key: &str, text: &str)
    ensures { WritesMember O.wrote out.old key.now out.new (λ json. json ≡ string text.now) }
{
    out.text(key);
    write_string(out, text);
}

/// Writes a key, and whether it is so.
pub(crate) fn write_boolean<O: Target>(out: &mut O, key: &str, is_so: bool)
    ensures { WritesMember O.wrote out.old key.now out.new (λ json. json ≡ boolean is_so) }
{
    out.text(key);
    out.text(if is_so { "true" } else { "false" });
}

/// Writes where a node stands, if it tells that, behind its kind.
pub(crate) fn write_location<O: Target>(out: &mut O, location: Option<SourceSpan>)
    ensures text { O.wrote out.old (optional_text (codes ",\"loc\":")
        (option_map location_json location) []) out.new }
    ensures reach { IfSome location (λ span. span_end span < 2 ^ 32) }
{
    match location {
        Some(span) => {
            out.text(",\"loc\":{\"end\":");
            write_number(out, span.end());
            out.text(",\"start\":");
            write_number(out, span.start());
            out.text("}");
        }
        None => {}
    }
}
