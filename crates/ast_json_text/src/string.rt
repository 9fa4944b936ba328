//! Strings as the text of their AST JSON.
ghost use Rattle.std.specs.Prelude.{◌≡◌, None, Some, codes, encode_utf8_all, if◌then◌else◌, true};
ghost use Rattle.serde_json.specs.Data.{boolean};
ghost use Rattle.graphql_text.specs.lexical.Literals.{StringText};
ghost use Rattle.ast_json_nodes.specs.code.NodeReading.{StandsAt};
ghost use Rattle.ast_json_nodes.specs.declared.read.Unknown.{Unknown};
ghost use Rattle.ast_json_nodes.specs.nodes.Nodes.{IsStringValue, member_of};
ghost use Rattle.json_text.specs.Texts.{WritesJson};
ghost use Rattle.ast_json_text.specs.Members.{WritesOptional};

use crate::context::NodeContext;
use crate::text::WriteAstJson;
use crate::write::{write_location, write_text};
use graphql_base::node::NodeStr;
use graphql_base::span::SourceSpan;
use graphql_text::writers::{Target, can_be_block};

/// Whether the default layout prints the value of this text, which stands in this context, as a block string.
pub(crate) fn is_block_value(context: NodeContext, text: &str) -> bool {
    !context.is_on_one_line && text.as_bytes().contains(&b'\n') && can_be_block(text)
}

/// Writes that a string is a block string, where it is one, before the members that are always there.
fn write_block<O: Target>(out: &mut O, is_block: bool)
    ensures { WritesOptional O.wrote out.old (codes "\"block\":") (codes ",") out.new
        (λ json. json ≡ (if is_block then Some (boolean true) else None)) }
{
    if is_block {
        out.text("\"block\":true,");
    }
}

/// Writes a string of these characters, which tells `block` where it is one.
pub(crate) fn write_string_node<O: Target>(
    out: &mut O,
    location: Option<SourceSpan>,
    text: &str,
    is_block: bool,
)
    ensures { WritesJson O.wrote out.old out.new (λ json.
        ((unknown : Unknown) (string : StringText)
        → encode_utf8_all string.text ≡ text.now → IsStringValue unknown string json)
        × StandsAt location json
        × (member_of (codes "block") json
        ≡ (if is_block then Some (boolean true) else None))) }
{
    out.text("{");
    write_block(out, is_block);
    out.text("\"kind\":\"StringValue\"");
    write_location(out, location);
    write_text(out, ",\"value\":", text);
    out.text("}");
}

impl WriteAstJson for NodeStr {
    /// The text, at its location if it has one. It tells `block` exactly where the default layout prints the description
    /// as a block string.
    fn write_ast_json<O: Target>(&self, out: &mut O) {
        let text = self.as_str();
        write_string_node(out, self.location(), text, can_be_block(text));
    }
}
