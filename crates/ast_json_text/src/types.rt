//! Type references as the text of their AST JSON.
ghost use Rattle.std.specs.Prelude.{codes};
ghost use Rattle.graphql_text.specs.trees.Leaves.{name_tree};
ghost use Rattle.graphql_values.specs.trees.TypeTrees.{type_tree};
ghost use Rattle.ast_json_nodes.specs.code.NodeReading.{StandsAt};
ghost use Rattle.ast_json_nodes.specs.declared.read.Unknown.{Unknown};
ghost use Rattle.graphql_ast_json.specs.kinds.TypeJson.{IsNamedType, IsTypeAround, IsTypeReference};
ghost use Rattle.json_text.specs.Texts.{WritesJson};

use crate::context::NodeContext;
use crate::text::WriteAstNode;
use crate::write::{write_location, write_member};
use graphql_ast::ast::{NamedType, Type};
use graphql_ast::name::Name;
use graphql_base::span::SourceSpan;
use graphql_text::writers::Target;

/// Writes the type reference as a node. Those within it have no location.
#[cycle(reference)]
pub(crate) fn write_type<O: Target>(out: &mut O, location: Option<SourceSpan>, ty: &Type)
    ensures { WritesJson O.wrote out.old out.new (λ json.
        ((unknown : Unknown) → IsTypeReference unknown (type_tree ty.now) json)
        × StandsAt location json) }
{
    match ty {
        Type::Named(name) => write_named_type(out, location, name),
        Type::List(item) => write_list_type(out, location, item),
        Type::NonNullNamed(name) => {
            out.text("{\"kind\":\"NonNullType\"");
            write_location(out, location);
            out.text(",\"type\":");
            write_named_type(out, None, name);
            out.text("}");
        }
        Type::NonNullList(item) => {
            out.text("{\"kind\":\"NonNullType\"");
            write_location(out, location);
            out.text(",\"type\":");
            write_list_type(out, None, item);
            out.text("}");
        }
    }
}

/// Writes a list type of items of this type.
#[cycle(reference)]
fn write_list_type<O: Target>(out: &mut O, location: Option<SourceSpan>, item: &Type)
    ensures { WritesJson O.wrote out.old out.new (λ json. ((unknown : Unknown)
        → IsTypeAround unknown (codes "ListType")
        (IsTypeReference unknown (type_tree item.now)) json) × StandsAt location json) }
{
    out.text("{\"kind\":\"ListType\"");
    write_location(out, location);
    out.text(",\"type\":");
    write_type(out, None, item);
    out.text("}");
}

/// Writes a named type.
pub(crate) fn write_named_type<O: Target>(
    out: &mut O,
    location: Option<SourceSpan>,
    name: &NamedType,
)
    ensures { WritesJson O.wrote out.old out.new (λ json.
        ((unknown : Unknown) → IsNamedType unknown (name_tree name.now) json)
        × StandsAt location json) }
{
    out.text("{\"kind\":\"NamedType\"");
    write_location(out, location);
    write_member::<Name, O>(out, ",\"name\":", name);
    out.text("}");
}

impl WriteAstNode for Type {
    fn write_ast_node<O: Target>(&self, out: &mut O, context: NodeContext) {
        write_type(out, context.location, self);
    }
}
