//! Enum types as the text of their AST JSON.
use crate::context::NodeContext;
use crate::text::WriteAstNode;
use crate::write::{write_directives, write_leading, write_list, write_location, write_member};
use graphql_ast::ast::{EnumTypeDefinition, EnumTypeExtension, EnumValueDefinition};
use graphql_ast::name::Name;
use graphql_base::node::{Node, NodeStr};
use graphql_text::writers::Target;

impl WriteAstNode for EnumTypeDefinition {
    fn write_ast_node<O: Target>(&self, out: &mut O, context: NodeContext) {
        let EnumTypeDefinition {
            description,
            name,
            directives,
            values,
        } = self;
        out.text("{");
        write_leading::<NodeStr, O>(out, "\"description\":", description);
        write_directives(out, "\"directives\":", directives);
        out.text(",\"kind\":\"EnumTypeDefinition\"");
        write_location(out, context.location);
        write_member::<Name, O>(out, ",\"name\":", name);
        write_list::<Node<EnumValueDefinition>, O>(out, ",\"values\":", values);
        out.text("}");
    }
}

impl WriteAstNode for EnumTypeExtension {
    fn write_ast_node<O: Target>(&self, out: &mut O, context: NodeContext) {
        let EnumTypeExtension {
            name,
            directives,
            values,
        } = self;
        write_directives(out, "{\"directives\":", directives);
        out.text(",\"kind\":\"EnumTypeExtension\"");
        write_location(out, context.location);
        write_member::<Name, O>(out, ",\"name\":", name);
        write_list::<Node<EnumValueDefinition>, O>(out, ",\"values\":", values);
        out.text("}");
    }
}
