//! Union types as the text of their AST JSON.
use crate::context::NodeContext;
use crate::form::NamedTypeForm;
use crate::text::WriteAstNode;
use crate::write::{write_directives, write_leading, write_list, write_location, write_member};
use graphql_ast::ast::{UnionTypeDefinition, UnionTypeExtension};
use graphql_ast::name::Name;
use graphql_base::node::NodeStr;
use graphql_text::writers::Target;

impl WriteAstNode for UnionTypeDefinition {
    fn write_ast_node<O: Target>(&self, out: &mut O, context: NodeContext) {
        let UnionTypeDefinition {
            description,
            name,
            directives,
            members,
        } = self;
        out.text("{");
        write_leading::<NodeStr, O>(out, "\"description\":", description);
        write_directives(out, "\"directives\":", directives);
        out.text(",\"kind\":\"UnionTypeDefinition\"");
        write_location(out, context.location);
        write_member::<Name, O>(out, ",\"name\":", name);
        write_list::<NamedTypeForm, O>(out, ",\"types\":", members);
        out.text("}");
    }
}

impl WriteAstNode for UnionTypeExtension {
    fn write_ast_node<O: Target>(&self, out: &mut O, context: NodeContext) {
        let UnionTypeExtension {
            name,
            directives,
            members,
        } = self;
        write_directives(out, "{\"directives\":", directives);
        out.text(",\"kind\":\"UnionTypeExtension\"");
        write_location(out, context.location);
        write_member::<Name, O>(out, ",\"name\":", name);
        write_list::<NamedTypeForm, O>(out, ",\"types\":", members);
        out.text("}");
    }
}
