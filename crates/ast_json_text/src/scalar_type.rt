//! Scalar types as the text of their AST JSON.
use crate::context::NodeContext;
use crate::text::WriteAstNode;
use crate::write::{write_directives, write_leading, write_location, write_member};
use graphql_ast::ast::{ScalarTypeDefinition, ScalarTypeExtension};
use graphql_ast::name::Name;
use graphql_base::node::NodeStr;
use graphql_text::writers::Target;

impl WriteAstNode for ScalarTypeDefinition {
    fn write_ast_node<O: Target>(&self, out: &mut O, context: NodeContext) {
        let ScalarTypeDefinition {
            description,
            name,
            directives,
        } = self;
        out.text("{");
        write_leading::<NodeStr, O>(out, "\"description\":", description);
        write_directives(out, "\"directives\":", directives);
        out.text(",\"kind\":\"ScalarTypeDefinition\"");
        write_location(out, context.location);
        write_member::<Name, O>(out, ",\"name\":", name);
        out.text("}");
    }
}

impl WriteAstNode for ScalarTypeExtension {
    fn write_ast_node<O: Target>(&self, out: &mut O, context: NodeContext) {
        let ScalarTypeExtension { name, directives } = self;
        write_directives(out, "{\"directives\":", directives);
        out.text(",\"kind\":\"ScalarTypeExtension\"");
        write_location(out, context.location);
        write_member::<Name, O>(out, ",\"name\":", name);
        out.text("}");
    }
}
