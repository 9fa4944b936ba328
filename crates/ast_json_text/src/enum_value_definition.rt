//! Definitions of enum values as the text of their AST JSON.
use crate::context::NodeContext;
use crate::text::WriteAstNode;
use crate::write::{write_directives, write_leading, write_location, write_member};
use graphql_ast::ast::EnumValueDefinition;
use graphql_ast::name::Name;
use graphql_base::node::NodeStr;
use graphql_text::writers::Target;

impl WriteAstNode for EnumValueDefinition {
    fn write_ast_node<O: Target>(&self, out: &mut O, context: NodeContext) {
        let EnumValueDefinition {
            description,
            value,
            directives,
        } = self;
        out.text("{");
        write_leading::<NodeStr, O>(out, "\"description\":", description);
        write_directives(out, "\"directives\":", directives);
        out.text(",\"kind\":\"EnumValueDefinition\"");
        write_location(out, context.location);
        write_member::<Name, O>(out, ",\"name\":", value);
        out.text("}");
    }
}
