//! Definitions of fields as the text of their AST JSON.
use crate::context::NodeContext;
use crate::text::WriteAstNode;
use crate::write::{
    write_directives, write_location, write_member, write_optional, write_parameters,
};
use graphql_ast::ast::{FieldDefinition, Type};
use graphql_ast::name::Name;
use graphql_base::node::NodeStr;
use graphql_text::writers::Target;
use graphql_values::writers::some_want_lines;

impl WriteAstNode for FieldDefinition {
    fn write_ast_node<O: Target>(&self, out: &mut O, context: NodeContext) {
        let FieldDefinition {
            description,
            name,
            arguments,
            ty,
            directives,
        } = self;
        let over_lines = some_want_lines(arguments);
        write_parameters(out, "{\"arguments\":", arguments, over_lines);
        write_optional::<NodeStr, O>(out, ",\"description\":", description);
        write_directives(out, ",\"directives\":", directives);
        out.text(",\"kind\":\"FieldDefinition\"");
        write_location(out, context.location);
        write_member::<Name, O>(out, ",\"name\":", name);
        write_member::<Type, O>(out, ",\"type\":", ty);
        out.text("}");
    }
}
