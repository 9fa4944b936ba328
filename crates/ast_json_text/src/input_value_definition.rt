//! Definitions of input values as the text of their AST JSON.
use crate::context::NodeContext;
use crate::text::WriteAstNode;
use crate::write::{
    write_default_value, write_directives, write_leading, write_location, write_member,
};
use graphql_ast::ast::{InputValueDefinition, Type};
use graphql_ast::name::Name;
use graphql_base::node::{Node, NodeStr};
use graphql_text::writers::Target;

impl WriteAstNode for InputValueDefinition {
    fn write_ast_node<O: Target>(&self, out: &mut O, context: NodeContext) {
        let InputValueDefinition {
            description,
            name,
            ty,
            default_value,
            directives,
        } = self;
        out.text("{");
        write_default_value(out, context, default_value);
        write_leading::<NodeStr, O>(out, "\"description\":", description);
        write_directives(out, "\"directives\":", directives);
        out.text(",\"kind\":\"InputValueDefinition\"");
        write_location(out, context.location);
        write_member::<Name, O>(out, ",\"name\":", name);
        write_member::<Node<Type>, O>(out, ",\"type\":", ty);
        out.text("}");
    }
}
