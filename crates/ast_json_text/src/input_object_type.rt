//! Input object types as the text of their AST JSON.
use crate::context::NodeContext;
use crate::text::WriteAstNode;
use crate::write::{write_directives, write_leading, write_list, write_location, write_member};
use graphql_ast::ast::{InputObjectTypeDefinition, InputObjectTypeExtension, InputValueDefinition};
use graphql_ast::name::Name;
use graphql_base::node::{Node, NodeStr};
use graphql_text::writers::Target;

impl WriteAstNode for InputObjectTypeDefinition {
    fn write_ast_node<O: Target>(&self, out: &mut O, context: NodeContext) {
        let InputObjectTypeDefinition {
            description,
            name,
            directives,
            fields,
        } = self;
        out.text("{");
        write_leading::<NodeStr, O>(out, "\"description\":", description);
        write_directives(out, "\"directives\":", directives);
        write_list::<Node<InputValueDefinition>, O>(out, ",\"fields\":", fields);
        out.text(",\"kind\":\"InputObjectTypeDefinition\"");
        write_location(out, context.location);
        write_member::<Name, O>(out, ",\"name\":", name);
        out.text("}");
    }
}

impl WriteAstNode for InputObjectTypeExtension {
    fn write_ast_node<O: Target>(&self, out: &mut O, context: NodeContext) {
        let InputObjectTypeExtension {
            name,
            directives,
            fields,
        } = self;
        write_directives(out, "{\"directives\":", directives);
        write_list::<Node<InputValueDefinition>, O>(out, ",\"fields\":", fields);
        out.text(",\"kind\":\"InputObjectTypeExtension\"");
        write_location(out, context.location);
        write_member::<Name, O>(out, ",\"name\":", name);
        out.text("}");
    }
}
