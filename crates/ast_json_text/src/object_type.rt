//! Object types as the text of their AST JSON.
use crate::context::NodeContext;
use crate::form::NamedTypeForm;
use crate::text::WriteAstNode;
use crate::write::{write_directives, write_leading, write_list, write_location, write_member};
use graphql_ast::ast::{FieldDefinition, ObjectTypeDefinition, ObjectTypeExtension};
use graphql_ast::name::Name;
use graphql_base::node::{Node, NodeStr};
use graphql_text::writers::Target;

impl WriteAstNode for ObjectTypeDefinition {
    fn write_ast_node<O: Target>(&self, out: &mut O, context: NodeContext) {
        let ObjectTypeDefinition {
            description,
            name,
            implements_interfaces,
            directives,
            fields,
        } = self;
        out.text("{");
        write_leading::<NodeStr, O>(out, "\"description\":", description);
        write_directives(out, "\"directives\":", directives);
        write_list::<Node<FieldDefinition>, O>(out, ",\"fields\":", fields);
        write_list::<NamedTypeForm, O>(out, ",\"interfaces\":", implements_interfaces);
        out.text(",\"kind\":\"ObjectTypeDefinition\"");
        write_location(out, context.location);
        write_member::<Name, O>(out, ",\"name\":", name);
        out.text("}");
    }
}

impl WriteAstNode for ObjectTypeExtension {
    fn write_ast_node<O: Target>(&self, out: &mut O, context: NodeContext) {
        let ObjectTypeExtension {
            name,
            implements_interfaces,
            directives,
            fields,
        } = self;
        write_directives(out, "{\"directives\":", directives);
        write_list::<Node<FieldDefinition>, O>(out, ",\"fields\":", fields);
        write_list::<NamedTypeForm, O>(out, ",\"interfaces\":", implements_interfaces);
        out.text(",\"kind\":\"ObjectTypeExtension\"");
        write_location(out, context.location);
        write_member::<Name, O>(out, ",\"name\":", name);
        out.text("}");
    }
}
