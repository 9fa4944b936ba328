//! Schemas as the text of their AST JSON.
use crate::context::NodeContext;
use crate::text::WriteAstNode;
use crate::write::{write_directives, write_leading, write_list, write_location};
use graphql_ast::ast::{NamedType, OperationType, SchemaDefinition, SchemaExtension};
use graphql_base::node::{Node, NodeStr};
use graphql_text::writers::Target;

impl WriteAstNode for SchemaDefinition {
    fn write_ast_node<O: Target>(&self, out: &mut O, context: NodeContext) {
        let SchemaDefinition {
            description,
            directives,
            root_operations,
        } = self;
        out.text("{");
        write_leading::<NodeStr, O>(out, "\"description\":", description);
        write_directives(out, "\"directives\":", directives);
        out.text(",\"kind\":\"SchemaDefinition\"");
        write_location(out, context.location);
        write_list::<Node<(OperationType, NamedType)>, O>(
            out,
            ",\"operationTypes\":",
            root_operations,
        );
        out.text("}");
    }
}

impl WriteAstNode for SchemaExtension {
    fn write_ast_node<O: Target>(&self, out: &mut O, context: NodeContext) {
        let SchemaExtension {
            directives,
            root_operations,
        } = self;
        write_directives(out, "{\"directives\":", directives);
        out.text(",\"kind\":\"SchemaExtension\"");
        write_location(out, context.location);
        write_list::<Node<(OperationType, NamedType)>, O>(
            out,
            ",\"operationTypes\":",
            root_operations,
        );
        out.text("}");
    }
}
