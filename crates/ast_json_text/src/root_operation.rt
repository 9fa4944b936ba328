//! Root operations of schemas as the text of their AST JSON: nodes of the kind `OperationTypeDefinition`.
use crate::context::NodeContext;
use crate::form::NamedTypeForm;
use crate::text::WriteAstNode;
use crate::write::{write_location, write_member, write_text};
use graphql_ast::ast::{NamedType, OperationType};
use graphql_text::writers::Target;

impl WriteAstNode for (OperationType, NamedType) {
    fn write_ast_node<O: Target>(&self, out: &mut O, context: NodeContext) {
        out.text("{\"kind\":\"OperationTypeDefinition\"");
        write_location(out, context.location);
        write_text(out, ",\"operation\":", self.0.name());
        write_member::<NamedTypeForm, O>(out, ",\"type\":", &self.1);
        out.text("}");
    }
}
