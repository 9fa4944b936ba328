//! Directive locations as the text of their AST JSON: nodes of the kind `Name`.
use crate::context::NodeContext;
use crate::text::WriteAstNode;
use crate::value::write_text_node;
use graphql_ast::ast::DirectiveLocation;
use graphql_text::writers::Target;

impl WriteAstNode for DirectiveLocation {
    fn write_ast_node<O: Target>(&self, out: &mut O, context: NodeContext) {
        write_text_node(out, "{\"kind\":\"Name\"", context.location, self.name());
    }
}
