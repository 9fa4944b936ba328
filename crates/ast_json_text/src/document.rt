//! Documents as the text of their AST JSON.
use crate::context::NodeContext;
use crate::text::WriteAstNode;
use crate::write::{write_list, write_location};
use graphql_ast::ast::{Definition, Document};
use graphql_text::writers::Target;

impl WriteAstNode for Document {
    fn write_ast_node<O: Target>(&self, out: &mut O, context: NodeContext) {
        let Document {
            sources: _,
            definitions,
        } = self;
        write_list::<Definition, O>(out, "{\"definitions\":", definitions);
        out.text(",\"kind\":\"Document\"");
        write_location(out, context.location);
        out.text("}");
    }
}
