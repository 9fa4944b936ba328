//! Fragment spreads as the text of their AST JSON.
use crate::context::NodeContext;
use crate::text::WriteAstNode;
use crate::write::{write_directives, write_location, write_member};
use graphql_ast::ast::FragmentSpread;
use graphql_ast::name::Name;
use graphql_text::writers::Target;

impl WriteAstNode for FragmentSpread {
    fn write_ast_node<O: Target>(&self, out: &mut O, context: NodeContext) {
        let FragmentSpread {
            fragment_name,
            directives,
        } = self;
        write_directives(out, "{\"directives\":", directives);
        out.text(",\"kind\":\"FragmentSpread\"");
        write_location(out, context.location);
        write_member::<Name, O>(out, ",\"name\":", fragment_name);
        out.text("}");
    }
}
