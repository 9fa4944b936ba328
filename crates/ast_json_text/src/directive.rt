//! Directives as the text of their AST JSON.
use crate::context::NodeContext;
use crate::text::WriteAstNode;
use crate::write::{write_list, write_location, write_member};
use graphql_ast::ast::{Argument, Directive};
use graphql_ast::name::Name;
use graphql_base::node::Node;
use graphql_text::writers::Target;

impl WriteAstNode for Directive {
    fn write_ast_node<O: Target>(&self, out: &mut O, context: NodeContext) {
        let Directive { name, arguments } = self;
        write_list::<Node<Argument>, O>(out, "{\"arguments\":", arguments);
        out.text(",\"kind\":\"Directive\"");
        write_location(out, context.location);
        write_member::<Name, O>(out, ",\"name\":", name);
        out.text("}");
    }
}
