//! Arguments as the text of their AST JSON.
use crate::context::NodeContext;
use crate::form::OnOneLine;
use crate::text::WriteAstNode;
use crate::write::{write_location, write_member};
use graphql_ast::ast::{Argument, Value};
use graphql_ast::name::Name;
use graphql_text::writers::Target;

impl WriteAstNode for Argument {
    fn write_ast_node<O: Target>(&self, out: &mut O, context: NodeContext) {
        let Argument { name, value } = self;
        out.text("{\"kind\":\"Argument\"");
        write_location(out, context.location);
        write_member::<Name, O>(out, ",\"name\":", name);
        write_member::<OnOneLine<Value>, O>(out, ",\"value\":", value);
        out.text("}");
    }
}
