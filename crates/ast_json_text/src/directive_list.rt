//! Lists of directives as the text of their AST JSON: arrays.
use crate::text::WriteAstJson;
use crate::write::write_array;
use graphql_ast::ast::{Directive, DirectiveList};
use graphql_base::node::Node;
use graphql_text::writers::Target;

impl WriteAstJson for DirectiveList {
    fn write_ast_json<O: Target>(&self, out: &mut O) {
        write_array::<Node<Directive>, O>(out, self.0.as_slice());
    }
}
