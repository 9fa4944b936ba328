//! Names as the text of their AST JSON.
use crate::text::WriteAstJson;
use crate::value::write_text_node;
use graphql_ast::name::Name;
use graphql_text::writers::Target;

impl WriteAstJson for Name {
    /// The name, at its location if it has one.
    fn write_ast_json<O: Target>(&self, out: &mut O) {
        write_text_node(out, "{\"kind\":\"Name\"", self.location(), self.as_str());
    }
}
