//! Definitions of directives as the text of their AST JSON.
use crate::context::NodeContext;
use crate::text::WriteAstNode;
use crate::write::{
    write_boolean, write_list, write_location, write_member, write_optional, write_parameters,
};
use graphql_ast::ast::{DirectiveDefinition, DirectiveLocation};
use graphql_ast::name::Name;
use graphql_base::node::NodeStr;
use graphql_text::writers::Target;
use graphql_values::writers::some_want_lines;

impl WriteAstNode for DirectiveDefinition {
    fn write_ast_node<O: Target>(&self, out: &mut O, context: NodeContext) {
        let DirectiveDefinition {
            description,
            name,
            arguments,
            repeatable,
            locations,
        } = self;
        let over_lines = some_want_lines(arguments);
        write_parameters(out, "{\"arguments\":", arguments, over_lines);
        write_optional::<NodeStr, O>(out, ",\"description\":", description);
        out.text(",\"kind\":\"DirectiveDefinition\"");
        write_location(out, context.location);
        write_list::<DirectiveLocation, O>(out, ",\"locations\":", locations);
        write_member::<Name, O>(out, ",\"name\":", name);
        write_boolean(out, ",\"repeatable\":", *repeatable);
        out.text("}");
    }
}
