//! Definitions of fragments as the text of their AST JSON.
use crate::context::NodeContext;
use crate::form::{NamedTypeForm, SelectionSetForm};
use crate::text::WriteAstNode;
use crate::write::{write_directives, write_leading, write_location, write_member};
use graphql_ast::ast::FragmentDefinition;
use graphql_ast::name::Name;
use graphql_base::node::NodeStr;
use graphql_text::writers::Target;

impl WriteAstNode for FragmentDefinition {
    fn write_ast_node<O: Target>(&self, out: &mut O, context: NodeContext) {
        let FragmentDefinition {
            description,
            name,
            type_condition,
            directives,
            selection_set,
        } = self;
        out.text("{");
        write_leading::<NodeStr, O>(out, "\"description\":", description);
        write_directives(out, "\"directives\":", directives);
        out.text(",\"kind\":\"FragmentDefinition\"");
        write_location(out, context.location);
        write_member::<Name, O>(out, ",\"name\":", name);
        write_member::<SelectionSetForm, O>(out, ",\"selectionSet\":", selection_set);
        write_member::<NamedTypeForm, O>(out, ",\"typeCondition\":", type_condition);
        out.text("}");
    }
}
