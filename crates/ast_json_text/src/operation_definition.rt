//! Operations as the text of their AST JSON.
use crate::context::NodeContext;
use crate::form::SelectionSetForm;
use crate::text::WriteAstNode;
use crate::write::{
    write_directives, write_leading, write_location, write_member, write_optional,
    write_parameters, write_text,
};
use graphql_ast::ast::{OperationDefinition, VariableDefinition};
use graphql_ast::name::Name;
use graphql_base::node::{Node, NodeStr};
use graphql_text::writers::Target;

/// Whether a variable has a description, so that the default layout prints variables over lines.
fn some_are_described(variables: &[Node<VariableDefinition>]) -> bool {
    variables
        .iter()
        .any(|variable| variable.description.is_some())
}

impl WriteAstNode for OperationDefinition {
    fn write_ast_node<O: Target>(&self, out: &mut O, context: NodeContext) {
        let OperationDefinition {
            description,
            operation_type,
            name,
            variables,
            directives,
            selection_set,
        } = self;
        out.text("{");
        write_leading::<NodeStr, O>(out, "\"description\":", description);
        write_directives(out, "\"directives\":", directives);
        out.text(",\"kind\":\"OperationDefinition\"");
        write_location(out, context.location);
        write_optional::<Name, O>(out, ",\"name\":", name);
        write_text(out, ",\"operation\":", operation_type.name());
        write_member::<SelectionSetForm, O>(out, ",\"selectionSet\":", selection_set);
        let over_lines = some_are_described(variables);
        write_parameters(out, ",\"variableDefinitions\":", variables, over_lines);
        out.text("}");
    }
}
