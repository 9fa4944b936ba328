//! Definitions as the text of their AST JSON.
use crate::text::WriteAstJson;
use graphql_ast::ast::Definition;
use graphql_text::writers::Target;

impl WriteAstJson for Definition {
    /// The definition, at its location if it has one.
    fn write_ast_json<O: Target>(&self, out: &mut O) {
        match self {
            Self::OperationDefinition(node) => node.write_ast_json(out),
            Self::FragmentDefinition(node) => node.write_ast_json(out),
            Self::DirectiveDefinition(node) => node.write_ast_json(out),
            Self::SchemaDefinition(node) => node.write_ast_json(out),
            Self::ScalarTypeDefinition(node) => node.write_ast_json(out),
            Self::ObjectTypeDefinition(node) => node.write_ast_json(out),
            Self::InterfaceTypeDefinition(node) => node.write_ast_json(out),
            Self::UnionTypeDefinition(node) => node.write_ast_json(out),
            Self::EnumTypeDefinition(node) => node.write_ast_json(out),
            Self::InputObjectTypeDefinition(node) => node.write_ast_json(out),
            Self::SchemaExtension(node) => node.write_ast_json(out),
            Self::ScalarTypeExtension(node) => node.write_ast_json(out),
            Self::ObjectTypeExtension(node) => node.write_ast_json(out),
            Self::InterfaceTypeExtension(node) => node.write_ast_json(out),
            Self::UnionTypeExtension(node) => node.write_ast_json(out),
            Self::EnumTypeExtension(node) => node.write_ast_json(out),
            Self::InputObjectTypeExtension(node) => node.write_ast_json(out),
        }
    }
}
