//! The kinds of nodes.
use graphql_visit::NodeRef;

/// The name of the kind of a node.
pub fn kind_name(node: NodeRef<'_>) -> &'static str {
    match node {
        NodeRef::Document(_) => "Document",
        NodeRef::OperationDefinition(_) => "OperationDefinition",
        NodeRef::FragmentDefinition(_) => "FragmentDefinition",
        NodeRef::DirectiveDefinition(_) => "DirectiveDefinition",
        NodeRef::SchemaDefinition(_) => "SchemaDefinition",
        NodeRef::ScalarTypeDefinition(_) => "ScalarTypeDefinition",
        NodeRef::ObjectTypeDefinition(_) => "ObjectTypeDefinition",
        NodeRef::InterfaceTypeDefinition(_) => "InterfaceTypeDefinition",
        NodeRef::UnionTypeDefinition(_) => "UnionTypeDefinition",
        NodeRef::EnumTypeDefinition(_) => "EnumTypeDefinition",
        NodeRef::InputObjectTypeDefinition(_) => "InputObjectTypeDefinition",
        NodeRef::SchemaExtension(_) => "SchemaExtension",
        NodeRef::ScalarTypeExtension(_) => "ScalarTypeExtension",
        NodeRef::ObjectTypeExtension(_) => "ObjectTypeExtension",
        NodeRef::InterfaceTypeExtension(_) => "InterfaceTypeExtension",
        NodeRef::UnionTypeExtension(_) => "UnionTypeExtension",
        NodeRef::EnumTypeExtension(_) => "EnumTypeExtension",
        NodeRef::InputObjectTypeExtension(_) => "InputObjectTypeExtension",
        NodeRef::VariableDefinition(_) => "VariableDefinition",
        NodeRef::Field(_) => "Field",
        NodeRef::FragmentSpread(_) => "FragmentSpread",
        NodeRef::InlineFragment(_) => "InlineFragment",
        NodeRef::Argument(_) => "Argument",
        NodeRef::Directive(_) => "Directive",
        NodeRef::Value(_) => "Value",
        NodeRef::ObjectField(_) => "ObjectField",
        NodeRef::Type(_) => "Type",
        NodeRef::RootOperation(_) => "RootOperation",
        NodeRef::FieldDefinition(_) => "FieldDefinition",
        NodeRef::InputValueDefinition(_) => "InputValueDefinition",
        NodeRef::EnumValueDefinition(_) => "EnumValueDefinition",
    }
}
