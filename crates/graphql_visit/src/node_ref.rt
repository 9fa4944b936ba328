//! The node that a visitor is given.

use graphql_ast::ast::{
    Argument, Directive, DirectiveDefinition, Document, EnumTypeDefinition, EnumTypeExtension,
    EnumValueDefinition, Field, FieldDefinition, FragmentDefinition, FragmentSpread,
    InlineFragment, InputObjectTypeDefinition, InputObjectTypeExtension, InputValueDefinition,
    InterfaceTypeDefinition, InterfaceTypeExtension, NamedType, ObjectTypeDefinition,
    ObjectTypeExtension, OperationDefinition, OperationType, ScalarTypeDefinition,
    ScalarTypeExtension, SchemaDefinition, SchemaExtension, Type, UnionTypeDefinition,
    UnionTypeExtension, Value, VariableDefinition,
};
use graphql_ast::{Name, Node};

/// A node of a document, of any kind.
///
/// Descriptions and names are no nodes of their own.
///
/// ```
/// match node {
///     NodeRef::Field(field) => println!(rt; "a field {}", field.name)?,
///     NodeRef::Argument(argument) => println!(rt; "an argument {}", argument.name)?,
///     _ => {}
/// }
/// ```
#[derive(Clone, Copy)]
pub enum NodeRef<'a> {
    /// A document.
    Document(&'a Document),
    /// An operation.
    OperationDefinition(&'a Node<OperationDefinition>),
    /// A fragment.
    FragmentDefinition(&'a Node<FragmentDefinition>),
    /// A directive.
    DirectiveDefinition(&'a Node<DirectiveDefinition>),
    /// A schema.
    SchemaDefinition(&'a Node<SchemaDefinition>),
    /// A scalar type.
    ScalarTypeDefinition(&'a Node<ScalarTypeDefinition>),
    /// An object type.
    ObjectTypeDefinition(&'a Node<ObjectTypeDefinition>),
    /// An interface type.
    InterfaceTypeDefinition(&'a Node<InterfaceTypeDefinition>),
    /// A union type.
    UnionTypeDefinition(&'a Node<UnionTypeDefinition>),
    /// An enum type.
    EnumTypeDefinition(&'a Node<EnumTypeDefinition>),
    /// An input object type.
    InputObjectTypeDefinition(&'a Node<InputObjectTypeDefinition>),
    /// What is added to the schema.
    SchemaExtension(&'a Node<SchemaExtension>),
    /// What is added to a scalar type.
    ScalarTypeExtension(&'a Node<ScalarTypeExtension>),
    /// What is added to an object type.
    ObjectTypeExtension(&'a Node<ObjectTypeExtension>),
    /// What is added to an interface type.
    InterfaceTypeExtension(&'a Node<InterfaceTypeExtension>),
    /// What is added to a union type.
    UnionTypeExtension(&'a Node<UnionTypeExtension>),
    /// What is added to an enum type.
    EnumTypeExtension(&'a Node<EnumTypeExtension>),
    /// What is added to an input object type.
    InputObjectTypeExtension(&'a Node<InputObjectTypeExtension>),
    /// The definition of a variable.
    VariableDefinition(&'a Node<VariableDefinition>),
    /// A field that is selected.
    Field(&'a Node<Field>),
    /// A fragment that is selected by its name.
    FragmentSpread(&'a Node<FragmentSpread>),
    /// A selection set of its own.
    InlineFragment(&'a Node<InlineFragment>),
    /// An argument.
    Argument(&'a Node<Argument>),
    /// A directive that is used.
    Directive(&'a Node<Directive>),
    /// A value.
    Value(&'a Node<Value>),
    /// A field of an object: its name and its value.
    ObjectField(&'a (Name, Node<Value>)),
    /// A type that is referred to.
    Type(&'a Type),
    /// The type that operations of a type begin at.
    RootOperation(&'a Node<(OperationType, NamedType)>),
    /// The definition of a field.
    FieldDefinition(&'a Node<FieldDefinition>),
    /// The definition of an argument, or of a field of an input object type.
    InputValueDefinition(&'a Node<InputValueDefinition>),
    /// The definition of an enum value.
    EnumValueDefinition(&'a Node<EnumValueDefinition>),
}
