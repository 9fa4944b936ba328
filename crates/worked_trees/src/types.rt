//! Definitions of schemas and types, and of what stands in them.
use crate::parts::{description, directives, located, node, type_of_list};
use crate::values::input_value_definition;
use graphql_ast::ast::{
    EnumTypeDefinition, EnumValueDefinition, FieldDefinition, InputObjectTypeDefinition,
    InterfaceTypeDefinition, ObjectTypeDefinition, OperationType, ScalarTypeDefinition,
    SchemaDefinition, UnionTypeDefinition,
};
use graphql_ast::name;
use std::alloc::{AllocError, Global};

/// `"D" f("D" i: [T!] = [1] @d(x: 1)): [T!] @d(x: 1)`
pub fn field_definition(alloc: Global) -> Result<FieldDefinition, AllocError> {
    Ok(FieldDefinition {
        description: description(alloc)?,
        name: located(name!(f)),
        arguments: vec![in alloc; node(alloc, input_value_definition(alloc)?)?]?,
        ty: type_of_list(alloc)?,
        directives: directives(alloc)?,
    })
}

/// `"D" V @d(x: 1)`
pub fn enum_value_definition(alloc: Global) -> Result<EnumValueDefinition, AllocError> {
    Ok(EnumValueDefinition {
        description: description(alloc)?,
        value: located(name!(V)),
        directives: directives(alloc)?,
    })
}

/// `"D" schema @d(x: 1) { query: Q mutation: M }`
pub fn schema_definition(alloc: Global) -> Result<SchemaDefinition, AllocError> {
    Ok(SchemaDefinition {
        description: description(alloc)?,
        directives: directives(alloc)?,
        root_operations: vec![in alloc;
            node(alloc, (OperationType::Query, located(name!(Q))))?,
            node(alloc, (OperationType::Mutation, located(name!(M))))?,
        ]?,
    })
}

/// `"D" scalar N @d(x: 1)`
pub fn scalar_type_definition(alloc: Global) -> Result<ScalarTypeDefinition, AllocError> {
    Ok(ScalarTypeDefinition {
        description: description(alloc)?,
        name: located(name!(N)),
        directives: directives(alloc)?,
    })
}

/// `"D" type N implements A & B @d(x: 1) { "D" f("D" i: [T!] = [1] @d(x: 1)): [T!] @d(x: 1) }`
pub fn object_type_definition(alloc: Global) -> Result<ObjectTypeDefinition, AllocError> {
    Ok(ObjectTypeDefinition {
        description: description(alloc)?,
        name: located(name!(N)),
        implements_interfaces: vec![in alloc; located(name!(A)), located(name!(B))]?,
        directives: directives(alloc)?,
        fields: vec![in alloc; node(alloc, field_definition(alloc)?)?]?,
    })
}

/// `"D" interface N implements A & B @d(x: 1) { "D" f("D" i: [T!] = [1] @d(x: 1)): [T!] @d(x: 1) }`
pub fn interface_type_definition(alloc: Global) -> Result<InterfaceTypeDefinition, AllocError> {
    Ok(InterfaceTypeDefinition {
        description: description(alloc)?,
        name: located(name!(N)),
        implements_interfaces: vec![in alloc; located(name!(A)), located(name!(B))]?,
        directives: directives(alloc)?,
        fields: vec![in alloc; node(alloc, field_definition(alloc)?)?]?,
    })
}

/// `"D" union N @d(x: 1) = A | B`
pub fn union_type_definition(alloc: Global) -> Result<UnionTypeDefinition, AllocError> {
    Ok(UnionTypeDefinition {
        description: description(alloc)?,
        name: located(name!(N)),
        directives: directives(alloc)?,
        members: vec![in alloc; located(name!(A)), located(name!(B))]?,
    })
}

/// `"D" enum N @d(x: 1) { "D" V @d(x: 1) }`
pub fn enum_type_definition(alloc: Global) -> Result<EnumTypeDefinition, AllocError> {
    Ok(EnumTypeDefinition {
        description: description(alloc)?,
        name: located(name!(N)),
        directives: directives(alloc)?,
        values: vec![in alloc; node(alloc, enum_value_definition(alloc)?)?]?,
    })
}

/// `"D" input N @d(x: 1) { "D" i: [T!] = [1] @d(x: 1) }`
pub fn input_object_type_definition(
    alloc: Global,
) -> Result<InputObjectTypeDefinition, AllocError> {
    Ok(InputObjectTypeDefinition {
        description: description(alloc)?,
        name: located(name!(N)),
        directives: directives(alloc)?,
        fields: vec![in alloc; node(alloc, input_value_definition(alloc)?)?]?,
    })
}
