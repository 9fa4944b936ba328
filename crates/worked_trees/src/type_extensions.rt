//! Extensions of schemas and types.
use crate::parts::{directives, located, node};
use crate::types::{enum_value_definition, field_definition};
use crate::values::input_value_definition;
use graphql_ast::ast::{
    EnumTypeExtension, InputObjectTypeExtension, InterfaceTypeExtension, ObjectTypeExtension,
    OperationType, ScalarTypeExtension, SchemaExtension, UnionTypeExtension,
};
use graphql_ast::name;
use std::alloc::{AllocError, Global};

/// `extend schema @d(x: 1) { subscription: S }`
pub fn schema_extension(alloc: Global) -> Result<SchemaExtension, AllocError> {
    Ok(SchemaExtension {
        directives: directives(alloc)?,
        root_operations: vec![in alloc;
            node(alloc, (OperationType::Subscription, located(name!(S))))?,
        ]?,
    })
}

/// `extend scalar N @d(x: 1)`
pub fn scalar_type_extension(alloc: Global) -> Result<ScalarTypeExtension, AllocError> {
    Ok(ScalarTypeExtension {
        name: located(name!(N)),
        directives: directives(alloc)?,
    })
}

/// `extend type N implements A & B @d(x: 1) { "D" f("D" i: [T!] = [1] @d(x: 1)): [T!] @d(x: 1) }`
pub fn object_type_extension(alloc: Global) -> Result<ObjectTypeExtension, AllocError> {
    Ok(ObjectTypeExtension {
        name: located(name!(N)),
        implements_interfaces: vec![in alloc; located(name!(A)), located(name!(B))]?,
        directives: directives(alloc)?,
        fields: vec![in alloc; node(alloc, field_definition(alloc)?)?]?,
    })
}

/// `extend interface N implements A & B @d(x: 1) { "D" f("D" i: [T!] = [1] @d(x: 1)): [T!] @d(x: 1) }`
pub fn interface_type_extension(alloc: Global) -> Result<InterfaceTypeExtension, AllocError> {
    Ok(InterfaceTypeExtension {
        name: located(name!(N)),
        implements_interfaces: vec![in alloc; located(name!(A)), located(name!(B))]?,
        directives: directives(alloc)?,
        fields: vec![in alloc; node(alloc, field_definition(alloc)?)?]?,
    })
}

/// `extend union N @d(x: 1) = A | B`
pub fn union_type_extension(alloc: Global) -> Result<UnionTypeExtension, AllocError> {
    Ok(UnionTypeExtension {
        name: located(name!(N)),
        directives: directives(alloc)?,
        members: vec![in alloc; located(name!(A)), located(name!(B))]?,
    })
}

/// `extend enum N @d(x: 1) { "D" V @d(x: 1) }`
pub fn enum_type_extension(alloc: Global) -> Result<EnumTypeExtension, AllocError> {
    Ok(EnumTypeExtension {
        name: located(name!(N)),
        directives: directives(alloc)?,
        values: vec![in alloc; node(alloc, enum_value_definition(alloc)?)?]?,
    })
}

/// `extend input N @d(x: 1) { "D" i: [T!] = [1] @d(x: 1) }`
pub fn input_object_type_extension(alloc: Global) -> Result<InputObjectTypeExtension, AllocError> {
    Ok(InputObjectTypeExtension {
        name: located(name!(N)),
        directives: directives(alloc)?,
        fields: vec![in alloc; node(alloc, input_value_definition(alloc)?)?]?,
    })
}
