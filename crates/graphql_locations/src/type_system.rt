//! The definitions and extensions of the type system without locations.
ghost use Rattle.graphql_values.specs.kinds.DirectiveDefinitions.{directive_definition_kind};
ghost use Rattle.graphql_values.specs.trees.DefinitionTrees.{directive_definition_tree};
ghost use Rattle.graphql_type_system.specs.kinds.EnumTypes.{enum_type_definition_kind, enum_type_extension_kind};
ghost use Rattle.graphql_type_system.specs.kinds.EnumValueDefinitions.{enum_value_definition_kind};
ghost use Rattle.graphql_type_system.specs.kinds.FieldDefinitions.{field_definition_kind};
ghost use Rattle.graphql_type_system.specs.kinds.InputObjectTypes.{input_object_type_definition_kind, input_object_type_extension_kind};
ghost use Rattle.graphql_type_system.specs.kinds.InterfaceTypes.{interface_type_definition_kind, interface_type_extension_kind};
ghost use Rattle.graphql_type_system.specs.kinds.ObjectTypes.{object_type_definition_kind, object_type_extension_kind};
ghost use Rattle.graphql_type_system.specs.kinds.ScalarTypes.{scalar_type_definition_kind, scalar_type_extension_kind};
ghost use Rattle.graphql_type_system.specs.kinds.Schemas.{RootOperationTree, schema_definition_kind, schema_extension_kind};
ghost use Rattle.graphql_type_system.specs.kinds.UnionTypes.{union_type_definition_kind, union_type_extension_kind};
ghost use Rattle.graphql_type_system.specs.trees.TypeSystemTrees.{enum_type_definition_tree, enum_type_extension_tree, enum_value_definition_tree, field_definition_tree, input_object_type_definition_tree, input_object_type_extension_tree, interface_type_definition_tree, interface_type_extension_tree, object_type_definition_tree, object_type_extension_tree, root_operation_tree, scalar_type_definition_tree, scalar_type_extension_tree, schema_definition_tree, schema_extension_tree, union_type_definition_tree, union_type_extension_tree};
ghost use Rattle.graphql_locations.specs.kinds.TypeSystem.{directive_definition_locations, enum_type_definition_locations, enum_type_extension_locations, enum_value_definition_locations, field_definition_locations, input_object_type_definition_locations, input_object_type_extension_locations, interface_type_definition_locations, interface_type_extension_locations, object_type_definition_locations, object_type_extension_locations, root_operation_locations, scalar_type_definition_locations, scalar_type_extension_locations, schema_definition_locations, schema_extension_locations, union_type_definition_locations, union_type_extension_locations};

use crate::located::Located;
use graphql_ast::ast::{
    DirectiveDefinition, EnumTypeDefinition, EnumTypeExtension, EnumValueDefinition,
    FieldDefinition, InputObjectTypeDefinition, InputObjectTypeExtension, InterfaceTypeDefinition,
    InterfaceTypeExtension, NamedType, ObjectTypeDefinition, ObjectTypeExtension, OperationType,
    ScalarTypeDefinition, ScalarTypeExtension, SchemaDefinition, SchemaExtension,
    UnionTypeDefinition, UnionTypeExtension,
};
use std::alloc::{AllocError, Global};

impl Located for FieldDefinition {
    ghost Tree = { field_definition_kind.Tree };

    ghost tree = { field_definition_tree };

    ghost locations = { field_definition_locations };

    fn without_locations(&self, alloc: Global) -> Result<FieldDefinition, AllocError> {
        Ok(FieldDefinition {
            description: self.description.without_locations(alloc)?,
            name: self.name.without_locations(alloc)?,
            arguments: self.arguments.without_locations(alloc)?,
            ty: self.ty.without_locations(alloc)?,
            directives: self.directives.without_locations(alloc)?,
        })
    }
}

impl Located for EnumValueDefinition {
    ghost Tree = { enum_value_definition_kind.Tree };

    ghost tree = { enum_value_definition_tree };

    ghost locations = { enum_value_definition_locations };

    fn without_locations(&self, alloc: Global) -> Result<EnumValueDefinition, AllocError> {
        Ok(EnumValueDefinition {
            description: self.description.without_locations(alloc)?,
            value: self.value.without_locations(alloc)?,
            directives: self.directives.without_locations(alloc)?,
        })
    }
}

impl Located for (OperationType, NamedType) {
    ghost Tree = { RootOperationTree };

    ghost tree = { root_operation_tree };

    ghost locations = { root_operation_locations };

    fn without_locations(&self, alloc: Global) -> Result<(OperationType, NamedType), AllocError> {
        Ok((self.0, self.1.without_locations(alloc)?))
    }
}

impl Located for DirectiveDefinition {
    ghost Tree = { directive_definition_kind.Tree };

    ghost tree = { directive_definition_tree };

    ghost locations = { directive_definition_locations };

    fn without_locations(&self, alloc: Global) -> Result<DirectiveDefinition, AllocError> {
        Ok(DirectiveDefinition {
            description: self.description.without_locations(alloc)?,
            name: self.name.without_locations(alloc)?,
            arguments: self.arguments.without_locations(alloc)?,
            repeatable: self.repeatable,
            locations: self.locations.clone()?,
        })
    }
}

impl Located for SchemaDefinition {
    ghost Tree = { schema_definition_kind.Tree };

    ghost tree = { schema_definition_tree };

    ghost locations = { schema_definition_locations };

    fn without_locations(&self, alloc: Global) -> Result<SchemaDefinition, AllocError> {
        Ok(SchemaDefinition {
            description: self.description.without_locations(alloc)?,
            directives: self.directives.without_locations(alloc)?,
            root_operations: self.root_operations.without_locations(alloc)?,
        })
    }
}

impl Located for ScalarTypeDefinition {
    ghost Tree = { scalar_type_definition_kind.Tree };

    ghost tree = { scalar_type_definition_tree };

    ghost locations = { scalar_type_definition_locations };

    fn without_locations(&self, alloc: Global) -> Result<ScalarTypeDefinition, AllocError> {
        Ok(ScalarTypeDefinition {
            description: self.description.without_locations(alloc)?,
            name: self.name.without_locations(alloc)?,
            directives: self.directives.without_locations(alloc)?,
        })
    }
}

impl Located for ObjectTypeDefinition {
    ghost Tree = { object_type_definition_kind.Tree };

    ghost tree = { object_type_definition_tree };

    ghost locations = { object_type_definition_locations };

    fn without_locations(&self, alloc: Global) -> Result<ObjectTypeDefinition, AllocError> {
        Ok(ObjectTypeDefinition {
            description: self.description.without_locations(alloc)?,
            name: self.name.without_locations(alloc)?,
            implements_interfaces: self.implements_interfaces.without_locations(alloc)?,
            directives: self.directives.without_locations(alloc)?,
            fields: self.fields.without_locations(alloc)?,
        })
    }
}

impl Located for InterfaceTypeDefinition {
    ghost Tree = { interface_type_definition_kind.Tree };

    ghost tree = { interface_type_definition_tree };

    ghost locations = { interface_type_definition_locations };

    fn without_locations(&self, alloc: Global) -> Result<InterfaceTypeDefinition, AllocError> {
        Ok(InterfaceTypeDefinition {
            description: self.description.without_locations(alloc)?,
            name: self.name.without_locations(alloc)?,
            implements_interfaces: self.implements_interfaces.without_locations(alloc)?,
            directives: self.directives.without_locations(alloc)?,
            fields: self.fields.without_locations(alloc)?,
        })
    }
}

impl Located for UnionTypeDefinition {
    ghost Tree = { union_type_definition_kind.Tree };

    ghost tree = { union_type_definition_tree };

    ghost locations = { union_type_definition_locations };

    fn without_locations(&self, alloc: Global) -> Result<UnionTypeDefinition, AllocError> {
        Ok(UnionTypeDefinition {
            description: self.description.without_locations(alloc)?,
            name: self.name.without_locations(alloc)?,
            directives: self.directives.without_locations(alloc)?,
            members: self.members.without_locations(alloc)?,
        })
    }
}

impl Located for EnumTypeDefinition {
    ghost Tree = { enum_type_definition_kind.Tree };

    ghost tree = { enum_type_definition_tree };

    ghost locations = { enum_type_definition_locations };

    fn without_locations(&self, alloc: Global) -> Result<EnumTypeDefinition, AllocError> {
        Ok(EnumTypeDefinition {
            description: self.description.without_locations(alloc)?,
            name: self.name.without_locations(alloc)?,
            directives: self.directives.without_locations(alloc)?,
            values: self.values.without_locations(alloc)?,
        })
    }
}

impl Located for InputObjectTypeDefinition {
    ghost Tree = { input_object_type_definition_kind.Tree };

    ghost tree = { input_object_type_definition_tree };

    ghost locations = { input_object_type_definition_locations };

    fn without_locations(&self, alloc: Global) -> Result<InputObjectTypeDefinition, AllocError> {
        Ok(InputObjectTypeDefinition {
            description: self.description.without_locations(alloc)?,
            name: self.name.without_locations(alloc)?,
            directives: self.directives.without_locations(alloc)?,
            fields: self.fields.without_locations(alloc)?,
        })
    }
}

impl Located for SchemaExtension {
    ghost Tree = { schema_extension_kind.Tree };

    ghost tree = { schema_extension_tree };

    ghost locations = { schema_extension_locations };

    fn without_locations(&self, alloc: Global) -> Result<SchemaExtension, AllocError> {
        Ok(SchemaExtension {
            directives: self.directives.without_locations(alloc)?,
            root_operations: self.root_operations.without_locations(alloc)?,
        })
    }
}

impl Located for ScalarTypeExtension {
    ghost Tree = { scalar_type_extension_kind.Tree };

    ghost tree = { scalar_type_extension_tree };

    ghost locations = { scalar_type_extension_locations };

    fn without_locations(&self, alloc: Global) -> Result<ScalarTypeExtension, AllocError> {
        Ok(ScalarTypeExtension {
            name: self.name.without_locations(alloc)?,
            directives: self.directives.without_locations(alloc)?,
        })
    }
}

impl Located for ObjectTypeExtension {
    ghost Tree = { object_type_extension_kind.Tree };

    ghost tree = { object_type_extension_tree };

    ghost locations = { object_type_extension_locations };

    fn without_locations(&self, alloc: Global) -> Result<ObjectTypeExtension, AllocError> {
        Ok(ObjectTypeExtension {
            name: self.name.without_locations(alloc)?,
            implements_interfaces: self.implements_interfaces.without_locations(alloc)?,
            directives: self.directives.without_locations(alloc)?,
            fields: self.fields.without_locations(alloc)?,
        })
    }
}

impl Located for InterfaceTypeExtension {
    ghost Tree = { interface_type_extension_kind.Tree };

    ghost tree = { interface_type_extension_tree };

    ghost locations = { interface_type_extension_locations };

    fn without_locations(&self, alloc: Global) -> Result<InterfaceTypeExtension, AllocError> {
        Ok(InterfaceTypeExtension {
            name: self.name.without_locations(alloc)?,
            implements_interfaces: self.implements_interfaces.without_locations(alloc)?,
            directives: self.directives.without_locations(alloc)?,
            fields: self.fields.without_locations(alloc)?,
        })
    }
}

impl Located for UnionTypeExtension {
    ghost Tree = { union_type_extension_kind.Tree };

    ghost tree = { union_type_extension_tree };

    ghost locations = { union_type_extension_locations };

    fn without_locations(&self, alloc: Global) -> Result<UnionTypeExtension, AllocError> {
        Ok(UnionTypeExtension {
            name: self.name.without_locations(alloc)?,
            directives: self.directives.without_locations(alloc)?,
            members: self.members.without_locations(alloc)?,
        })
    }
}

impl Located for EnumTypeExtension {
    ghost Tree = { enum_type_extension_kind.Tree };

    ghost tree = { enum_type_extension_tree };

    ghost locations = { enum_type_extension_locations };

    fn without_locations(&self, alloc: Global) -> Result<EnumTypeExtension, AllocError> {
        Ok(EnumTypeExtension {
            name: self.name.without_locations(alloc)?,
            directives: self.directives.without_locations(alloc)?,
            values: self.values.without_locations(alloc)?,
        })
    }
}

impl Located for InputObjectTypeExtension {
    ghost Tree = { input_object_type_extension_kind.Tree };

    ghost tree = { input_object_type_extension_tree };

    ghost locations = { input_object_type_extension_locations };

    fn without_locations(&self, alloc: Global) -> Result<InputObjectTypeExtension, AllocError> {
        Ok(InputObjectTypeExtension {
            name: self.name.without_locations(alloc)?,
            directives: self.directives.without_locations(alloc)?,
            fields: self.fields.without_locations(alloc)?,
        })
    }
}
