//! What holds of definitions and extensions as they are cloned.
ghost use Rattle.graphql_text.specs.trees.Comparisons.{◌&◌, ClonesKeep};
ghost use Rattle.graphql_type_system.specs.trees.TypeSystemTrees.{enum_type_definition_tree, enum_type_extension_tree, enum_value_definition_tree, field_definition_tree, input_object_type_definition_tree, input_object_type_extension_tree, interface_type_definition_tree, interface_type_extension_tree, object_type_definition_tree, object_type_extension_tree, scalar_type_definition_tree, scalar_type_extension_tree, schema_definition_tree, schema_extension_tree, union_type_definition_tree, union_type_extension_tree};
ghost use Rattle.graphql_values.specs.trees.TypeTrees.{type_wrapping};

use crate::enum_type::{EnumTypeDefinition, EnumTypeExtension};
use crate::enum_value_definition::EnumValueDefinition;
use crate::field_definition::FieldDefinition;
use crate::input_object_type::{InputObjectTypeDefinition, InputObjectTypeExtension};
use crate::interface_type::{InterfaceTypeDefinition, InterfaceTypeExtension};
use crate::object_type::{ObjectTypeDefinition, ObjectTypeExtension};
use crate::scalar_type::{ScalarTypeDefinition, ScalarTypeExtension};
use crate::schema::{SchemaDefinition, SchemaExtension};
use crate::union_type::{UnionTypeDefinition, UnionTypeExtension};

/// A clone has the same tree, and the very names, nodes and other parts, at the same locations.
pub fn clones_are_the_same()
    ensures schema_definitions { ClonesKeep ⟦<SchemaDefinition as Clone>⟧.is_clone
        (λ it. it.description & it.directives.0.items & it.root_operations.items
        & schema_definition_tree it) }
    ensures scalar_type_definitions { ClonesKeep ⟦<ScalarTypeDefinition as Clone>⟧.is_clone
        (λ it. it.description & it.name & it.directives.0.items & scalar_type_definition_tree it) }
    ensures object_type_definitions { ClonesKeep ⟦<ObjectTypeDefinition as Clone>⟧.is_clone
        (λ it. it.description & it.name & it.implements_interfaces.items & it.directives.0.items
        & it.fields.items & object_type_definition_tree it) }
    ensures interface_type_definitions { ClonesKeep ⟦<InterfaceTypeDefinition as Clone>⟧.is_clone
        (λ it. it.description & it.name & it.implements_interfaces.items & it.directives.0.items
        & it.fields.items & interface_type_definition_tree it) }
    ensures union_type_definitions { ClonesKeep ⟦<UnionTypeDefinition as Clone>⟧.is_clone
        (λ it. it.description & it.name & it.directives.0.items & it.members.items
        & union_type_definition_tree it) }
    ensures enum_type_definitions { ClonesKeep ⟦<EnumTypeDefinition as Clone>⟧.is_clone
        (λ it. it.description & it.name & it.directives.0.items & it.values.items
        & enum_type_definition_tree it) }
    ensures input_object_definitions { ClonesKeep ⟦<InputObjectTypeDefinition as Clone>⟧.is_clone
        (λ it. it.description & it.name & it.directives.0.items & it.fields.items
        & input_object_type_definition_tree it) }
    ensures field_definitions { ClonesKeep ⟦<FieldDefinition as Clone>⟧.is_clone
        (λ it. it.description & it.name & it.arguments.items & type_wrapping it.ty
        & it.directives.0.items & field_definition_tree it) }
    ensures enum_value_definitions { ClonesKeep ⟦<EnumValueDefinition as Clone>⟧.is_clone
        (λ it. it.description & it.value & it.directives.0.items & enum_value_definition_tree it) }
    ensures schema_extensions { ClonesKeep ⟦<SchemaExtension as Clone>⟧.is_clone
        (λ it. it.directives.0.items & it.root_operations.items & schema_extension_tree it) }
    ensures scalar_type_extensions { ClonesKeep ⟦<ScalarTypeExtension as Clone>⟧.is_clone
        (λ it. it.name & it.directives.0.items & scalar_type_extension_tree it) }
    ensures object_type_extensions { ClonesKeep ⟦<ObjectTypeExtension as Clone>⟧.is_clone
        (λ it. it.name & it.implements_interfaces.items & it.directives.0.items & it.fields.items
        & object_type_extension_tree it) }
    ensures interface_type_extensions { ClonesKeep ⟦<InterfaceTypeExtension as Clone>⟧.is_clone
        (λ it. it.name & it.implements_interfaces.items & it.directives.0.items & it.fields.items
        & interface_type_extension_tree it) }
    ensures union_type_extensions { ClonesKeep ⟦<UnionTypeExtension as Clone>⟧.is_clone
        (λ it. it.name & it.directives.0.items & it.members.items
        & union_type_extension_tree it) }
    ensures enum_type_extensions { ClonesKeep ⟦<EnumTypeExtension as Clone>⟧.is_clone (λ it. it.name
        & it.directives.0.items & it.values.items & enum_type_extension_tree it) }
    ensures input_object_extensions { ClonesKeep ⟦<InputObjectTypeExtension as Clone>⟧.is_clone
        (λ it. it.name & it.directives.0.items & it.fields.items
        & input_object_type_extension_tree it) }
{}
