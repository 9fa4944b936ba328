//! What holds of the definitions and the extensions of the type system as they are printed and read.
//!
//! Each function does nothing: its contract is the law, with one clause a kind.
ghost use Rattle.std.specs.Prelude.{[], ◌∷◌, codes};
ghost use Rattle.graphql_text.specs.grammar.Forms.{a_keyword, marks};
ghost use Rattle.graphql_text.specs.kinds.PrintedKinds.{IsPrintedKind, no_types};
ghost use Rattle.graphql_text.specs.lexical.Tokens.{amp, at, bang, bar, equals, lbrace, lparen};
ghost use Rattle.graphql_type_system.specs.kinds.EnumTypes.{enum_type_definition_kind, enum_type_extension_kind};
ghost use Rattle.graphql_type_system.specs.kinds.EnumValueDefinitions.{enum_value_definition_kind};
ghost use Rattle.graphql_type_system.specs.kinds.FieldDefinitions.{field_definition_kind, field_definition_list_depth};
ghost use Rattle.graphql_type_system.specs.kinds.ImplementingTypes.{fields_list_depth};
ghost use Rattle.graphql_type_system.specs.kinds.InputObjectTypes.{input_object_type_definition_kind, input_object_type_extension_kind};
ghost use Rattle.graphql_type_system.specs.kinds.InterfaceTypes.{interface_type_definition_kind, interface_type_extension_kind};
ghost use Rattle.graphql_type_system.specs.kinds.ObjectTypes.{object_type_definition_kind, object_type_extension_kind};
ghost use Rattle.graphql_type_system.specs.kinds.ScalarTypes.{scalar_type_definition_kind, scalar_type_extension_kind};
ghost use Rattle.graphql_type_system.specs.kinds.Schemas.{schema_definition_kind, schema_extension_kind};
ghost use Rattle.graphql_type_system.specs.kinds.UnionTypes.{union_type_definition_kind, union_type_extension_kind};
ghost use Rattle.graphql_type_system.specs.trees.TypeSystemTrees.{enum_type_definition_tree, enum_type_extension_tree, enum_value_definition_tree, field_definition_tree, input_object_type_definition_tree, input_object_type_extension_tree, interface_type_definition_tree, interface_type_extension_tree, object_type_definition_tree, object_type_extension_tree, scalar_type_definition_tree, scalar_type_extension_tree, schema_definition_tree, schema_extension_tree, union_type_definition_tree, union_type_extension_tree};
ghost use Rattle.graphql_values.specs.kinds.ArgumentsDefinitions.{arguments_list_depth};

mod clones;
mod layouts;
mod readings;

use crate::enum_type::{EnumTypeDefinition, EnumTypeExtension};
use crate::enum_value_definition::EnumValueDefinition;
use crate::field_definition::FieldDefinition;
use crate::input_object_type::{InputObjectTypeDefinition, InputObjectTypeExtension};
use crate::interface_type::{InterfaceTypeDefinition, InterfaceTypeExtension};
pub use crate::laws::clones::clones_are_the_same;
pub use crate::laws::layouts::worked_layouts;
pub use crate::laws::readings::{
    additions_are_read, definitions_are_read, refused_definitions, refused_extensions,
};
use crate::object_type::{ObjectTypeDefinition, ObjectTypeExtension};
use crate::scalar_type::{ScalarTypeDefinition, ScalarTypeExtension};
use crate::schema::{SchemaDefinition, SchemaExtension};
use crate::union_type::{UnionTypeDefinition, UnionTypeExtension};
use graphql_text::engine::Printed;

/// Each of these types has the kind that its clause names, and all that `IsPrintedKind` says of it: what is printed and
/// what is displayed of it is read back, and it is compared and hashed by its tree.
///
/// Each is read in one way: a schema definition whatever follows it; a scalar type, an enum type, an input object type,
/// an enum value and a schema extension before anything but `@` and `(`; a field before anything but `!`, `@` and `(`; a
/// union type before anything but `@`, `(`, `=` and `|`; an object type and an interface type before anything but
/// `implements`, `&`, `@` and `(`. Where braces are left out, the form itself says that no `{` follows, and the printed
/// words and strings derive the tree before anything but `{`.
pub fn printed_kinds()
    ensures schema_definitions { ⟦<SchemaDefinition as Printed>⟧.has_kind schema_definition_kind
        schema_definition_tree no_types [] [] }
    ensures scalar_type_definitions { ⟦<ScalarTypeDefinition as Printed>⟧.has_kind
        scalar_type_definition_kind scalar_type_definition_tree no_types (marks (at ∷ lparen ∷ []))
        [] }
    ensures object_type_definitions { ⟦<ObjectTypeDefinition as Printed>⟧.has_kind
        object_type_definition_kind object_type_definition_tree
        (λ type. fields_list_depth type.body.fields)
        (a_keyword (codes "implements") ∷ marks (amp ∷ at ∷ lparen ∷ [])) (marks (lbrace ∷ [])) }
    ensures interface_type_definitions { ⟦<InterfaceTypeDefinition as Printed>⟧.has_kind
        interface_type_definition_kind interface_type_definition_tree
        (λ type. fields_list_depth type.body.fields)
        (a_keyword (codes "implements") ∷ marks (amp ∷ at ∷ lparen ∷ [])) (marks (lbrace ∷ [])) }
    ensures union_type_definitions { ⟦<UnionTypeDefinition as Printed>⟧.has_kind
        union_type_definition_kind union_type_definition_tree no_types
        (marks (at ∷ lparen ∷ equals ∷ bar ∷ [])) [] }
    ensures enum_type_definitions { ⟦<EnumTypeDefinition as Printed>⟧.has_kind
        enum_type_definition_kind enum_type_definition_tree no_types (marks (at ∷ lparen ∷ []))
        (marks (lbrace ∷ [])) }
    ensures input_object_type_definitions { ⟦<InputObjectTypeDefinition as Printed>⟧.has_kind
        input_object_type_definition_kind input_object_type_definition_tree
        (λ type. arguments_list_depth type.body.members) (marks (at ∷ lparen ∷ []))
        (marks (lbrace ∷ [])) }
    ensures field_definitions { ⟦<FieldDefinition as Printed>⟧.has_kind field_definition_kind
        field_definition_tree (λ field. field_definition_list_depth field.body)
        (marks (bang ∷ at ∷ lparen ∷ [])) [] }
    ensures enum_value_definitions { ⟦<EnumValueDefinition as Printed>⟧.has_kind
        enum_value_definition_kind enum_value_definition_tree no_types (marks (at ∷ lparen ∷ []))
        [] }
    ensures schema_extensions { ⟦<SchemaExtension as Printed>⟧.has_kind schema_extension_kind
        schema_extension_tree no_types (marks (at ∷ lparen ∷ [])) (marks (lbrace ∷ [])) }
    ensures scalar_type_extensions { ⟦<ScalarTypeExtension as Printed>⟧.has_kind
        scalar_type_extension_kind scalar_type_extension_tree no_types (marks (at ∷ lparen ∷ []))
        [] }
    ensures object_type_extensions { ⟦<ObjectTypeExtension as Printed>⟧.has_kind
        object_type_extension_kind object_type_extension_tree
        (λ type. fields_list_depth type.fields)
        (a_keyword (codes "implements") ∷ marks (amp ∷ at ∷ lparen ∷ [])) (marks (lbrace ∷ [])) }
    ensures interface_type_extensions { ⟦<InterfaceTypeExtension as Printed>⟧.has_kind
        interface_type_extension_kind interface_type_extension_tree
        (λ type. fields_list_depth type.fields)
        (a_keyword (codes "implements") ∷ marks (amp ∷ at ∷ lparen ∷ [])) (marks (lbrace ∷ [])) }
    ensures union_type_extensions { ⟦<UnionTypeExtension as Printed>⟧.has_kind
        union_type_extension_kind union_type_extension_tree no_types
        (marks (at ∷ lparen ∷ equals ∷ bar ∷ [])) [] }
    ensures enum_type_extensions { ⟦<EnumTypeExtension as Printed>⟧.has_kind
        enum_type_extension_kind enum_type_extension_tree no_types (marks (at ∷ lparen ∷ []))
        (marks (lbrace ∷ [])) }
    ensures input_object_type_extensions { ⟦<InputObjectTypeExtension as Printed>⟧.has_kind
        input_object_type_extension_kind input_object_type_extension_tree
        (λ type. arguments_list_depth type.members) (marks (at ∷ lparen ∷ []))
        (marks (lbrace ∷ [])) }
{}
