//! The theorem for all that is printed, with one clause a kind.
ghost use Rattle.std.specs.Prelude.{[], ◌∷◌, codes};
ghost use Rattle.graphql_text.specs.grammar.Forms.{a_keyword, a_name, a_punctuator, a_string_value, marks};
ghost use Rattle.graphql_text.specs.parts.Greatest.{greatest};
ghost use Rattle.graphql_text.specs.kinds.PrintedKinds.{IsPrintedKind, no_types};
ghost use Rattle.graphql_text.specs.lexical.Tokens.{amp, at, bang, bar, colon, equals, lbrace, lparen};
ghost use Rattle.graphql_values.specs.kinds.ArgumentsDefinitions.{arguments_list_depth};
ghost use Rattle.graphql_values.specs.trees.DefinitionTrees.{directive_definition_tree, input_value_definition_tree};
ghost use Rattle.graphql_values.specs.kinds.DirectiveDefinitions.{directive_definition_kind};
ghost use Rattle.graphql_values.specs.trees.DirectiveTrees.{directive_tree, directive_trees};
ghost use Rattle.graphql_values.specs.kinds.Directives.{directive_kind, directives_kind};
ghost use Rattle.graphql_values.specs.kinds.InputValueDefinitions.{input_value_definition_kind};
ghost use Rattle.graphql_values.specs.kinds.TypeReferences.{list_depth};
ghost use Rattle.graphql_values.specs.trees.ValueTrees.{value_tree};
ghost use Rattle.graphql_values.specs.kinds.Values.{value_kind};
ghost use Rattle.graphql_executable.specs.trees.ExecutableTrees.{field_tree, fragment_definition_tree, fragment_spread_tree, inline_fragment_tree, operation_definition_tree, selection_tree, variable_definition_tree};
ghost use Rattle.graphql_executable.specs.kinds.Fields.{field_kind};
ghost use Rattle.graphql_executable.specs.kinds.FragmentDefinitions.{fragment_definition_kind};
ghost use Rattle.graphql_executable.specs.kinds.FragmentSpreads.{fragment_spread_kind};
ghost use Rattle.graphql_executable.specs.kinds.InlineFragments.{inline_fragment_kind};
ghost use Rattle.graphql_executable.specs.kinds.OperationDefinitions.{operation_definition_kind};
ghost use Rattle.graphql_executable.specs.kinds.Selections.{selection_kind};
ghost use Rattle.graphql_executable.specs.kinds.VariableDefinitions.{variable_definition_kind, variables_list_depth};
ghost use Rattle.graphql_type_system.specs.kinds.EnumTypes.{enum_type_definition_kind, enum_type_extension_kind};
ghost use Rattle.graphql_type_system.specs.kinds.EnumValueDefinitions.{enum_value_definition_kind};
ghost use Rattle.graphql_type_system.specs.kinds.FieldDefinitions.{field_definition_kind, field_definition_list_depth};
ghost use Rattle.graphql_type_system.specs.kinds.ImplementingTypes.{fields_list_depth};
ghost use Rattle.graphql_type_system.specs.kinds.InputObjectTypes.{input_object_type_definition_kind, input_object_type_extension_kind};
ghost use Rattle.graphql_type_system.specs.kinds.InterfaceTypes.{interface_type_definition_kind, interface_type_extension_kind};
ghost use Rattle.graphql_type_system.specs.kinds.ObjectTypes.{object_type_definition_kind, object_type_extension_kind};
ghost use Rattle.graphql_type_system.specs.kinds.ScalarTypes.{scalar_type_definition_kind, scalar_type_extension_kind};
ghost use Rattle.graphql_type_system.specs.kinds.Schemas.{schema_definition_kind, schema_extension_kind};
ghost use Rattle.graphql_type_system.specs.trees.TypeSystemTrees.{enum_type_definition_tree, enum_type_extension_tree, enum_value_definition_tree, field_definition_tree, input_object_type_definition_tree, input_object_type_extension_tree, interface_type_definition_tree, interface_type_extension_tree, object_type_definition_tree, object_type_extension_tree, scalar_type_definition_tree, scalar_type_extension_tree, schema_definition_tree, schema_extension_tree, union_type_definition_tree, union_type_extension_tree};
ghost use Rattle.graphql_type_system.specs.kinds.UnionTypes.{union_type_definition_kind, union_type_extension_kind};
ghost use Rattle.graphql_ast.specs.AstStacks.{definition_list_depth};
ghost use Rattle.graphql_ast.specs.AstTrees.{definition_tree, document_tree};
ghost use Rattle.graphql_ast.specs.Definitions.{definition_kind};
ghost use Rattle.graphql_ast.specs.Documents.{document_kind};

use crate::ast::{
    Definition, Directive, DirectiveDefinition, DirectiveList, Document, EnumTypeDefinition,
    EnumTypeExtension, EnumValueDefinition, Field, FieldDefinition, FragmentDefinition,
    FragmentSpread, InlineFragment, InputObjectTypeDefinition, InputObjectTypeExtension,
    InputValueDefinition, InterfaceTypeDefinition, InterfaceTypeExtension, ObjectTypeDefinition,
    ObjectTypeExtension, OperationDefinition, ScalarTypeDefinition, ScalarTypeExtension,
    SchemaDefinition, SchemaExtension, Selection, UnionTypeDefinition, UnionTypeExtension, Value,
    VariableDefinition,
};
use graphql_text::engine::Printed;

/// Each of the thirty types that are printed has the kind that its clause names, and all that `IsPrintedKind` says of it:
/// a tree that obeys the side conditions, printed on one line or under a prefix of spaces and tabs, is read back as that
/// tree, and as no other; so is what is displayed of it; and it is compared and hashed by its tree.
///
/// A definition is read in one way before anything but what may go on with one of the seventeen: `implements`, `&`, `@`,
/// `(`, `=` and `|`; a document before anything but these and what a definition begins with. Where braces are left out,
/// the form itself says that no `{` follows.
pub fn thirty_kinds_are_read_back()
    ensures values { ⟦<Value as Printed>⟧.has_kind value_kind value_tree no_types [] [] }
    ensures directives { ⟦<Directive as Printed>⟧.has_kind directive_kind directive_tree no_types
        (marks (lparen ∷ [])) [] }
    ensures directive_lists { ⟦<DirectiveList as Printed>⟧.has_kind directives_kind directive_trees
        no_types (marks (at ∷ lparen ∷ [])) [] }
    ensures input_value_definitions { ⟦<InputValueDefinition as Printed>⟧.has_kind
        input_value_definition_kind input_value_definition_tree
        (λ input. list_depth input.body.type) (marks (bang ∷ equals ∷ at ∷ lparen ∷ [])) [] }
    ensures directive_definitions { ⟦<DirectiveDefinition as Printed>⟧.has_kind
        directive_definition_kind directive_definition_tree
        (λ definition. arguments_list_depth definition.body.arguments) (marks (bar ∷ [])) [] }
    ensures variable_definitions { ⟦<VariableDefinition as Printed>⟧.has_kind
        variable_definition_kind variable_definition_tree
        (λ variable. list_depth variable.body.type) (marks (bang ∷ equals ∷ at ∷ lparen ∷ [])) [] }
    ensures selections { ⟦<Selection as Printed>⟧.has_kind selection_kind selection_tree no_types
        (marks (colon ∷ lbrace ∷ at ∷ lparen ∷ [])) [] }
    ensures fields { ⟦<Field as Printed>⟧.has_kind field_kind field_tree no_types
        (marks (colon ∷ lbrace ∷ at ∷ lparen ∷ [])) [] }
    ensures fragment_spreads { ⟦<FragmentSpread as Printed>⟧.has_kind fragment_spread_kind
        fragment_spread_tree no_types (marks (at ∷ lparen ∷ [])) [] }
    ensures inline_fragments { ⟦<InlineFragment as Printed>⟧.has_kind inline_fragment_kind
        inline_fragment_tree no_types [] [] }
    ensures operation_definitions { ⟦<OperationDefinition as Printed>⟧.has_kind
        operation_definition_kind operation_definition_tree
        (λ operation. variables_list_depth operation.body.variables) [] [] }
    ensures fragment_definitions { ⟦<FragmentDefinition as Printed>⟧.has_kind
        fragment_definition_kind fragment_definition_tree no_types [] [] }
    ensures schema_definitions { ⟦<SchemaDefinition as Printed>⟧.has_kind schema_definition_kind
        schema_definition_tree no_types [] [] }
    ensures scalar_type_definitions { ⟦<ScalarTypeDefinition as Printed>⟧.has_kind
        scalar_type_definition_kind scalar_type_definition_tree no_types (marks (at ∷ lparen ∷ []))
        [] }
    ensures object_type_definitions { ⟦<ObjectTypeDefinition as Printed>⟧.has_kind
        object_type_definition_kind object_type_definition_tree
        (λ type. fields_list_depth type.body.fields)
        (a_keyword (codes "implements") ∷ marks (amp ∷ at ∷ lparen ∷ [])) (marks (lbrace ∷ [])) }
    ensures interface_type_definitions { ⟦<InterfaceTypeDefinition as Printed>⟧.has_kind
        interface_type_definition_kind interface_type_definition_tree
        (λ type. fields_list_depth type.body.fields)
        (a_keyword (codes "implements") ∷ marks (amp ∷ at ∷ lparen ∷ [])) (marks (lbrace ∷ [])) }
    ensures union_type_definitions { ⟦<UnionTypeDefinition as Printed>⟧.has_kind
        union_type_definition_kind union_type_definition_tree no_types
        (marks (at ∷ lparen ∷ equals ∷ bar ∷ [])) [] }
    ensures enum_type_definitions { ⟦<EnumTypeDefinition as Printed>⟧.has_kind
        enum_type_definition_kind enum_type_definition_tree no_types (marks (at ∷ lparen ∷ []))
        (marks (lbrace ∷ [])) }
    ensures input_object_type_definitions { ⟦<InputObjectTypeDefinition as Printed>⟧.has_kind
        input_object_type_definition_kind input_object_type_definition_tree
        (λ type. arguments_list_depth type.body.members) (marks (at ∷ lparen ∷ []))
        (marks (lbrace ∷ [])) }
    ensures field_definitions { ⟦<FieldDefinition as Printed>⟧.has_kind field_definition_kind
        field_definition_tree (λ field. field_definition_list_depth field.body)
        (marks (bang ∷ at ∷ lparen ∷ [])) [] }
    ensures enum_value_definitions { ⟦<EnumValueDefinition as Printed>⟧.has_kind
        enum_value_definition_kind enum_value_definition_tree no_types (marks (at ∷ lparen ∷ []))
        [] }
    ensures schema_extensions { ⟦<SchemaExtension as Printed>⟧.has_kind schema_extension_kind
        schema_extension_tree no_types (marks (at ∷ lparen ∷ [])) (marks (lbrace ∷ [])) }
    ensures scalar_type_extensions { ⟦<ScalarTypeExtension as Printed>⟧.has_kind
        scalar_type_extension_kind scalar_type_extension_tree no_types (marks (at ∷ lparen ∷ []))
        [] }
    ensures object_type_extensions { ⟦<ObjectTypeExtension as Printed>⟧.has_kind
        object_type_extension_kind object_type_extension_tree
        (λ type. fields_list_depth type.fields)
        (a_keyword (codes "implements") ∷ marks (amp ∷ at ∷ lparen ∷ [])) (marks (lbrace ∷ [])) }
    ensures interface_type_extensions { ⟦<InterfaceTypeExtension as Printed>⟧.has_kind
        interface_type_extension_kind interface_type_extension_tree
        (λ type. fields_list_depth type.fields)
        (a_keyword (codes "implements") ∷ marks (amp ∷ at ∷ lparen ∷ [])) (marks (lbrace ∷ [])) }
    ensures union_type_extensions { ⟦<UnionTypeExtension as Printed>⟧.has_kind
        union_type_extension_kind union_type_extension_tree no_types
        (marks (at ∷ lparen ∷ equals ∷ bar ∷ [])) [] }
    ensures enum_type_extensions { ⟦<EnumTypeExtension as Printed>⟧.has_kind
        enum_type_extension_kind enum_type_extension_tree no_types (marks (at ∷ lparen ∷ []))
        (marks (lbrace ∷ [])) }
    ensures input_object_type_extensions { ⟦<InputObjectTypeExtension as Printed>⟧.has_kind
        input_object_type_extension_kind input_object_type_extension_tree
        (λ type. arguments_list_depth type.members) (marks (at ∷ lparen ∷ []))
        (marks (lbrace ∷ [])) }
    ensures definitions { ⟦<Definition as Printed>⟧.has_kind definition_kind definition_tree
        definition_list_depth
        (a_keyword (codes "implements") ∷ marks (amp ∷ at ∷ lparen ∷ equals ∷ bar ∷ []))
        (marks (lbrace ∷ [])) }
    ensures documents { ⟦<Document as Printed>⟧.has_kind document_kind document_tree
        (greatest definition_list_depth)
        (a_punctuator lbrace ∷ a_string_value ∷ a_name (codes "implements" ∷ [])
        ∷ a_keyword (codes "implements") ∷ marks (amp ∷ at ∷ lparen ∷ equals ∷ bar ∷ []))
        (marks (lbrace ∷ [])) }
{
    graphql_values::laws::printed_kinds();
    graphql_executable::laws::printed_kinds();
    graphql_type_system::laws::printed_kinds();
}
