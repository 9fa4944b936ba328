//! What layouts give, texts that are read, and texts that are not. Not all of these are printed of any tree.
ghost use Rattle.std.specs.Prelude.{[], ◌∷◌, ◌≡◌, codes, false, refl, None, Some};
ghost use Rattle.graphql_text.specs.kinds.Kinds.{layout_of};
ghost use Rattle.graphql_text.specs.examples.Tables.{AreRead, AreRefused};
ghost use Rattle.graphql_text.specs.kinds.Reading.{ReadsAs};
ghost use Rattle.graphql_values.specs.examples.ValueExamples.{bare_directive, named, repeatable_directive};
ghost use Rattle.graphql_executable.specs.examples.ExecutableExamples.{description, fragment_of_a, query_with_fragments};
ghost use Rattle.graphql_type_system.specs.examples.TypeSystemExamples.{enum_with_all, enum_with_value, input_with_all, input_with_field, plain, scalar_with_directive, schema_with_all, schema_with_operation, type_with_all, type_with_directive, type_with_interfaces, union_with_both, union_with_member};
ghost use Rattle.graphql_ast.specs.Definitions.{EnumTypeDefinition, EnumTypeExtension, FragmentDefinition, DirectiveDefinition, InputObjectTypeDefinition, InputObjectTypeExtension, InterfaceTypeDefinition, InterfaceTypeExtension, ObjectTypeDefinition, ObjectTypeExtension, OperationDefinition, ScalarTypeDefinition, ScalarTypeExtension, SchemaDefinition, SchemaExtension, UnionTypeDefinition, UnionTypeExtension, definition_kind};
ghost use Rattle.graphql_ast.specs.Documents.{document_kind};
ghost use Rattle.graphql_ast.specs.examples.DocumentExamples.{a_definition, query_described, query_of_field, scalar_named, type_a, type_and_query};

/// What layouts give, under a prefix and on one line. The shorthand stands only at the very front: not behind another
/// definition, a description or a prefix, be it an empty one. The empty document is nothing but the indentation of its
/// first line, and isn't well formed.
#[tactic(auto, unfolding(graphql_text::specs::layout::Layout::text_of_items, graphql_text::specs::layout::Layout::each_after, graphql_text::specs::layout::Layout::flat, graphql_values::specs::kinds::Directives::directive_shape, graphql_executable::specs::kinds::OperationDefinitions::operation_shape, graphql_executable::specs::kinds::SelectionHeads::field_head_shape, graphql_executable::specs::kinds::Selections::selection_shape, crate::specs::Documents::document_shape, crate::specs::Documents::more_definitions_shape))]
pub fn worked_layouts()
    ensures document { layout_of document_kind (Some (codes "  ")) 0 (type_and_query None)
        ≡ codes "type A\n\nquery {\n  a\n}\n" }
    ensures document_on_one_line { layout_of document_kind None 0 (type_and_query None)
        ≡ codes "type A query { a }" }
    ensures document_at_level_one { layout_of document_kind (Some (codes "  ")) 1
        (type_and_query None)
        ≡ codes "  type A\n\n  query {\n    a\n  }\n" }
    ensures document_without_indentation { layout_of document_kind (Some []) 0 (type_and_query None)
        ≡ codes "type A\n\nquery {\na\n}\n" }
    ensures described_document { layout_of document_kind (Some (codes "  ")) 0
        (type_and_query (description (codes "D") refl))
        ≡ codes "type A\n\n\"\"\"D\"\"\"\nquery {\n  a\n}\n" }
    ensures described_document_on_one_line { layout_of document_kind None 0
        (type_and_query (description (codes "D") refl)) ≡ codes "type A \"D\" query { a }" }
    ensures scalars { layout_of document_kind None 0
        (scalar_named (named (codes "A") refl) ∷ scalar_named (named (codes "B") refl) ∷ [])
        ≡ codes "scalar A scalar B" }
    ensures directive { layout_of document_kind None 0 (query_of_field ∷ [])
        ≡ codes "query @dir { field }" }
    ensures shorthand { layout_of document_kind (Some (codes "  ")) 0
        (query_described None ∷ type_a ∷ [])
        ≡ codes "{\n  a\n}\n\ntype A\n" }
    ensures shorthand_after_prefix { layout_of document_kind (Some (codes "  ")) 1
        (query_described None ∷ [])
        ≡ codes "  query {\n    a\n  }\n" }
    ensures described_query { layout_of document_kind (Some (codes "  ")) 0
        (query_described (description (codes "D") refl) ∷ [])
        ≡ codes "\"\"\"D\"\"\"\nquery {\n  a\n}\n" }
    ensures empty_document { layout_of document_kind (Some (codes "  ")) 0 [] ≡ [] }
    ensures empty_document_at_level_one { layout_of document_kind (Some (codes "  ")) 1 []
        ≡ codes "  " }
    ensures empty_document_refused { document_kind.obeys [] ≡ false }
    ensures definition { layout_of definition_kind (Some (codes "  ")) 0 (query_described None)
        ≡ codes "{\n  a\n}" }
    ensures definition_after_prefix { layout_of definition_kind (Some (codes "  ")) 1
        (query_described None)
        ≡ codes "  query {\n    a\n  }" }
    ensures definition_on_one_line { layout_of definition_kind None 1 (query_described None)
        ≡ codes "{ a }" }
    ensures definition_after_empty_prefix { layout_of definition_kind (Some []) 1
        (query_described None)
        ≡ codes "query {\na\n}" }
    ensures definition_without_indentation { layout_of definition_kind (Some []) 0
        (query_described None)
        ≡ codes "{\na\n}" }
    ensures nesting { document_kind.nesting (type_and_query None) ≡ 1 }
{}

/// Each of the seventeen kinds is read as a definition.
pub fn definitions_are_read()
    ensures definitions { AreRead definition_kind.form
        ((
          codes
              "query N($v: Int = 1 @d) { r: s(a: $v) @include(if: true) { ...F ... on T { id } } }",
          a_definition OperationDefinition query_with_fragments,
        )
        ∷ (
          codes "fragment F on T @d { a }",
          a_definition FragmentDefinition
              (fragment_of_a None (named (codes "T") refl) (bare_directive (codes "d") refl ∷ [])),
        )
        ∷ (
          codes "directive @d(a: Int @x, b: Int) repeatable on FIELD | QUERY",
          a_definition DirectiveDefinition repeatable_directive,
        )
        ∷ (
          codes "schema @d { query: Q mutation: M }",
          a_definition SchemaDefinition (plain schema_with_all),
        )
        ∷ (codes "scalar S @d", a_definition ScalarTypeDefinition (plain scalar_with_directive))
        ∷ (
          codes "type T implements A & B @d { \"d\" f(a: Int = 1): [String!]! @e }",
          a_definition ObjectTypeDefinition (plain type_with_all),
        )
        ∷ (codes "interface T @d", a_definition InterfaceTypeDefinition (plain type_with_directive))
        ∷ (codes "union U @d = A | B", a_definition UnionTypeDefinition (plain union_with_both))
        ∷ (codes "enum E @d { A B @e }", a_definition EnumTypeDefinition (plain enum_with_all))
        ∷ (
          codes "input I @d { a: Int = 1 b: Int }",
          a_definition InputObjectTypeDefinition (plain input_with_all),
        )
        ∷ (
          codes "extend schema { subscription: S }",
          a_definition SchemaExtension schema_with_operation,
        )
        ∷ (codes "extend scalar S @d", a_definition ScalarTypeExtension scalar_with_directive)
        ∷ (
          codes "extend type T implements A & B",
          a_definition ObjectTypeExtension type_with_interfaces,
        )
        ∷ (codes "extend interface T @d", a_definition InterfaceTypeExtension type_with_directive)
        ∷ (codes "extend union U = A", a_definition UnionTypeExtension union_with_member)
        ∷ (codes "extend enum E { A }", a_definition EnumTypeExtension enum_with_value)
        ∷ (
          codes "extend input I { a: Int = 1 }",
          a_definition InputObjectTypeExtension input_with_field,
        ) ∷ []) }
    ensures leading_bar { ReadsAs definition_kind.form (codes "union U = | A")
        (a_definition UnionTypeDefinition (plain union_with_member)) }
{}

/// Texts that are read as documents, and as which. A shorthand may stand behind another definition, if no braces may
/// follow that, though no layout prints it there.
pub fn worked_readings()
    ensures document { ReadsAs document_kind.form (codes "type A query { a }")
        (type_and_query None) }
    ensures document_over_lines { ReadsAs document_kind.form (codes "type A #\n\nquery{\n  a\n},\n")
        (type_and_query None) }
    ensures described_document { ReadsAs document_kind.form (codes "type A \"D\" query { a }")
        (type_and_query (description (codes "D") refl)) }
    ensures shorthand { ReadsAs document_kind.form (codes "{ a } type A")
        (query_described None ∷ type_a ∷ []) }
    ensures shorthand_behind { ReadsAs document_kind.form (codes "scalar A { a }")
        (scalar_named (named (codes "A") refl) ∷ query_described None ∷ []) }
{}

/// Texts that are read as no definition: a selection set without a selection, fields without a type, extensions that
/// add nothing, a directive definition without a location, and a description before the shorthand or an extension.
pub fn refused_definitions()
    ensures { AreRefused definition_kind.form
        (codes "{}" ∷ codes "type A { a }" ∷ codes "extend scalar A" ∷ codes "extend type T"
        ∷ codes "directive @d" ∷ codes "\"D\" { a }" ∷ codes "\"D\" extend scalar A @d"
        ∷ codes "" ∷ []) }
{}

/// Texts that are read as no document: those of which none is a definition, and the empty text.
pub fn refused_documents()
    ensures { AreRefused document_kind.form
        (codes "{}" ∷ codes "type A { a }" ∷ codes "extend scalar A" ∷ codes "extend type T"
        ∷ codes "\"D\" { a }" ∷ codes "\"D\" extend scalar A @d" ∷ codes "type A \"D\""
        ∷ codes "" ∷ []) }
{}
