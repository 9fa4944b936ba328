//! What layouts give, on one line and under a prefix.
ghost use Rattle.std.specs.Prelude.{◌≡◌, None, Some, codes};
ghost use Rattle.graphql_text.specs.kinds.Kinds.{layout_of};
ghost use Rattle.graphql_type_system.specs.examples.TypeSystemExamples.{bare_scalar, empty_schema, enum_with_all, field_over_lines, input_with_field, plain, schema_with_all, schema_with_directive, schema_with_operation, type_with_all, type_with_interfaces, union_with_both, with_description};
ghost use Rattle.graphql_type_system.specs.kinds.EnumTypes.{enum_type_definition_kind};
ghost use Rattle.graphql_type_system.specs.kinds.FieldDefinitions.{field_definition_kind};
ghost use Rattle.graphql_type_system.specs.kinds.InputObjectTypes.{input_object_type_extension_kind};
ghost use Rattle.graphql_type_system.specs.kinds.InterfaceTypes.{interface_type_extension_kind};
ghost use Rattle.graphql_type_system.specs.kinds.ObjectTypes.{object_type_definition_kind};
ghost use Rattle.graphql_type_system.specs.kinds.ScalarTypes.{scalar_type_definition_kind};
ghost use Rattle.graphql_type_system.specs.kinds.Schemas.{schema_definition_kind, schema_extension_kind};
ghost use Rattle.graphql_type_system.specs.kinds.UnionTypes.{union_type_extension_kind};

/// Layouts of definitions and extensions.
#[tactic(auto, unfolding(graphql_text::specs::layout::Layout::text_of_items, graphql_text::specs::layout::Layout::each_after, graphql_text::specs::layout::Layout::flat, graphql_values::specs::kinds::Directives::directive_shape, graphql_values::specs::kinds::TypeReferences::type_shape, crate::specs::kinds::BracedTypes::braced_type_shape))]
pub fn worked_layouts()
    ensures object { layout_of object_type_definition_kind (Some (codes "  ")) 0
        (plain type_with_all)
        ≡ codes "type T implements A & B @d {\n  \"\"\"d\"\"\"\n  f(a: Int = 1): [String!]! @e\n}" }
    ensures object_on_one_line { layout_of object_type_definition_kind None 0 (plain type_with_all)
        ≡ codes "type T implements A & B @d { \"d\" f(a: Int = 1): [String!]! @e }" }
    ensures field { layout_of field_definition_kind (Some (codes "  ")) 0 field_over_lines
        ≡ codes "f(\n  a: [Int] = [\n    1,\n  ] @x,\n): Int" }
    ensures interface { layout_of interface_type_extension_kind None 0 type_with_interfaces
        ≡ codes "extend interface T implements A & B" }
    ensures union_type { layout_of union_type_extension_kind None 0 union_with_both
        ≡ codes "extend union U @d = A | B" }
    ensures enum_on_one_line { layout_of enum_type_definition_kind None 0 (plain enum_with_all)
        ≡ codes "enum E @d { A B @e }" }
    ensures enum_type { layout_of enum_type_definition_kind (Some (codes "  ")) 1
        (plain enum_with_all)
        ≡ codes "  enum E @d {\n    A\n    B @e\n  }" }
    ensures input_object { layout_of input_object_type_extension_kind None 0 input_with_field
        ≡ codes "extend input I { a: Int = 1 }" }
    ensures schema_on_one_line { layout_of schema_definition_kind None 0 (plain schema_with_all)
        ≡ codes "schema @d { query: Q mutation: M }" }
    ensures schema { layout_of schema_definition_kind (Some (codes "\t")) 0
        (with_description schema_with_operation)
        ≡ codes "\"\"\"d\"\"\"\nschema {\n\tsubscription: S\n}" }
    ensures empty_schema { layout_of schema_definition_kind (Some (codes "  ")) 0
        (plain empty_schema)
        ≡ codes "schema {}" }
    ensures extended_schema { layout_of schema_extension_kind None 0 schema_with_directive
        ≡ codes "extend schema @d" }
    ensures scalar { layout_of scalar_type_definition_kind (Some (codes "  ")) 0
        (with_description bare_scalar)
        ≡ codes "\"\"\"d\"\"\"\nscalar S" }
{}
