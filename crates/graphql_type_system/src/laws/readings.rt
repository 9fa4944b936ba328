//! Texts that are read, and texts that are not. Not all of the first are printed of any tree.
ghost use Rattle.std.specs.Prelude.{[], ◌∷◌, codes};
ghost use Rattle.graphql_text.specs.examples.Tables.{AreRead, AreRefused};
ghost use Rattle.graphql_text.specs.kinds.Reading.{ReadsAs};
ghost use Rattle.graphql_type_system.specs.examples.TypeSystemExamples.{bare_enum, bare_input, bare_scalar, bare_type, bare_union, described_field, enum_with_all, enum_with_directive, enum_with_value, input_with_all, input_with_directive, input_with_field, plain, scalar_with_directive, schema_with_all, schema_with_directive, schema_with_operation, type_with_all, type_with_directive, type_with_field, type_with_interfaces, union_with_both, union_with_directive, union_with_member, value_with_directive, with_description};
ghost use Rattle.graphql_type_system.specs.kinds.EnumTypes.{enum_type_definition_kind, enum_type_extension_kind};
ghost use Rattle.graphql_type_system.specs.kinds.EnumValueDefinitions.{enum_value_definition_kind};
ghost use Rattle.graphql_type_system.specs.kinds.FieldDefinitions.{field_definition_kind};
ghost use Rattle.graphql_type_system.specs.kinds.InputObjectTypes.{input_object_type_definition_kind, input_object_type_extension_kind};
ghost use Rattle.graphql_type_system.specs.kinds.InterfaceTypes.{interface_type_definition_kind, interface_type_extension_kind};
ghost use Rattle.graphql_type_system.specs.kinds.ObjectTypes.{object_type_definition_kind, object_type_extension_kind};
ghost use Rattle.graphql_type_system.specs.kinds.ScalarTypes.{scalar_type_definition_kind, scalar_type_extension_kind};
ghost use Rattle.graphql_type_system.specs.kinds.Schemas.{schema_definition_kind, schema_extension_kind};
ghost use Rattle.graphql_type_system.specs.kinds.UnionTypes.{union_type_definition_kind, union_type_extension_kind};

/// Definitions that are read, and as what: with all that they may have, and with nothing but their name. An `&` may
/// stand before the first interface, and a `|` before the first member, though no layout prints them.
pub fn definitions_are_read()
    ensures scalar_type_definitions { AreRead scalar_type_definition_kind.form
        ((codes "scalar S", plain bare_scalar)
        ∷ (codes "\"d\" scalar S @d", with_description scalar_with_directive) ∷ []) }
    ensures field_definitions { AreRead field_definition_kind.form
        ((codes "\"d\" f(a: Int = 1): [String!]! @e", described_field) ∷ []) }
    ensures object_type_definitions { AreRead object_type_definition_kind.form
        ((
          codes "type T implements A & B @d { \"d\" f(a: Int = 1): [String!]! @e }",
          plain type_with_all,
        ) ∷ (codes "type T", plain bare_type) ∷ []) }
    ensures interface_type_definitions { AreRead interface_type_definition_kind.form
        ((
          codes "interface T implements A & B @d { \"d\" f(a: Int = 1): [String!]! @e }",
          plain type_with_all,
        ) ∷ []) }
    ensures union_type_definitions { AreRead union_type_definition_kind.form
        ((codes "union U @d = A | B", plain union_with_both)
        ∷ (codes "union U", plain bare_union) ∷ []) }
    ensures enum_value_definitions { AreRead enum_value_definition_kind.form
        ((codes "B @e", value_with_directive) ∷ []) }
    ensures enum_type_definitions { AreRead enum_type_definition_kind.form
        ((codes "enum E @d { A B @e }", plain enum_with_all)
        ∷ (codes "enum E", plain bare_enum) ∷ []) }
    ensures input_object_type_definitions { AreRead input_object_type_definition_kind.form
        ((codes "input I @d { a: Int = 1 b: Int }", plain input_with_all)
        ∷ (codes "input I", plain bare_input) ∷ []) }
    ensures schema_definitions { AreRead schema_definition_kind.form
        ((codes "schema @d { query: Q mutation: M }", plain schema_with_all)
        ∷ (codes "\"d\" schema { subscription: S }", with_description schema_with_operation) ∷ []) }
    ensures leading_ampersand { ReadsAs object_type_definition_kind.form
        (codes "type T implements & A & B") (plain type_with_interfaces) }
    ensures leading_bar { ReadsAs union_type_definition_kind.form (codes "union U = | A")
        (plain union_with_member) }
{}

/// Extensions that are read: with each thing that one may add, alone.
pub fn additions_are_read()
    ensures schema_extensions { AreRead schema_extension_kind.form
        ((codes "extend schema @d", schema_with_directive)
        ∷ (codes "extend schema { subscription: S }", schema_with_operation) ∷ []) }
    ensures scalar_type_extensions { AreRead scalar_type_extension_kind.form
        ((codes "extend scalar S @d", scalar_with_directive) ∷ []) }
    ensures object_type_extensions { AreRead object_type_extension_kind.form
        ((codes "extend type T implements A & B", type_with_interfaces)
        ∷ (codes "extend type T @d", type_with_directive)
        ∷ (codes "extend type T { f: Int }", type_with_field) ∷ []) }
    ensures interface_type_extensions { AreRead interface_type_extension_kind.form
        ((codes "extend interface T implements A & B", type_with_interfaces)
        ∷ (codes "extend interface T @d", type_with_directive)
        ∷ (codes "extend interface T { f: Int }", type_with_field) ∷ []) }
    ensures union_type_extensions { AreRead union_type_extension_kind.form
        ((codes "extend union U @d", union_with_directive)
        ∷ (codes "extend union U = A", union_with_member) ∷ []) }
    ensures enum_type_extensions { AreRead enum_type_extension_kind.form
        ((codes "extend enum E @d", enum_with_directive)
        ∷ (codes "extend enum E { A }", enum_with_value) ∷ []) }
    ensures input_object_type_extensions { AreRead input_object_type_extension_kind.form
        ((codes "extend input I @d", input_with_directive)
        ∷ (codes "extend input I { a: Int = 1 }", input_with_field) ∷ []) }
{}

/// Texts that are read as no definition: with braces around nothing; a schema without a root operation, or without
/// braces; `implements` and `=` before nothing; the enum values `true` and `null`; a variable; two definitions, the
/// second of which is none of the type system; another keyword; and an extension.
pub fn refused_definitions()
    ensures object_type_definitions { AreRefused object_type_definition_kind.form (codes "type A {}"
        ∷ codes "interface T" ∷ []) }
    ensures input_object_type_definitions { AreRefused input_object_type_definition_kind.form
        (codes "input I {}" ∷ []) }
    ensures schema_definitions { AreRefused schema_definition_kind.form (codes "schema {}"
        ∷ codes "schema @d" ∷ []) }
    ensures interface_type_definitions { AreRefused interface_type_definition_kind.form
        (codes "interface T implements" ∷ []) }
    ensures union_type_definitions { AreRefused union_type_definition_kind.form
        (codes "union U =" ∷ []) }
    ensures enum_type_definitions { AreRefused enum_type_definition_kind.form
        (codes "enum E { true }" ∷ []) }
    ensures enum_value_definitions { AreRefused enum_value_definition_kind.form
        (codes "null" ∷ []) }
    ensures field_definitions { AreRefused field_definition_kind.form
        (codes "f: Int @d(a: $v)" ∷ []) }
    ensures scalar_type_definitions { AreRefused scalar_type_definition_kind.form
        (codes "scalar A { a }" ∷ codes "extend scalar S @d" ∷ []) }
{}

/// Texts that are read as no extension: one that adds nothing; one with braces around nothing; one with a description;
/// and a definition.
pub fn refused_extensions()
    ensures schema_extensions { AreRefused schema_extension_kind.form (codes "extend schema" ∷ []) }
    ensures scalar_type_extensions { AreRefused scalar_type_extension_kind.form
        (codes "extend scalar A" ∷ codes "\"d\" extend scalar S @d" ∷ codes "scalar S @d" ∷ []) }
    ensures object_type_extensions { AreRefused object_type_extension_kind.form
        (codes "extend type T" ∷ codes "extend type T @d {}" ∷ []) }
    ensures interface_type_extensions { AreRefused interface_type_extension_kind.form
        (codes "extend interface T" ∷ []) }
    ensures union_type_extensions { AreRefused union_type_extension_kind.form
        (codes "extend union U" ∷ []) }
    ensures enum_type_extensions { AreRefused enum_type_extension_kind.form
        (codes "extend enum E" ∷ []) }
    ensures input_object_type_extensions { AreRefused input_object_type_extension_kind.form
        (codes "extend input I" ∷ []) }
{}
