//! Texts at the edges of the grammar: where it is easy to read too much, or too little.
ghost use Rattle.std.specs.Prelude.{[], ◌∷◌, codes, None};
ghost use Rattle.graphql_text.specs.examples.Tables.{AreRead, AreRefused};
ghost use Rattle.graphql_text.specs.kinds.Reading.{ReadsAs};
ghost use Rattle.graphql_executable.specs.kinds.Fields.{field_kind};
ghost use Rattle.graphql_executable.specs.kinds.FragmentSpreads.{fragment_spread_kind};
ghost use Rattle.graphql_executable.specs.kinds.InlineFragments.{inline_fragment_kind};
ghost use Rattle.graphql_executable.specs.kinds.Selections.{selection_kind};
ghost use Rattle.graphql_executable.specs.kinds.VariableDefinitions.{variable_definition_kind};
ghost use Rattle.graphql_type_system.specs.examples.TypeSystemExamples.{union_with_member};
ghost use Rattle.graphql_ast.specs.Definitions.{UnionTypeExtension, definition_kind};
ghost use Rattle.graphql_ast.specs.Documents.{document_kind};
ghost use Rattle.graphql_ast.specs.examples.DocumentExamples.{a_definition, directive_on_fields, fragment_on_t, query_described, query_of_alias, query_query, spread_of_once, type_of_b_and_c, type_with_a, union_u};

/// Texts that are read though they may not look so: a separator before the first of several names, a shorthand behind
/// what has no braces or ends with them, words of the grammar as names, and a name that begins with `on`.
pub fn edge_readings()
    ensures shorthand_behind_union { ReadsAs document_kind.form (codes "union U { a }")
        (union_u ∷ query_described None ∷ []) }
    ensures shorthand_behind_fields { ReadsAs document_kind.form (codes "type A { a: b } { a: b }")
        (type_with_a ∷ query_of_alias ∷ []) }
    ensures shorthand_behind_shorthand { ReadsAs document_kind.form (codes "{a}{a}")
        (query_described None ∷ query_described None ∷ []) }
    ensures leading_ampersand { ReadsAs document_kind.form (codes "type A implements & B & C")
        (type_of_b_and_c ∷ []) }
    ensures leading_bar { ReadsAs definition_kind.form (codes "extend union U = | A")
        (a_definition UnionTypeExtension union_with_member) }
    ensures leading_bar_of_locations { ReadsAs definition_kind.form
        (codes "directive @d on | FIELD")
        directive_on_fields }
    ensures definitions { AreRead definition_kind.form
        ((codes "query query{query}", query_query) ∷ []) }
    ensures selections { AreRead selection_kind.form
        ((codes "...on T{a}", fragment_on_t) ∷ (codes "...once", spread_of_once) ∷ []) }
{}

/// Texts that are not read though they may look so: fields without a type, an extension of a schema with a selection
/// set, something behind the last definition, nothing but what is ignored, interfaces without `&`, an extension of a
/// directive, a description before an extension, brackets and braces without anything in them, `on` without a type
/// condition, a spread with a selection set, a type that is non-null twice, and a fragment with variables.
pub fn edge_refusals()
    ensures documents { AreRefused document_kind.form
        (codes "type A @d { a }" ∷ codes "extend schema @d { a }" ∷ codes "enum E { a b } { a: b }x"
        ∷ (0xFEFF ∷ codes " # x") ∷ []) }
    ensures definitions { AreRefused definition_kind.form
        (codes "type A implements B C" ∷ codes "extend directive @d on FIELD"
        ∷ codes "\"d\" extend type T @d" ∷ codes "fragment F($a: Int) on T { a }" ∷ []) }
    ensures fields { AreRefused field_kind.form (codes "f()" ∷ codes "f {}" ∷ []) }
    ensures inline_fragments { AreRefused inline_fragment_kind.form (codes "... on { a }" ∷ []) }
    ensures fragment_spreads { AreRefused fragment_spread_kind.form (codes "... on T { a }" ∷ []) }
    ensures variable_definitions { AreRefused variable_definition_kind.form
        (codes "$v: [Int!!]" ∷ []) }
{}
