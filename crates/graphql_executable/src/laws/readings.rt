//! What layouts give, texts that are read, and texts that are not. Not all of these are printed of any tree.
ghost use Rattle.std.specs.Prelude.{[], ◌∷◌, ◌++◌, ◌≡◌, codes, refl, None, Some};
ghost use Rattle.graphql_text.specs.kinds.Kinds.{layout_of};
ghost use Rattle.graphql_text.specs.examples.Tables.{AreRead, AreRefused};
ghost use Rattle.graphql_text.specs.kinds.Reading.{ReadsAs};
ghost use Rattle.graphql_values.specs.examples.ValueExamples.{bare_directive, named};
ghost use Rattle.graphql_values.specs.kinds.OperationTypes.{Mutation, Query, Subscription};
ghost use Rattle.graphql_executable.specs.examples.ExecutableExamples.{described_variable, description, fragment_of_a, operation_of_a, query_of_a, query_with_described_variable, query_with_fragments, spread_with_directive, untyped_inline_fragment, variable_with_directive};
ghost use Rattle.graphql_executable.specs.kinds.Fields.{field_kind};
ghost use Rattle.graphql_executable.specs.kinds.FragmentDefinitions.{fragment_definition_kind};
ghost use Rattle.graphql_executable.specs.kinds.FragmentSpreads.{fragment_spread_kind};
ghost use Rattle.graphql_executable.specs.kinds.InlineFragments.{inline_fragment_kind};
ghost use Rattle.graphql_executable.specs.kinds.OperationDefinitions.{operation_definition_kind};
ghost use Rattle.graphql_executable.specs.kinds.Selections.{selection_kind};
ghost use Rattle.graphql_executable.specs.kinds.VariableDefinitions.{variable_definition_kind};

/// What layouts give, under a prefix and on one line. The shorthand stands only where nothing is written before the
/// query, be it a prefix. Variable definitions stand on one line unless one of them has a description: a directive
/// breaks nothing.
#[tactic(auto, unfolding(graphql_text::specs::layout::Layout::text_of_items, graphql_text::specs::layout::Layout::each_after, graphql_text::specs::layout::Layout::flat, graphql_values::specs::kinds::Directives::directive_shape, graphql_values::specs::kinds::TypeReferences::type_shape, crate::specs::kinds::FragmentSpreads::fragment_spread_shape, crate::specs::kinds::OperationDefinitions::operation_shape, crate::specs::kinds::SelectionHeads::field_head_shape, crate::specs::kinds::SelectionHeads::inline_fragment_head_shape, crate::specs::kinds::Selections::selection_shape))]
pub fn worked_layouts()
    ensures fragments { layout_of operation_definition_kind None 0 query_with_fragments
        ≡ codes
        "query N($v: Int = 1 @d) { r: s(a: $v) @include(if: true) { ...F ... on T { id } } }" }
    ensures fragments_broken { layout_of operation_definition_kind
        (Some (codes "  ")) 0 query_with_fragments
        ≡ codes
        "query N($v: Int = 1 @d) {\n  r: s(a: $v) @include(if: true) {\n    ...F\n    ... on T {\n"
        ++ codes "      id\n    }\n  }\n}" }
    ensures fragments_nesting { operation_definition_kind.nesting query_with_fragments ≡ 3 }
    ensures shorthand { layout_of operation_definition_kind None 7 (query_of_a None)
        ≡ codes "{ a }" }
    ensures shorthand_broken { layout_of operation_definition_kind (Some (codes "  ")) 0
        (query_of_a None)
        ≡ codes "{\n  a\n}" }
    ensures after_prefix { layout_of operation_definition_kind (Some (codes "  ")) 1
        (query_of_a None)
        ≡ codes "  query {\n    a\n  }" }
    ensures after_empty_prefix { layout_of operation_definition_kind (Some []) 1 (query_of_a None)
        ≡ codes "query {\na\n}" }
    ensures mutation { layout_of operation_definition_kind None 0
        (operation_of_a Mutation None [] [])
        ≡ codes "mutation { a }" }
    ensures directive { layout_of operation_definition_kind None 0
        (operation_of_a Query None [] (bare_directive (codes "d") refl ∷ []))
        ≡ codes "query @d { a }" }
    ensures described { layout_of operation_definition_kind None 0
        (query_of_a (description (codes "D") refl))
        ≡ codes "\"D\" query { a }" }
    ensures described_broken { layout_of operation_definition_kind (Some (codes "  ")) 1
        (query_of_a (description (codes "D") refl))
        ≡ codes "  \"\"\"D\"\"\"\n  query {\n    a\n  }" }
    ensures described_by_nothing { layout_of operation_definition_kind (Some (codes "  ")) 0
        (query_of_a (description [] refl)) ≡ codes "\"\"\nquery {\n  a\n}" }
    ensures variable { layout_of variable_definition_kind None 0 variable_with_directive
        ≡ codes "$v: [Int] = [1] @d" }
    ensures variable_broken { layout_of variable_definition_kind
        (Some (codes "  ")) 0 variable_with_directive
        ≡ codes "$v: [Int] = [\n  1,\n] @d" }
    ensures described_variable { layout_of operation_definition_kind None 0
        query_with_described_variable
        ≡ codes "query N(\"A\" $a: Int, $b: Int = 1) { a }" }
    ensures described_variable_broken { layout_of operation_definition_kind
        (Some (codes "  ")) 0 query_with_described_variable
        ≡ codes "query N(\n  \"\"\"A\"\"\"\n  $a: Int,\n  $b: Int = 1,\n) {\n  a\n}" }
    ensures fragment { layout_of fragment_definition_kind None 0
        (fragment_of_a None (named (codes "T") refl) (bare_directive (codes "d") refl ∷ []))
        ≡ codes "fragment F on T @d { a }" }
    ensures described_fragment { layout_of fragment_definition_kind (Some (codes "  ")) 0
        (fragment_of_a (description (codes "x\ny") refl) (named (codes "T") refl) [])
        ≡ codes "\"\"\"\nx\ny\n\"\"\"\nfragment F on T {\n  a\n}" }
    ensures untyped_inline_fragment { layout_of selection_kind None 0 untyped_inline_fragment
        ≡ codes "... @d { a }" }
{}

/// Texts that are read, and as what: each word of these kinds stands in one of them.
pub fn worked_readings()
    ensures operation_definitions { AreRead operation_definition_kind.form
        ((
          codes
              "query N($v: Int = 1 @d) { r: s(a: $v) @include(if: true) { ...F ... on T { id } } }",
          query_with_fragments,
        ) ∷ (codes "query{a}", query_of_a None)
        ∷ (codes "mutation { a }", operation_of_a Mutation None [] [])
        ∷ (
          codes "subscription @d,{,a #{\n}",
          operation_of_a Subscription None [] (bare_directive (codes "d") refl ∷ []),
        )
        ∷ (codes "\"D\" query { a }", query_of_a (description (codes "D") refl))
        ∷ (codes "\"\"\"\n  D\n\"\"\"query{a}", query_of_a (description (codes "D") refl))
        ∷ (
          codes "query(\"V\" $v: Int) { a }",
          operation_of_a Query None (described_variable ∷ []) [],
        )
        ∷ (codes "query N(\"A\" $a: Int, $b: Int = 1) { a }", query_with_described_variable) ∷ []) }
    ensures shorthand { ReadsAs operation_definition_kind.form (codes "{ a }") (query_of_a None) }
    ensures variable_definitions { AreRead variable_definition_kind.form
        ((codes "$v:[Int]=[1]@d", variable_with_directive) ∷ []) }
    ensures selections { AreRead selection_kind.form
        ((codes "... F @a(x: $v)", spread_with_directive)
        ∷ (codes "...@d{a}", untyped_inline_fragment) ∷ []) }
    ensures fragment_definitions { AreRead fragment_definition_kind.form
        ((
          codes "fragment F on T @d { a }",
          fragment_of_a None (named (codes "T") refl) (bare_directive (codes "d") refl ∷ []),
        )
        ∷ (codes "fragment F on on { a }", fragment_of_a None (named (codes "on") refl) [])
        ∷ (
          codes "\"\"\"\nx\ny\n\"\"\"\nfragment F on T {\n  a\n}",
          fragment_of_a (description (codes "x\ny") refl) (named (codes "T") refl) [],
        ) ∷ []) }
{}

/// Texts that are read as no operation: selection sets without a selection, the shorthand with a description, brackets
/// without a variable, and a variable in the default value or a directive of one; as no field: a set without a
/// selection, brackets without an argument, and an alias alone; as no fragment spread: one of `on`; as no inline
/// fragment: one without a selection, and one without a set; as no fragment definition: one that is named `on`, one
/// without a type condition, and one without a selection.
pub fn refused_readings()
    ensures operation_definitions { AreRefused operation_definition_kind.form
        (codes "{}" ∷ codes "query {}" ∷ codes "\"D\" { a }" ∷ codes "query() { a }"
        ∷ codes "query($v: Int = $x) { a }" ∷ codes "query($v: Int @d(a: $x)) { a }" ∷ []) }
    ensures fields { AreRefused field_kind.form (codes "a {}" ∷ codes "a()" ∷ codes "a:" ∷ []) }
    ensures fragment_spreads { AreRefused fragment_spread_kind.form (codes "...on" ∷ []) }
    ensures inline_fragments { AreRefused inline_fragment_kind.form
        (codes "... {}" ∷ codes "... on T" ∷ []) }
    ensures fragment_definitions { AreRefused fragment_definition_kind.form
        (codes "fragment on on T { a }" ∷ codes "fragment F { a }"
        ∷ codes "fragment F on T {}" ∷ []) }
{}
