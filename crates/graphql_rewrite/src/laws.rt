//! What holds of rewritings. Each function does nothing: its contract is the law.
ghost use Rattle.std.specs.Prelude.{IsTrue, List, ℕ};
ghost use Rattle.std.specs.List.{list_all};
ghost use Rattle.graphql_text.specs.lexical.Literals.{NameText};
ghost use Rattle.graphql_values.specs.kinds.Values.{NonConst, ValueTree, value_obeys};
ghost use Rattle.graphql_ast.specs.Definitions.{DefinitionTree, definition_kind};
ghost use Rattle.graphql_ast.specs.Documents.{document_kind};
ghost use Rattle.graphql_rewrite.specs.DirectiveRewritings.{removing_directive};
ghost use Rattle.graphql_rewrite.specs.FieldRewritings.{adding_field, renaming_fields};
ghost use Rattle.graphql_rewrite.specs.Rewritings.{Rewriting};
ghost use Rattle.graphql_rewrite.specs.SideConditions.{Keeps, LeavesSome, has_extension, is_extension};
ghost use Rattle.graphql_rewrite.specs.VariableRewritings.{replacing_variables};
ghost use Rattle.graphql_rewrite.specs.kinds.Documents.{rewritten_definition, rewritten_document};

/// A rewriting that keeps the side conditions of each part keeps those of definitions and documents. Where there are
/// extensions it has to leave a directive where there is one.
pub fn side_conditions_are_kept()
    ensures definitions { (f : Rewriting) → Keeps f → (definition : DefinitionTree) →
        (IsTrue (is_extension definition.name) → LeavesSome f) →
        IsTrue (definition_kind.obeys definition) →
        IsTrue (definition_kind.obeys (rewritten_definition f definition)) }
    ensures documents { (f : Rewriting) → Keeps f → (document : List DefinitionTree) →
        (IsTrue (has_extension document) → LeavesSome f) →
        IsTrue (document_kind.obeys document) →
        IsTrue (document_kind.obeys (rewritten_document f document)) }
{}

/// The ready rewritings keep the side conditions of each part: so does that of variables where the values obey theirs. All
/// but the one that leaves out directives leave a directive where there is one.
pub fn ready_rewritings_keep_side_conditions()
    ensures renamed { (from : List ℕ) (to : NameText) →
        Keeps (renaming_fields from to) × LeavesSome (renaming_fields from to) }
    ensures added { (name : NameText) →
        Keeps (adding_field name) × LeavesSome (adding_field name) }
    ensures replaced { (values : List (NameText × ValueTree)) →
        IsTrue (list_all (λ named. value_obeys NonConst named.1) values) →
        Keeps (replacing_variables values) × LeavesSome (replacing_variables values) }
    ensures removed { (text : List ℕ) → Keeps (removing_directive text) }
{}
