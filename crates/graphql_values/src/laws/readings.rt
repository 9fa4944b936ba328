//! Texts that are read, and texts that are not. Not all of the first are printed of any tree.
ghost use Rattle.std.specs.Prelude.{[], ◌∷◌, ◌++◌, codes, true, false, ◌≡◌, refl};
ghost use Rattle.graphql_text.specs.examples.Tables.{AreRead, AreRefused};
ghost use Rattle.graphql_text.specs.kinds.Reading.{ReadsAs};
ghost use Rattle.graphql_values.specs.kinds.DirectiveDefinitions.{directive_definition_kind};
ghost use Rattle.graphql_values.specs.kinds.Directives.{directive_kind, directives_kind};
ghost use Rattle.graphql_values.specs.examples.ValueExamples.{bare_directive, described_input, directive_everywhere, directive_with_variable, int, list, list_of_ints, one_field, repeatable_directive, repeated_fields, string, variable_named};
ghost use Rattle.graphql_values.specs.kinds.InputValueDefinitions.{input_value_definition_kind};
ghost use Rattle.graphql_values.specs.kinds.OperationTypes as operation;
ghost use Rattle.graphql_values.specs.kinds.OperationTypes.{operation_type_form};
ghost use Rattle.graphql_values.specs.kinds.TypeReferences.{type_kind};
ghost use Rattle.graphql_values.specs.kinds.Values.{Const, ValueTree, boolean_value, null_value, value_form, value_kind};

/// Texts that are read, and as what.
pub fn worked_readings()
    ensures values { AreRead value_kind.form
        ((
          codes "[1 2,,3 #c\n]",
          list (int (codes "1") refl ∷ int (codes "2") refl ∷ int (codes "3") refl ∷ []),
        )
        ∷ (codes "\"\\u0041\\/\"", string (codes "A/") refl)
        ∷ (codes "\"\"\"\n\ta\n\"\"\"", string (codes "a") refl)
        ∷ (codes "true", boolean_value true) ∷ (codes "{a: 1, a: 2}", repeated_fields)
        ∷ (
          codes "[$a, null, false]",
          list (variable_named (codes "a") refl ∷ null_value ∷ boolean_value false ∷ []),
        )
        ∷ (codes "[1-2]", list (int (codes "1") refl ∷ int (codes "-2") refl ∷ []))
        ∷ (codes "{,a,:,1,}", one_field)
        ∷ (0xFEFF ∷ codes "$ #x\ra", variable_named (codes "a") refl) ∷ []) }
    ensures boolean_alone { (value : ValueTree) → ReadsAs value_kind.form (codes "true") value →
        value ≡ boolean_value true }
    ensures types { AreRead type_kind.form ((codes "[Int!]!", list_of_ints) ∷ []) }
    ensures directives { AreRead directive_kind.form
        ((codes "@a(x: $v)", directive_with_variable) ∷ []) }
    ensures directive_lists { AreRead directives_kind.form
        ((codes " @a @b", bare_directive (codes "a") refl ∷ bare_directive (codes "b") refl ∷ [])
        ∷ (codes "#", []) ∷ ([], []) ∷ []) }
    ensures input_value_definitions { AreRead input_value_definition_kind.form
        ((codes "\"d\" a: [Int!] = [1] @x", described_input) ∷ []) }
    ensures directive_definition { ReadsAs directive_definition_kind.form
        (codes "directive @d(a: Int @x, b: Int) repeatable on | FIELD | QUERY")
        repeatable_directive }
    ensures directive_definitions { AreRead directive_definition_kind.form
        ((
          codes "directive @d on QUERY | MUTATION | SUBSCRIPTION | FIELD | FRAGMENT_DEFINITION "
              ++ codes "| FRAGMENT_SPREAD | INLINE_FRAGMENT | VARIABLE_DEFINITION | SCHEMA "
              ++ codes "| SCALAR | OBJECT | FIELD_DEFINITION | ARGUMENT_DEFINITION | INTERFACE "
              ++ codes "| UNION | ENUM | ENUM_VALUE | INPUT_OBJECT | INPUT_FIELD_DEFINITION",
          directive_everywhere,
        ) ∷ []) }
    ensures operation_types { AreRead operation_type_form
        ((codes "query", operation.Query) ∷ (codes "mutation", operation.Mutation)
        ∷ (codes "subscription", operation.Subscription) ∷ []) }
{}

/// Strings that are read, and their values: each line terminator of a block string is a line feed, its first line
/// keeps its indentation, and blank lines are dropped from its front and its end. Two strings may stand side by side.
pub fn worked_strings()
    ensures { AreRead value_kind.form
        ((codes "\"\"", string [] refl) ∷ (codes "\"\"\"\"\"\"", string [] refl)
        ∷ (codes "\"\"\"\r\n  a\r    b\n  \"\"\"", string (codes "a\n  b") refl)
        ∷ (codes "\"\"\"  a\"\"\"", string (codes "  a") refl)
        ∷ (codes "\"\"\"\\\"\"\"\"\"\"", string (codes "\"\"\"") refl)
        ∷ (codes "\"\\ud7ff\\uE000\"", string (0xD7FF ∷ 0xE000 ∷ []) refl)
        ∷ (codes "\"\"\"\n\n  a\n\n b\n \n\"\"\"", string (codes " a\n\nb") refl)
        ∷ (codes "[\"a\"\"b\"]", list (string (codes "a") refl ∷ string (codes "b") refl ∷ []))
        ∷ (
          codes "[\"a\"\"\"\"b\"\"\"]",
          list (string (codes "a") refl ∷ string (codes "b") refl ∷ []),
        ) ∷ []) }
{}

/// Texts that are read as no value: an exponent without digits, a leading zero, a string and a list that do not end,
/// a field without a colon, two `$`, and a variable in a const context; as no directive: one with brackets and no
/// argument; as no input value definition: one with a variable as its default value; as no directive definition: one
/// without a location, and one with a word that is no location.
pub fn refused_readings()
    ensures values { AreRefused value_kind.form
        (codes "1e" ∷ codes "01" ∷ codes "\"a" ∷ codes "[1 #c]" ∷ codes "{a 1}"
        ∷ codes "$ $a" ∷ []) }
    ensures directives { AreRefused directive_kind.form (codes "@d()" ∷ []) }
    ensures constants { AreRefused (value_form Const) (codes "$a" ∷ []) }
    ensures input_value_definitions { AreRefused input_value_definition_kind.form
        (codes "a: Int = $x" ∷ []) }
    ensures directive_definitions { AreRefused directive_definition_kind.form
        (codes "directive @d" ∷ codes "directive @d on Field" ∷ []) }
{}

/// Numbers that are not read: without a digit where one has to stand, with a leading zero, and with a letter, `_` or
/// `.` right after them.
pub fn refused_numbers()
    ensures { AreRefused value_kind.form
        (codes "1." ∷ codes "1.5e" ∷ codes "00" ∷ codes "1a" ∷ codes "1_" ∷ codes "0x1" ∷ codes "-"
        ∷ codes "1.." ∷ []) }
{}

/// Strings that are not read: with a quote too few or too many, with a line terminator in quotes, and with an escape
/// that stands for no character.
pub fn refused_strings()
    ensures { AreRefused value_kind.form
        (codes "\"\"\"\"" ∷ codes "\"\"\"\"\"" ∷ codes "\"a\nb\"" ∷ codes "\"\\u{41}\""
        ∷ codes "\"\\uD83D\\uDE00\"" ∷ codes "\"\"\"a\"\"\"\"" ∷ codes "\"\"\"a\\\"\"\"" ∷ []) }
{}
