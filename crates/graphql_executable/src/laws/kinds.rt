//! What the tokens of the layouts of parts derive.
ghost use Rattle.graphql_text.specs.parts.PrintedParts.{PrintedTokensDerive};
ghost use Rattle.graphql_executable.specs.kinds.Selections.{selection_set_form, selection_set_obeys, selection_set_shape};
ghost use Rattle.graphql_executable.specs.kinds.VariableDefinitions.{variable_definitions_form, variable_definitions_obey, variable_definitions_shape};

/// The words and strings of the layout of a part that obeys the side conditions derive it, before whatever follows.
pub fn printed_tokens_derive_the_tree()
    ensures variable_lists { PrintedTokensDerive variable_definitions_form
        variable_definitions_shape
        variable_definitions_obey }
    ensures selection_sets { PrintedTokensDerive selection_set_form (λ broken. selection_set_shape)
        selection_set_obeys }
{}
