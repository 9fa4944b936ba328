//! What the tokens of the layouts of parts derive.
ghost use Rattle.std.specs.Prelude.{true};
ghost use Rattle.graphql_text.specs.parts.Descriptions.{description_form, description_shape};
ghost use Rattle.graphql_text.specs.parts.PrintedParts.{PrintedTokensDerive};
ghost use Rattle.graphql_values.specs.kinds.Arguments.{argument_form, argument_obeys, argument_shape, arguments_form, arguments_obey, arguments_shape};
ghost use Rattle.graphql_values.specs.kinds.ArgumentsDefinitions.{arguments_definition_form, arguments_definition_obeys, arguments_definition_shape};
ghost use Rattle.graphql_values.specs.kinds.DefaultValues.{default_value_form, default_value_obeys, default_value_shape};
ghost use Rattle.graphql_values.specs.kinds.Directives.{directive_form, directive_obeys, directive_shape, directives_form, directives_obey, directives_shape};
ghost use Rattle.graphql_values.specs.kinds.OperationTypes.{operation_type_form, operation_type_shape};
ghost use Rattle.graphql_values.specs.kinds.Values.{Constness, value_form, value_obeys, value_shape};

/// The words and strings of the layout of a part that obeys the side conditions derive it, before whatever follows, in
/// a const context too.
pub fn printed_tokens_derive_the_tree()
    ensures values { (c : Constness) →
        PrintedTokensDerive (value_form c) value_shape (value_obeys c) }
    ensures arguments { (c : Constness) →
        PrintedTokensDerive (argument_form c) (λ broken. argument_shape) (argument_obeys c) }
    ensures argument_lists { (c : Constness) →
        PrintedTokensDerive (arguments_form c) (λ broken. arguments_shape) (arguments_obey c) }
    ensures directives { (c : Constness) →
        PrintedTokensDerive (directive_form c) (λ broken. directive_shape) (directive_obeys c) }
    ensures directive_lists { (c : Constness) →
        PrintedTokensDerive (directives_form c) (λ broken. directives_shape) (directives_obey c) }
    ensures descriptions { PrintedTokensDerive description_form (λ broken. description_shape)
        (λ description. true) }
    ensures default_values { PrintedTokensDerive default_value_form default_value_shape
        default_value_obeys }
    ensures arguments_definitions { PrintedTokensDerive arguments_definition_form
        arguments_definition_shape
        arguments_definition_obeys }
    ensures operation_types { PrintedTokensDerive operation_type_form
        (λ broken. operation_type_shape) (λ type. true) }
{}
