//! Definitions in a short notation of AST JSON: as JSON they would fill a page each.
//!
//! A node is its kind and `;`, then its members, in `()`. A name is its text in `<>`, a selection set its selections in
//! `{}`, and `'` is a quotation mark. `@` is a directive with the value of the test, `#`, and `*` one with a
//! variable. `%` is a type, and `^` and `&` are locations.

/// What stands for parts of a row.
pub(crate) const PARTS: [(char, &str); 7] = [
    (
        '@',
        "'directives':[(Directive;'name':<d>,'arguments':[(Argument;'name':<a>,'value':#)])]",
    ),
    (
        '*',
        "'directives':[(Directive;'name':<d>,'arguments':[(Argument;'name':<a>,'value':(Variable;'name':<x>))])]",
    ),
    ('%', "'type':(NamedType;'name':<T>)"),
    ('{', "'selectionSet':(SelectionSet;'selections':["),
    ('}', "])"),
    ('^', "'loc':~\"start\":0,\"end\":40!"),
    ('&', "'loc':~\"start\":9,\"end\":11!"),
];

/// What stands for the characters of nodes.
pub(crate) const NOTATION: [(char, &str); 8] = [
    ('(', "{\"kind\":\""),
    (';', "\","),
    (')', "}"),
    ('<', "{\"kind\":\"Name\",\"value\":\""),
    ('>', "\"}"),
    ('\'', "\""),
    ('~', "{"),
    ('!', "}"),
];

/// A value for `#`, and a reserved enum value and a variable within another.
pub(crate) const ONE: &str = "(IntValue;'value':'1')";

pub(crate) const RESERVED: &str =
    "(ListValue;'values':[(IntValue;'value':'1'),(ObjectValue;'fields':[(ObjectField;'name':<k>,'value':(EnumValue;'value':'null'))])])";

pub(crate) const VARIABLE: &str =
    "(ListValue;'values':[(IntValue;'value':'1'),(ObjectValue;'fields':[(ObjectField;'name':<k>,'value':(Variable;'name':<x>))])])";

/// Definitions around a value, the path to it (in which `@` is that of a directive's value), and whether only constants may
/// stand there.
pub(crate) const AROUND: [(&str, &str, bool); 42] = [
    (
        "(OperationDefinition;'operation':'query',@,{(Field;'name':<f>)})",
        "@",
        false,
    ),
    (
        "(OperationDefinition;'operation':'query',\
         'variableDefinitions':[(VariableDefinition;'variable':(Variable;'name':<x>),%,'defaultValue':#)],{(Field;'name':<f>)})",
        "variableDefinitions[0].defaultValue",
        true,
    ),
    (
        "(OperationDefinition;'operation':'query',\
         'variableDefinitions':[(VariableDefinition;'variable':(Variable;'name':<x>),%,@)],{(Field;'name':<f>)})",
        "variableDefinitions[0].@",
        true,
    ),
    (
        "(FragmentDefinition;'name':<f>,'typeCondition':(NamedType;'name':<T>),@,{(Field;'name':<f>)})",
        "@",
        false,
    ),
    (
        "(OperationDefinition;'operation':'query',{(Field;'name':<f>,'arguments':[(Argument;'name':<a>,'value':#)])})",
        "selectionSet.selections[0].arguments[0].value",
        false,
    ),
    (
        "(OperationDefinition;'operation':'query',{(Field;'name':<f>,{(Field;'name':<f>),(Field;'name':<g>,@)})})",
        "selectionSet.selections[0].selectionSet.selections[1].@",
        false,
    ),
    (
        "(FragmentDefinition;'name':<f>,'typeCondition':(NamedType;'name':<T>),\
         {(InlineFragment;{(Field;'name':<f>),(FragmentSpread;'name':<g>,@)})})",
        "selectionSet.selections[0].selectionSet.selections[1].@",
        false,
    ),
    (
        "(FragmentDefinition;'name':<f>,'typeCondition':(NamedType;'name':<T>),{(InlineFragment;@,{(Field;'name':<f>)})})",
        "selectionSet.selections[0].@",
        false,
    ),
    (
        "(DirectiveDefinition;'name':<d>,'arguments':[(InputValueDefinition;'name':<a>,%,'defaultValue':#)],'locations':[<FIELD>])",
        "arguments[0].defaultValue",
        true,
    ),
    (
        "(DirectiveDefinition;'name':<d>,'arguments':[(InputValueDefinition;'name':<a>,%,@)],'locations':[<FIELD>])",
        "arguments[0].@",
        true,
    ),
    (
        "(SchemaDefinition;@,'operationTypes':[(OperationTypeDefinition;'operation':'query',%)])",
        "@",
        true,
    ),
    ("(SchemaExtension;@)", "@", true),
    ("(ScalarTypeDefinition;'name':<A>,@)", "@", true),
    ("(ScalarTypeExtension;'name':<A>,@)", "@", true),
    ("(ObjectTypeDefinition;'name':<A>,@)", "@", true),
    ("(ObjectTypeExtension;'name':<A>,@)", "@", true),
    ("(InterfaceTypeDefinition;'name':<A>,@)", "@", true),
    ("(InterfaceTypeExtension;'name':<A>,@)", "@", true),
    ("(UnionTypeDefinition;'name':<A>,@)", "@", true),
    ("(UnionTypeExtension;'name':<A>,@)", "@", true),
    ("(EnumTypeDefinition;'name':<A>,@)", "@", true),
    ("(EnumTypeExtension;'name':<A>,@)", "@", true),
    ("(InputObjectTypeDefinition;'name':<A>,@)", "@", true),
    ("(InputObjectTypeExtension;'name':<A>,@)", "@", true),
    (
        "(ObjectTypeDefinition;'name':<A>,'fields':[(FieldDefinition;'name':<f>,%,@)])",
        "fields[0].@",
        true,
    ),
    (
        "(ObjectTypeDefinition;'name':<A>,'fields':[(FieldDefinition;'name':<f>,\
         'arguments':[(InputValueDefinition;'name':<a>,%,'defaultValue':#)],%)])",
        "fields[0].arguments[0].defaultValue",
        true,
    ),
    (
        "(ObjectTypeDefinition;'name':<A>,'fields':[(FieldDefinition;'name':<f>,'arguments':[(InputValueDefinition;'name':<a>,%,@)],%)])",
        "fields[0].arguments[0].@",
        true,
    ),
    (
        "(ObjectTypeExtension;'name':<A>,'fields':[(FieldDefinition;'name':<f>,%,@)])",
        "fields[0].@",
        true,
    ),
    (
        "(ObjectTypeExtension;'name':<A>,'fields':[(FieldDefinition;'name':<f>,\
         'arguments':[(InputValueDefinition;'name':<a>,%,'defaultValue':#)],%)])",
        "fields[0].arguments[0].defaultValue",
        true,
    ),
    (
        "(ObjectTypeExtension;'name':<A>,'fields':[(FieldDefinition;'name':<f>,'arguments':[(InputValueDefinition;'name':<a>,%,@)],%)])",
        "fields[0].arguments[0].@",
        true,
    ),
    (
        "(InterfaceTypeDefinition;'name':<A>,'fields':[(FieldDefinition;'name':<f>,%,@)])",
        "fields[0].@",
        true,
    ),
    (
        "(InterfaceTypeDefinition;'name':<A>,'fields':[(FieldDefinition;'name':<f>,\
         'arguments':[(InputValueDefinition;'name':<a>,%,'defaultValue':#)],%)])",
        "fields[0].arguments[0].defaultValue",
        true,
    ),
    (
        "(InterfaceTypeDefinition;'name':<A>,'fields':[(FieldDefinition;'name':<f>,'arguments':[(InputValueDefinition;'name':<a>,%,@)],%)])",
        "fields[0].arguments[0].@",
        true,
    ),
    (
        "(InterfaceTypeExtension;'name':<A>,'fields':[(FieldDefinition;'name':<f>,%,@)])",
        "fields[0].@",
        true,
    ),
    (
        "(InterfaceTypeExtension;'name':<A>,'fields':[(FieldDefinition;'name':<f>,\
         'arguments':[(InputValueDefinition;'name':<a>,%,'defaultValue':#)],%)])",
        "fields[0].arguments[0].defaultValue",
        true,
    ),
    (
        "(InterfaceTypeExtension;'name':<A>,'fields':[(FieldDefinition;'name':<f>,'arguments':[(InputValueDefinition;'name':<a>,%,@)],%)])",
        "fields[0].arguments[0].@",
        true,
    ),
    (
        "(EnumTypeDefinition;'name':<A>,'values':[(EnumValueDefinition;'name':<B>),(EnumValueDefinition;'name':<C>,@)])",
        "values[1].@",
        true,
    ),
    (
        "(EnumTypeExtension;'name':<A>,'values':[(EnumValueDefinition;'name':<B>),(EnumValueDefinition;'name':<C>,@)])",
        "values[1].@",
        true,
    ),
    (
        "(InputObjectTypeDefinition;'name':<A>,'fields':[(InputValueDefinition;'name':<f>,%,'defaultValue':#)])",
        "fields[0].defaultValue",
        true,
    ),
    (
        "(InputObjectTypeDefinition;'name':<A>,'fields':[(InputValueDefinition;'name':<f>,%,@)])",
        "fields[0].@",
        true,
    ),
    (
        "(InputObjectTypeExtension;'name':<A>,'fields':[(InputValueDefinition;'name':<f>,%,'defaultValue':#)])",
        "fields[0].defaultValue",
        true,
    ),
    (
        "(InputObjectTypeExtension;'name':<A>,'fields':[(InputValueDefinition;'name':<f>,%,@)])",
        "fields[0].@",
        true,
    ),
];

/// Definitions, and what is said of them: of one flaw, of the first of several (with members in another order than they are
/// printed in), and of flaws in nodes that tell their locations.
pub(crate) const FLAWED: [(&str, &str); 39] = [
    ("", "at the root: a document without a definition"),
    (
        "(OperationDefinition;'operation':'query',{})",
        "at `definitions[0].selectionSet`: an empty selection set",
    ),
    (
        "(OperationDefinition;'operation':'query','name':<q>,{})",
        "at `definitions[0].selectionSet`: an empty selection set: `q`",
    ),
    (
        "(FragmentDefinition;'name':<f>,'typeCondition':(NamedType;'name':<T>),{})",
        "at `definitions[0].selectionSet`: an empty selection set: `f`",
    ),
    (
        "(OperationDefinition;'operation':'query','name':<q>,{(Field;'name':<f>),(InlineFragment;{})})",
        "at `definitions[0].selectionSet.selections[1].selectionSet`: an empty selection set",
    ),
    (
        "(OperationDefinition;'operation':'query',{(Field;'name':<f>,{(InlineFragment;'typeCondition':(NamedType;'name':<T>),{})})})",
        "at `definitions[0].selectionSet.selections[0].selectionSet.selections[0].selectionSet`: an empty selection set: `T`",
    ),
    (
        "(FragmentDefinition;'name':<on>,'typeCondition':(NamedType;'name':<T>),{(Field;'name':<f>)})",
        "at `definitions[0].name.value`: a fragment named `on`: `on`",
    ),
    (
        "(OperationDefinition;'operation':'query',{(Field;'name':<f>,{(Field;'name':<f>),(FragmentSpread;'name':<on>)})})",
        "at `definitions[0].selectionSet.selections[0].selectionSet.selections[1].name.value`: a fragment named `on`: `on`",
    ),
    (
        "(EnumTypeDefinition;'name':<A>,'values':[(EnumValueDefinition;'name':<B>),(EnumValueDefinition;'name':<true>)])",
        "at `definitions[0].values[1].name.value`: a reserved enum value: `true`",
    ),
    (
        "(EnumTypeDefinition;'name':<A>,'values':[(EnumValueDefinition;'name':<false>)])",
        "at `definitions[0].values[0].name.value`: a reserved enum value: `false`",
    ),
    (
        "(EnumTypeExtension;'name':<A>,'values':[(EnumValueDefinition;'name':<null>)])",
        "at `definitions[0].values[0].name.value`: a reserved enum value: `null`",
    ),
    (
        "(DirectiveDefinition;'name':<d>,'locations':[])",
        "at `definitions[0]`: a directive definition without a location: `d`",
    ),
    (
        "(SchemaDefinition;'operationTypes':[])",
        "at `definitions[0]`: a schema definition without a root operation",
    ),
    (
        "(SchemaDefinition;'directives':[(Directive;'name':<d>)])",
        "at `definitions[0]`: a schema definition without a root operation",
    ),
    (
        "(SchemaExtension;'operationTypes':[])",
        "at `definitions[0]`: an extension that adds nothing",
    ),
    (
        "(ScalarTypeExtension;'name':<A>)",
        "at `definitions[0]`: an extension that adds nothing: `A`",
    ),
    (
        "(ObjectTypeExtension;'name':<A>,'interfaces':[],'directives':[],'fields':[])",
        "at `definitions[0]`: an extension that adds nothing: `A`",
    ),
    (
        "(InterfaceTypeExtension;'name':<A>,'directives':null)",
        "at `definitions[0]`: an extension that adds nothing: `A`",
    ),
    (
        "(UnionTypeExtension;'name':<A>,'types':[])",
        "at `definitions[0]`: an extension that adds nothing: `A`",
    ),
    (
        "(EnumTypeExtension;'name':<A>,'values':[])",
        "at `definitions[0]`: an extension that adds nothing: `A`",
    ),
    (
        "(InputObjectTypeExtension;'name':<A>,'fields':[])",
        "at `definitions[0]`: an extension that adds nothing: `A`",
    ),
    (
        "(FragmentDefinition;'name':<on>,'typeCondition':(NamedType;'name':<T>),@,{})",
        "at `definitions[0].name.value`: a fragment named `on`: `on`",
    ),
    (
        "(OperationDefinition;'operation':'query',{},@)",
        "at `definitions[0].directives[0].arguments[0].value.value`: a reserved enum value: `true`",
    ),
    (
        "(OperationDefinition;'operation':'query',{(InlineFragment;{})},\
         'variableDefinitions':[(VariableDefinition;'variable':(Variable;'name':<x>),%,@,'defaultValue':(Variable;'name':<y>))])",
        "at `definitions[0].variableDefinitions[0].defaultValue`: a variable where only constants may stand: `y`",
    ),
    (
        "(OperationDefinition;'operation':'query',{(Field;'name':<f>,@,'arguments':[(Argument;'name':<a>,'value':#)])})",
        "at `definitions[0].selectionSet.selections[0].arguments[0].value.value`: a reserved enum value: `true`",
    ),
    (
        "(OperationDefinition;'operation':'query',{(InlineFragment;{(Field;'name':<f>),(InlineFragment;{})}),(InlineFragment;{})})",
        "at `definitions[0].selectionSet.selections[0].selectionSet.selections[1].selectionSet`: an empty selection set",
    ),
    (
        "(OperationDefinition;'operation':'query',{(FragmentSpread;@,'name':<on>)})",
        "at `definitions[0].selectionSet.selections[0].name.value`: a fragment named `on`: `on`",
    ),
    (
        "(DirectiveDefinition;'name':<d>,'locations':[],'arguments':[(InputValueDefinition;@,'name':<a>,%,'defaultValue':#)])",
        "at `definitions[0].arguments[0].defaultValue.value`: a reserved enum value: `true`",
    ),
    (
        "(SchemaDefinition;'operationTypes':[],@)",
        "at `definitions[0].directives[0].arguments[0].value.value`: a reserved enum value: `true`",
    ),
    (
        "(EnumTypeDefinition;'values':[(EnumValueDefinition;'name':<true>)],@,'name':<A>)",
        "at `definitions[0].directives[0].arguments[0].value.value`: a reserved enum value: `true`",
    ),
    (
        "(EnumTypeDefinition;'name':<A>,'values':[(EnumValueDefinition;@,'name':<true>)])",
        "at `definitions[0].values[0].name.value`: a reserved enum value: `true`",
    ),
    (
        "(ObjectTypeDefinition;'fields':[(FieldDefinition;@,'name':<f>,'arguments':[(InputValueDefinition;'name':<a>,%,@)],%)],'name':<A>)",
        "at `definitions[0].fields[0].arguments[0].directives[0].arguments[0].value.value`: a reserved enum value: `true`",
    ),
    (
        "(FragmentDefinition;'name':<f>,'typeCondition':(NamedType;'name':<T>),*,{(Field;'name':<f>)}),\
         (OperationDefinition;'operation':'query',{(Field;'name':<f>,*)}),(ScalarTypeDefinition;'name':<B>,*),(ScalarTypeExtension;'name':<B>)",
        "at `definitions[2].directives[0].arguments[0].value`: a variable where only constants may stand: `x`",
    ),
    (
        "(ScalarTypeExtension;'name':<A>),(ScalarTypeExtension;'name':<B>)",
        "at `definitions[0]`: an extension that adds nothing: `A`",
    ),
    (
        "(FragmentDefinition;^,'name':(Name;'value':'on',&),'typeCondition':(NamedType;'name':<T>),{(Field;'name':<f>)})",
        "at `definitions[0].name.value`, in a node from 9 to 11: a fragment named `on`: `on`",
    ),
    (
        "(FragmentDefinition;^,'name':<on>,'typeCondition':(NamedType;'name':<T>),{(Field;'name':<f>)})",
        "at `definitions[0].name.value`, in a node from 0 to 40: a fragment named `on`: `on`",
    ),
    (
        "(FragmentDefinition;'name':<f>,'typeCondition':(NamedType;'name':<T>),'selectionSet':(SelectionSet;^,'selections':[]))",
        "at `definitions[0].selectionSet`, in a node from 0 to 40: an empty selection set: `f`",
    ),
    (
        "(OperationDefinition;'operation':'query',^,{(Field;'name':<f>,'arguments':[(Argument;'name':<a>,'value':(EnumValue;'value':'null',&))])})",
        "at `definitions[0].selectionSet.selections[0].arguments[0].value.value`, in a node from 9 to 11: a reserved enum value: `null`",
    ),
    (
        "(ScalarTypeExtension;&,'name':<A>)",
        "at `definitions[0]`, in a node from 9 to 11: an extension that adds nothing: `A`",
    ),
];

/// Definitions without a flaw.
pub(crate) const WELL_FORMED: [&str; 11] = [
    "(OperationDefinition;'operation':'query','name':<on>,@,{(Field;'alias':<on>,'name':<true>,\
     'arguments':[(Argument;'name':<null>,'value':#)],{})})",
    "(FragmentDefinition;'name':<onto>,'typeCondition':(NamedType;'name':<on>),{(FragmentSpread;'name':<ON>)})",
    "(EnumTypeDefinition;'name':<true>,'values':[(EnumValueDefinition;'name':<True>),(EnumValueDefinition;'name':<on>)])",
    "(ScalarTypeDefinition;'name':<A>,'directives':[(Directive;'name':<null>,\
     'arguments':[(Argument;'name':<a>,'value':(EnumValue;'value':'nullable'))])])",
    "(SchemaExtension;'operationTypes':[(OperationTypeDefinition;'operation':'query',%)])",
    "(SchemaExtension;'directives':[(Directive;'name':<d>)])",
    "(ObjectTypeExtension;'name':<A>,'interfaces':[(NamedType;'name':<T>)])",
    "(InterfaceTypeExtension;'name':<A>,'fields':[(FieldDefinition;'name':<f>,%)])",
    "(UnionTypeExtension;'name':<A>,'types':[(NamedType;'name':<T>)])",
    "(EnumTypeExtension;'name':<A>,'values':[(EnumValueDefinition;'name':<B>)])",
    "(InputObjectTypeExtension;'name':<A>,'fields':[(InputValueDefinition;'name':<f>,%)])",
];
