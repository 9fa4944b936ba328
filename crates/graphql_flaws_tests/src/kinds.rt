//! Each condition once in each kind that has it, at the root.
use crate::checks::check;
use graphql_ast::ast::{
    Definition, Directive, DirectiveDefinition, DirectiveList, Document, EnumTypeDefinition,
    EnumTypeExtension, EnumValueDefinition, Field, FieldDefinition, FragmentDefinition,
    FragmentSpread, InlineFragment, InputObjectTypeDefinition, InputObjectTypeExtension,
    InputValueDefinition, InterfaceTypeDefinition, InterfaceTypeExtension, ObjectTypeDefinition,
    ObjectTypeExtension, OperationDefinition, ScalarTypeDefinition, ScalarTypeExtension,
    SchemaDefinition, SchemaExtension, Selection, UnionTypeDefinition, UnionTypeExtension, Value,
    VariableDefinition,
};
use graphql_ast_json::AstJson;
use graphql_flaws::FindFlaws;
use std::alloc::Global;
use std::process::Abort;

/// A tree in the notation, and its flaws.
type Row = (&'static str, &'static [&'static str]);

fn check_rows<T: AstJson + FindFlaws + Drop>(rt: &impl Abort, alloc: Global, rows: &[Row]) {
    for (row, wanted) in rows {
        check::<T>(rt, alloc, row, wanted);
    }
}

/// What is told of the directive `@`: of a reserved value, and where only constants may stand of a variable too.
const RESERVED: &str =
    "at `directives[0].arguments[0].value.values[0].value`: a reserved enum value: `null`";

const VARIABLE: &str =
    "at `directives[0].arguments[0].value.values[1].fields[0].value`: a variable where only constants may stand: `x`";

const CONSTANT: [&str; 2] = [RESERVED, VARIABLE];

/// What is told of the default value `#`, and of the directive behind it.
const DEFAULT: [&str; 4] = [
    "at `defaultValue.values[0].value`: a reserved enum value: `null`",
    "at `defaultValue.values[1].fields[0].value`: a variable where only constants may stand: `x`",
    RESERVED,
    VARIABLE,
];

/// What is told of an extension of `A` without anything.
const NOTHING: [&str; 1] = ["at the root: an extension that adds nothing: `A`"];

// VALUES AND DIRECTIVES

const VALUES: [Row; 4] = [
    (
        "(EnumValue;'value':'true')",
        &["at `value`: a reserved enum value: `true`"],
    ),
    ("(Variable;'name':<x>)", &[]),
    (
        "#",
        &["at `values[0].value`: a reserved enum value: `null`"],
    ),
    (
        "(ObjectValue;'fields':[(ObjectField;'name':<a>,'value':(NullValue;'loc':null)),(ObjectField;'name':<b>,'value':#)])",
        &["at `fields[1].value.values[0].value`: a reserved enum value: `null`"],
    ),
];

const DIRECTIVE: Row = (
    "(Directive;'name':<d>,'arguments':[(Argument;'name':<a>,'value':#)])",
    &["at `arguments[0].value.values[0].value`: a reserved enum value: `null`"],
);

const DIRECTIVES: Row = (
    "[(Directive;'name':<d>),(Directive;'name':<d>,'arguments':[(Argument;'name':<a>,'value':#)])]",
    &["at `[1].arguments[0].value.values[0].value`: a reserved enum value: `null`"],
);

const INPUT_VALUE: Row = (
    "(InputValueDefinition;'name':<a>,%,'defaultValue':#,@)",
    &DEFAULT,
);

const DIRECTIVE_DEFINITION: Row = (
    "(DirectiveDefinition;'name':<d>,'locations':[])",
    &["at the root: a directive definition without a location: `d`"],
);

// EXECUTABLE KINDS

const FIELD: Row = (
    "(Field;'name':<f>,'arguments':[(Argument;'name':<a>,'value':#)],@,{(FragmentSpread;'name':<on>)})",
    &[
        "at `arguments[0].value.values[0].value`: a reserved enum value: `null`",
        RESERVED,
        "at `selectionSet.selections[0].name.value`: a fragment named `on`: `on`",
    ],
);

const SPREAD: Row = (
    "(FragmentSpread;'name':<on>,@)",
    &["at `name.value`: a fragment named `on`: `on`", RESERVED],
);

const INLINE: Row = (
    "(InlineFragment;'typeCondition':(NamedType;'name':<T>),@,{})",
    &[RESERVED, "at `selectionSet`: an empty selection set: `T`"],
);

const VARIABLE_DEFINITION: Row = (
    "(VariableDefinition;'variable':(Variable;'name':<v>),%,'defaultValue':#,@)",
    &DEFAULT,
);

const OPERATION: Row = (
    "(OperationDefinition;'operation':'query','name':<Q>,\
     'variableDefinitions':[(VariableDefinition;'variable':(Variable;'name':<v>),%,'defaultValue':(Variable;'name':<w>))],@,{})",
    &[
        "at `variableDefinitions[0].defaultValue`: a variable where only constants may stand: `w`",
        RESERVED,
        "at `selectionSet`: an empty selection set: `Q`",
    ],
);

const FRAGMENT: Row = (
    "(FragmentDefinition;'name':<on>,'typeCondition':(NamedType;'name':<T>),@,{})",
    &[
        "at `name.value`: a fragment named `on`: `on`",
        RESERVED,
        "at `selectionSet`: an empty selection set: `on`",
    ],
);

fn check_values(rt: &impl Abort, alloc: Global) {
    check_rows::<Value>(rt, alloc, &VALUES);
    check_rows::<Directive>(rt, alloc, &[DIRECTIVE]);
    check_rows::<DirectiveList>(rt, alloc, &[DIRECTIVES]);
    check_rows::<InputValueDefinition>(rt, alloc, &[INPUT_VALUE]);
    check_rows::<DirectiveDefinition>(rt, alloc, &[DIRECTIVE_DEFINITION]);
}

fn check_selections(rt: &impl Abort, alloc: Global) {
    check_rows::<Field>(rt, alloc, &[FIELD]);
    check_rows::<FragmentSpread>(rt, alloc, &[SPREAD]);
    check_rows::<InlineFragment>(rt, alloc, &[INLINE]);
    check_rows::<Selection>(rt, alloc, &[FIELD, SPREAD, INLINE]);
}

fn check_executable_definitions(rt: &impl Abort, alloc: Global) {
    check_rows::<VariableDefinition>(rt, alloc, &[VARIABLE_DEFINITION]);
    check_rows::<OperationDefinition>(rt, alloc, &[OPERATION]);
    check_rows::<FragmentDefinition>(rt, alloc, &[FRAGMENT]);
}

#[test]
fn flaws_of_values_and_executable_kinds(rt: HostRuntime) {
    check_values(&rt, rt.alloc());
    check_selections(&rt, rt.alloc());
    check_executable_definitions(&rt, rt.alloc());
}

// DEFINITIONS AND EXTENSIONS

const DOCUMENT: Row = (
    "(Document;'definitions':[])",
    &["at the root: a document without a definition"],
);

const SCHEMA: Row = (
    "(SchemaDefinition;@,'operationTypes':[])",
    &[
        RESERVED,
        VARIABLE,
        "at the root: a schema definition without a root operation",
    ],
);

const ENUM_VALUE: Row = (
    "(EnumValueDefinition;'name':<false>,@)",
    &[
        "at `name.value`: a reserved enum value: `false`",
        RESERVED,
        VARIABLE,
    ],
);

const FIELD_DEFINITION: Row = (
    "(FieldDefinition;'name':<f>,'arguments':[(InputValueDefinition;'name':<a>,%,'defaultValue':(Variable;'name':<w>))],%,@)",
    &[
        "at `arguments[0].defaultValue`: a variable where only constants may stand: `w`",
        RESERVED,
        VARIABLE,
    ],
);

const SCALAR: Row = ("(ScalarTypeDefinition;'name':<A>,@)", &CONSTANT);

const UNION: Row = ("(UnionTypeDefinition;'name':<A>,@)", &CONSTANT);

/// What is told of a field with the directive, in a type or an extension with it.
const OF_FIELDS: [&str; 4] = [
    RESERVED,
    VARIABLE,
    "at `fields[0].directives[0].arguments[0].value.values[0].value`: a reserved enum value: `null`",
    "at `fields[0].directives[0].arguments[0].value.values[1].fields[0].value`: a variable where only constants may stand: `x`",
];

const OBJECT: Row = (
    "(ObjectTypeDefinition;'name':<A>,@,'fields':[(FieldDefinition;'name':<f>,%,@)])",
    &OF_FIELDS,
);

const INTERFACE: Row = (
    "(InterfaceTypeDefinition;'name':<A>,@,'fields':[(FieldDefinition;'name':<f>,%,@)])",
    &OF_FIELDS,
);

const ENUM: Row = (
    "(EnumTypeDefinition;'name':<A>,@,'values':[(EnumValueDefinition;'name':<B>),(EnumValueDefinition;'name':<true>)])",
    &[
        RESERVED,
        VARIABLE,
        "at `values[1].name.value`: a reserved enum value: `true`",
    ],
);

const INPUT: Row = (
    "(InputObjectTypeDefinition;'name':<A>,@,'fields':[(InputValueDefinition;'name':<a>,%,'defaultValue':(Variable;'name':<w>))])",
    &[
        RESERVED,
        VARIABLE,
        "at `fields[0].defaultValue`: a variable where only constants may stand: `w`",
    ],
);

const SCHEMA_EXTENSIONS: [Row; 2] = [
    (
        "(SchemaExtension;'directives':[])",
        &["at the root: an extension that adds nothing"],
    ),
    ("(SchemaExtension;@)", &CONSTANT),
];

const SCALAR_EXTENSIONS: [Row; 2] = [
    ("(ScalarTypeExtension;'name':<A>)", &NOTHING),
    ("(ScalarTypeExtension;'name':<A>,@)", &CONSTANT),
];

const OBJECT_EXTENSIONS: [Row; 2] = [
    ("(ObjectTypeExtension;'name':<A>)", &NOTHING),
    (
        "(ObjectTypeExtension;'name':<A>,@,'fields':[(FieldDefinition;'name':<f>,%,@)])",
        &OF_FIELDS,
    ),
];

const INTERFACE_EXTENSIONS: [Row; 2] = [
    ("(InterfaceTypeExtension;'name':<A>)", &NOTHING),
    (
        "(InterfaceTypeExtension;'name':<A>,@,'fields':[(FieldDefinition;'name':<f>,%,@)])",
        &OF_FIELDS,
    ),
];

const UNION_EXTENSIONS: [Row; 2] = [
    ("(UnionTypeExtension;'name':<A>)", &NOTHING),
    ("(UnionTypeExtension;'name':<A>,@)", &CONSTANT),
];

const ENUM_EXTENSIONS: [Row; 3] = [
    ("(EnumTypeExtension;'name':<A>)", &NOTHING),
    ("(EnumTypeExtension;'name':<A>,@)", &CONSTANT),
    (
        "(EnumTypeExtension;'name':<A>,'values':[(EnumValueDefinition;'name':<B>),(EnumValueDefinition;'name':<true>)])",
        &["at `values[1].name.value`: a reserved enum value: `true`"],
    ),
];

const INPUT_EXTENSIONS: [Row; 3] = [
    ("(InputObjectTypeExtension;'name':<A>)", &NOTHING),
    ("(InputObjectTypeExtension;'name':<A>,@)", &CONSTANT),
    (
        "(InputObjectTypeExtension;'name':<A>,'fields':[(InputValueDefinition;'name':<a>,%,'defaultValue':(Variable;'name':<w>))])",
        &["at `fields[0].defaultValue`: a variable where only constants may stand: `w`"],
    ),
];

fn check_parts(rt: &impl Abort, alloc: Global) {
    check_rows::<Document>(rt, alloc, &[DOCUMENT]);
    check_rows::<SchemaDefinition>(rt, alloc, &[SCHEMA]);
    check_rows::<Definition>(rt, alloc, &[SCHEMA]);
    check_rows::<EnumValueDefinition>(rt, alloc, &[ENUM_VALUE]);
    check_rows::<FieldDefinition>(rt, alloc, &[FIELD_DEFINITION]);
}

fn check_types(rt: &impl Abort, alloc: Global) {
    check_rows::<ScalarTypeDefinition>(rt, alloc, &[SCALAR]);
    check_rows::<UnionTypeDefinition>(rt, alloc, &[UNION]);
    check_rows::<ObjectTypeDefinition>(rt, alloc, &[OBJECT]);
    check_rows::<InterfaceTypeDefinition>(rt, alloc, &[INTERFACE]);
    check_rows::<EnumTypeDefinition>(rt, alloc, &[ENUM]);
    check_rows::<InputObjectTypeDefinition>(rt, alloc, &[INPUT]);
}

fn check_extensions(rt: &impl Abort, alloc: Global) {
    check_rows::<SchemaExtension>(rt, alloc, &SCHEMA_EXTENSIONS);
    check_rows::<ScalarTypeExtension>(rt, alloc, &SCALAR_EXTENSIONS);
    check_rows::<ObjectTypeExtension>(rt, alloc, &OBJECT_EXTENSIONS);
    check_rows::<InterfaceTypeExtension>(rt, alloc, &INTERFACE_EXTENSIONS);
    check_rows::<UnionTypeExtension>(rt, alloc, &UNION_EXTENSIONS);
    check_rows::<EnumTypeExtension>(rt, alloc, &ENUM_EXTENSIONS);
    check_rows::<InputObjectTypeExtension>(rt, alloc, &INPUT_EXTENSIONS);
}

#[test]
fn flaws_of_definitions_and_extensions(rt: HostRuntime) {
    check_parts(&rt, rt.alloc());
    check_types(&rt, rt.alloc());
    check_extensions(&rt, rt.alloc());
}
