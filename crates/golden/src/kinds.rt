//! The table of kinds: of which type the trees of a case are.
use crate::asked::{built, depth, part, tree, variant};
use crate::built::{nested_fields, nested_lists};
use crate::case::Case;
use crate::difference::Difference;
use anyhow::{Result, bail};
use ast_json_text::WriteAstJson;
use graphql_ast::ast::{
    Argument, Definition, Directive, DirectiveDefinition, DirectiveList, Document,
    EnumTypeDefinition, EnumTypeExtension, EnumValueDefinition, Field, FieldDefinition,
    FragmentDefinition, FragmentSpread, InlineFragment, InputObjectTypeDefinition,
    InputObjectTypeExtension, InputValueDefinition, InterfaceTypeDefinition,
    InterfaceTypeExtension, ObjectTypeDefinition, ObjectTypeExtension, OperationDefinition,
    ScalarTypeDefinition, ScalarTypeExtension, SchemaDefinition, SchemaExtension, Selection, Type,
    UnionTypeDefinition, UnionTypeExtension, Value, VariableDefinition,
};
use graphql_ast::serialize::Syntax;
use std::alloc::Global;
use std::fmt::Display;

/// What a case finds other than it wants, if it does.
pub fn difference(alloc: Global, case: &Case) -> Result<Option<Difference>> {
    match case.kind.as_str() {
        "NestedLists" => {
            let count = depth(case, "nested_lists")?;
            built(alloc, case, &nested_lists(alloc, count)?)
        }
        "NestedFields" => {
            let count = depth(case, "nested_fields")?;
            built(alloc, case, &nested_fields(alloc, count)?)
        }
        "Type" => part::<Type>(alloc, case),
        "Argument" => part::<Argument>(alloc, case),
        "Value" => tree::<Value>(alloc, case),
        "Directive" => tree::<Directive>(alloc, case),
        "DirectiveList" => tree::<DirectiveList>(alloc, case),
        "InputValueDefinition" => tree::<InputValueDefinition>(alloc, case),
        "FieldDefinition" => tree::<FieldDefinition>(alloc, case),
        "EnumValueDefinition" => tree::<EnumValueDefinition>(alloc, case),
        "VariableDefinition" => tree::<VariableDefinition>(alloc, case),
        "Field" => variant::<Field, Selection>(alloc, case),
        "FragmentSpread" => variant::<FragmentSpread, Selection>(alloc, case),
        "InlineFragment" => variant::<InlineFragment, Selection>(alloc, case),
        "Selection" => tree::<Selection>(alloc, case),
        "Definition" => tree::<Definition>(alloc, case),
        "Document" => tree::<Document>(alloc, case),
        _ => difference_of_definition(alloc, case),
    }
}

/// The same of the kinds of definitions.
fn difference_of_definition(alloc: Global, case: &Case) -> Result<Option<Difference>> {
    match case.kind.as_str() {
        "OperationDefinition" => definition::<OperationDefinition>(alloc, case),
        "FragmentDefinition" => definition::<FragmentDefinition>(alloc, case),
        "DirectiveDefinition" => definition::<DirectiveDefinition>(alloc, case),
        "SchemaDefinition" => definition::<SchemaDefinition>(alloc, case),
        "SchemaExtension" => definition::<SchemaExtension>(alloc, case),
        "ScalarTypeDefinition" => definition::<ScalarTypeDefinition>(alloc, case),
        "ScalarTypeExtension" => definition::<ScalarTypeExtension>(alloc, case),
        "ObjectTypeDefinition" => definition::<ObjectTypeDefinition>(alloc, case),
        "ObjectTypeExtension" => definition::<ObjectTypeExtension>(alloc, case),
        "InterfaceTypeDefinition" => definition::<InterfaceTypeDefinition>(alloc, case),
        "InterfaceTypeExtension" => definition::<InterfaceTypeExtension>(alloc, case),
        "UnionTypeDefinition" => definition::<UnionTypeDefinition>(alloc, case),
        "UnionTypeExtension" => definition::<UnionTypeExtension>(alloc, case),
        "EnumTypeDefinition" => definition::<EnumTypeDefinition>(alloc, case),
        "EnumTypeExtension" => definition::<EnumTypeExtension>(alloc, case),
        "InputObjectTypeDefinition" => definition::<InputObjectTypeDefinition>(alloc, case),
        "InputObjectTypeExtension" => definition::<InputObjectTypeExtension>(alloc, case),
        kind => bail!("no trees are of the kind {kind:?}"),
    }
}

/// Of a type that is a definition.
fn definition<T: WriteAstJson + Syntax + Display + PartialEq + Drop>(
    alloc: Global,
    case: &Case,
) -> Result<Option<Difference>> {
    variant::<T, Definition>(alloc, case)
}
