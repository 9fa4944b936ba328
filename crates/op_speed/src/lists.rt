//! Lists of 10,000 items, in which the last is looked up by its name.

use anyhow::Result;
use graphql_ast::ast::{
    Argument, Definition, Directive, DirectiveList, Document, EnumTypeDefinition,
    EnumValueDefinition, FieldDefinition, ObjectTypeDefinition, OperationDefinition, OperationType,
    ScalarTypeDefinition, Type, Value, VariableDefinition,
};
use graphql_ast::{Name, Node};
use std::alloc::Global;

const ITEMS: usize = 10_000;

/// The name of the last item.
const LAST: &str = "item9999";

/// Which items a list has.
#[derive(Clone, Copy)]
pub enum Items {
    Directives,
    Arguments,
    Fields,
    EnumValues,
    Variables,
    Types,
}

/// A list of each.
#[derive(Drop)]
pub struct Lists {
    directives: DirectiveList,
    arguments: Directive,
    fields: ObjectTypeDefinition,
    enum_values: EnumTypeDefinition,
    variables: OperationDefinition,
    types: Document,
}

fn names(alloc: Global) -> Result<Vec<Name>> {
    let mut names = Vec::new(alloc);
    for number in 0..ITEMS {
        let text = format!(in alloc; "item{number}")?;
        names.push(Name::compact(alloc, text.as_str())?)?;
    }
    Ok(names)
}

fn directives(alloc: Global, names: &[Name]) -> Result<DirectiveList> {
    let mut list = DirectiveList::new(alloc);
    for name in names {
        let directive = Directive::new(alloc, name.clone()?);
        list.0.push(Node::new(alloc, directive)?)?;
    }
    Ok(list)
}

fn arguments(alloc: Global, names: &[Name], of: &Name) -> Result<Directive> {
    let mut directive = Directive::new(alloc, of.clone()?);
    for name in names {
        let value = Node::new(alloc, Value::Null)?;
        let argument = Argument::new_node(alloc, name.clone()?, value)?;
        directive.arguments.push(argument)?;
    }
    Ok(directive)
}

fn fields(alloc: Global, names: &[Name], of: &Name) -> Result<ObjectTypeDefinition> {
    let mut object_type = ObjectTypeDefinition::new(alloc, of.clone()?);
    for name in names {
        let field = FieldDefinition::new(alloc, name.clone()?, Type::Named(of.clone()?));
        object_type.fields.push(Node::new(alloc, field)?)?;
    }
    Ok(object_type)
}

fn enum_values(alloc: Global, names: &[Name], of: &Name) -> Result<EnumTypeDefinition> {
    let mut enum_type = EnumTypeDefinition::new(alloc, of.clone()?);
    for name in names {
        let value = EnumValueDefinition::new(alloc, name.clone()?);
        enum_type.values.push(Node::new(alloc, value)?)?;
    }
    Ok(enum_type)
}

fn variables(alloc: Global, names: &[Name], of: &Name) -> Result<OperationDefinition> {
    let mut operation = OperationDefinition::new(alloc, OperationType::Query);
    for name in names {
        let ty = Node::new(alloc, Type::Named(of.clone()?))?;
        let variable = VariableDefinition::new(alloc, name.clone()?, ty);
        operation.variables.push(Node::new(alloc, variable)?)?;
    }
    Ok(operation)
}

fn types(alloc: Global, names: &[Name]) -> Result<Document> {
    let mut document = Document::new(alloc);
    for name in names {
        let scalar = ScalarTypeDefinition::new(alloc, name.clone()?);
        let definition = Definition::from(Node::new(alloc, scalar)?);
        document.definitions.push(definition)?;
    }
    Ok(document)
}

impl Lists {
    pub fn new(alloc: Global) -> Result<Lists> {
        let of = Name::compact(alloc, "Item")?;
        let names = names(alloc)?;
        Ok(Lists {
            directives: directives(alloc, &names)?,
            arguments: arguments(alloc, &names, &of)?,
            fields: fields(alloc, &names, &of)?,
            enum_values: enum_values(alloc, &names, &of)?,
            variables: variables(alloc, &names, &of)?,
            types: types(alloc, &names)?,
        })
    }

    /// Whether the last item is found.
    pub fn finds_last(&self, items: Items) -> bool {
        match items {
            Items::Directives => self.directives.get(LAST).is_some(),
            Items::Arguments => self.arguments.specified_argument_by_name(LAST).is_some(),
            Items::Fields => self.fields.field_by_name(LAST).is_some(),
            Items::EnumValues => self.enum_values.value_by_name(LAST).is_some(),
            Items::Variables => self.variables.variable_by_name(LAST).is_some(),
            Items::Types => self.types.type_definition(LAST).is_some(),
        }
    }
}
