//! A document that is built by constructors and pushes: object types of ten fields and queries of three levels, by turns.

use anyhow::Result;
use graphql_ast::ast::{
    Argument, Definition, Directive, DirectiveList, Document, Field, FieldDefinition,
    InputValueDefinition, ObjectTypeDefinition, OperationDefinition, OperationType, Selection,
    Type, Value, VariableDefinition,
};
use graphql_ast::node::NodeStr;
use graphql_ast::{Name, Node};
use std::alloc::Global;

const FIELDS: [&str; 10] = [
    "items",
    "openTasks",
    "authors",
    "reviewers",
    "tags",
    "comments",
    "parts",
    "relatedItems",
    "milestones",
    "entries",
];

fn name(alloc: Global, text: &str) -> Result<Name> {
    Ok(Name::compact(alloc, text)?)
}

fn argument(alloc: Global, text: &str, value: Value) -> Result<Node<Argument>> {
    let value = Node::new(alloc, value)?;
    Ok(Argument::new_node(alloc, name(alloc, text)?, value)?)
}

/// One directive, with one argument.
fn directives(alloc: Global, text: &str, argument: Node<Argument>) -> Result<DirectiveList> {
    let mut directive = Directive::new(alloc, name(alloc, text)?);
    directive.arguments.push(argument)?;
    Ok(DirectiveList::of(alloc, directive)?)
}

/// `first: Int = 10`
fn first(alloc: Global) -> Result<Node<InputValueDefinition>> {
    let int = Node::new(alloc, Type::Named(name(alloc, "Int")?))?;
    let mut first = InputValueDefinition::new(alloc, name(alloc, "first")?, int);
    first.default_value = Some(Node::new(alloc, Value::from_i32(alloc, 10)?)?);
    Ok(Node::new(alloc, first)?)
}

/// `NAME(first: Int = 10): [Item!]! @deprecated(reason: ..)`, with a description.
fn field_definition(alloc: Global, text: &str) -> Result<Node<FieldDefinition>> {
    let item = Type::NonNullNamed(name(alloc, "Item")?);
    let ty = item.list(alloc)?.non_null();
    let mut field = FieldDefinition::new(alloc, name(alloc, text)?, ty);
    field.description = Some(NodeStr::new_str(alloc, "Items of the list, in order.")?);
    field.arguments.push(first(alloc)?)?;
    let reason = Value::from_text(alloc, "Use `edges` instead.")?;
    field.directives = directives(alloc, "deprecated", argument(alloc, "reason", reason)?)?;
    Ok(Node::new(alloc, field)?)
}

/// `type Collection implements Node & Entity @key(fields: "id") { .. }`, with a description.
fn object_type(alloc: Global) -> Result<Definition> {
    let mut object_type = ObjectTypeDefinition::new(alloc, name(alloc, "Collection")?);
    let description = "A collection of items, with all that was said of them.";
    object_type.description = Some(NodeStr::new_str(alloc, description)?);
    for interface in ["Node", "Entity"] {
        object_type
            .implements_interfaces
            .push(name(alloc, interface)?)?;
    }
    let key = argument(alloc, "fields", Value::from_text(alloc, "id")?)?;
    object_type.directives = directives(alloc, "key", key)?;
    for field in FIELDS {
        object_type.fields.push(field_definition(alloc, field)?)?;
    }
    Ok(Definition::from(Node::new(alloc, object_type)?))
}

/// Fields that are names alone.
fn leaves(alloc: Global) -> Result<Vec<Selection>> {
    let mut selections = Vec::new(alloc);
    for text in FIELDS {
        let field = Field::new(alloc, name(alloc, text)?);
        selections.push(Selection::field(alloc, field)?)?;
    }
    Ok(selections)
}

/// `ALIAS: NAME(first: $count) @include(if: $detailed) { .. }`
fn field(alloc: Global, alias: &str, text: &str, inner: Vec<Selection>) -> Result<Selection> {
    let mut field = Field::new(alloc, name(alloc, text)?);
    field.alias = Some(name(alloc, alias)?);
    let count = Value::Variable(name(alloc, "count")?);
    field.arguments.push(argument(alloc, "first", count)?)?;
    let detailed = Value::Variable(name(alloc, "detailed")?);
    field.directives = directives(alloc, "include", argument(alloc, "if", detailed)?)?;
    field.selection_set = inner;
    Ok(Selection::field(alloc, field)?)
}

fn variable(alloc: Global, text: &str, ty: Type) -> Result<Node<VariableDefinition>> {
    let ty = Node::new(alloc, ty)?;
    let variable = VariableDefinition::new(alloc, name(alloc, text)?, ty);
    Ok(Node::new(alloc, variable)?)
}

/// `query Viewer($count: Int, $detailed: Boolean!) { .. }`
fn query(alloc: Global) -> Result<Definition> {
    let mut query = OperationDefinition::new(alloc, OperationType::Query);
    query.name = Some(name(alloc, "Viewer")?);
    let int = Type::Named(name(alloc, "Int")?);
    query.variables.push(variable(alloc, "count", int)?)?;
    let boolean = Type::NonNullNamed(name(alloc, "Boolean")?);
    query.variables.push(variable(alloc, "detailed", boolean)?)?;
    for alias in ["first", "second"] {
        let mut inner = leaves(alloc)?;
        inner.push(field(alloc, "related", "friends", leaves(alloc)?)?)?;
        query
            .selection_set
            .push(field(alloc, alias, "user", inner)?)?;
    }
    Ok(Definition::from(Node::new(alloc, query)?))
}

/// A document of so many definitions.
pub fn build(alloc: Global, definitions: usize) -> Result<Document> {
    let mut document = Document::new(alloc);
    for place in 0..definitions {
        let definition = if place % 2 == 0 {
            object_type(alloc)?
        } else {
            query(alloc)?
        };
        document.definitions.push(definition)?;
    }
    Ok(document)
}
