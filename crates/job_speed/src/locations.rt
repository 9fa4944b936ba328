//! Where the parts of a schema stand.

use crate::digest::Digest;
use graphql_ast::ast::{
    Definition, DirectiveList, Document, EnumTypeDefinition, FieldDefinition, InputValueDefinition,
    UnionTypeDefinition,
};
use graphql_ast::node::NodeStr;
use graphql_ast::span::SourceSpan;
use graphql_ast::{Name, Node};

fn add_location(location: Option<SourceSpan>, digest: &mut Digest) {
    match location {
        Some(span) => {
            digest.add_number(span.start() as u64);
            digest.add_number(span.end() as u64);
        }
        None => digest.add_number(u64::MAX),
    }
}

fn add_description(description: Option<&NodeStr>, digest: &mut Digest) {
    if let Some(text) = description {
        add_location(text.location(), digest);
    }
}

fn add_names(names: &[Name], digest: &mut Digest) {
    for name in names {
        add_location(name.location(), digest);
    }
}

fn add_directives(directives: &DirectiveList, digest: &mut Digest) {
    for directive in directives.iter() {
        add_location(directive.location(), digest);
        add_location(directive.name.location(), digest);
        if let Some(argument) = directive.arguments.first() {
            add_location(argument.location(), digest);
            add_location(argument.value.location(), digest);
        }
    }
}

fn add_input_values(inputs: &[Node<InputValueDefinition>], digest: &mut Digest) {
    for input in inputs {
        add_location(input.location(), digest);
        add_location(input.name.location(), digest);
        add_location(input.ty.location(), digest);
        add_description(input.description.as_ref(), digest);
        if let Some(value) = &input.default_value {
            add_location(value.location(), digest);
        }
    }
}

fn add_fields(fields: &[Node<FieldDefinition>], digest: &mut Digest) {
    for field in fields {
        add_location(field.location(), digest);
        add_location(field.name.location(), digest);
        add_location(field.ty.inner_named_type().location(), digest);
        add_description(field.description.as_ref(), digest);
        add_directives(&field.directives, digest);
        add_input_values(&field.arguments, digest);
    }
}

fn add_values(definition: &EnumTypeDefinition, digest: &mut Digest) {
    for value in &definition.values {
        add_location(value.location(), digest);
        add_location(value.value.location(), digest);
        add_description(value.description.as_ref(), digest);
    }
}

/// The locations of what stands in a definition.
fn add_parts(definition: &Definition, digest: &mut Digest) {
    match definition {
        Definition::ObjectTypeDefinition(object) => {
            add_names(&object.implements_interfaces, digest);
            add_fields(&object.fields, digest);
        }
        Definition::ObjectTypeExtension(object) => {
            add_names(&object.implements_interfaces, digest);
            add_fields(&object.fields, digest);
        }
        Definition::InterfaceTypeDefinition(interface) => {
            add_names(&interface.implements_interfaces, digest);
            add_fields(&interface.fields, digest);
        }
        Definition::InputObjectTypeDefinition(object) => add_input_values(&object.fields, digest),
        Definition::EnumTypeDefinition(definition) => add_values(definition, digest),
        Definition::UnionTypeDefinition(union) => add_names(&union.members, digest),
        _ => {}
    }
}

/// The locations of a schema's definitions, and of the names, descriptions, fields, arguments, types and values in them.
pub fn add_locations(schema: &Document, digest: &mut Digest) {
    for definition in &schema.definitions {
        add_location(definition.location(), digest);
        if let Some(name) = definition.name() {
            add_location(name.location(), digest);
        }
        add_description(definition.description(), digest);
        if let Some(directives) = definition.directives() {
            add_directives(directives, digest);
        }
        add_parts(definition, digest);
    }
}
