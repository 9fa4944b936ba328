//! Small documents of which the examples are made. Each definition that can have a name is named `N`, and each that can
//! have directives has `@d`.
use graphql_ast::ast::{
    Definition, Directive, DirectiveDefinition, DirectiveList, DirectiveLocation, Document,
    EnumTypeDefinition, EnumTypeExtension, Field, FragmentDefinition, InputObjectTypeDefinition,
    InputObjectTypeExtension, InterfaceTypeDefinition, InterfaceTypeExtension,
    ObjectTypeDefinition, ObjectTypeExtension, OperationDefinition, OperationType,
    ScalarTypeDefinition, ScalarTypeExtension, SchemaDefinition, SchemaExtension, Selection,
    SourceFile, UnionTypeDefinition, UnionTypeExtension,
};
use graphql_ast::name;
use graphql_ast::node::{Node, NodeStr};
use graphql_ast::span::SourceSpan;
use std::alloc::{AllocError, Global};

/// ` @d`
pub(crate) fn directives(alloc: Global) -> Result<DirectiveList, AllocError> {
    DirectiveList::of(alloc, Directive::new(alloc, name!(d)))
}

/// `{ a }`
fn selections(alloc: Global) -> Result<Vec<Selection>, AllocError> {
    Ok(vec![in alloc; Selection::field(alloc, Field::new(alloc, name!(a)))?]?)
}

/// `{ a }`, of an operation.
pub(crate) fn query(alloc: Global) -> Result<OperationDefinition, AllocError> {
    Ok(OperationDefinition {
        selection_set: selections(alloc)?,
        ..OperationDefinition::new(alloc, OperationType::Query)
    })
}

/// `"D" query { a }`
pub(crate) fn described_query(alloc: Global) -> Result<Definition, AllocError> {
    let mut query = query(alloc)?;
    query.description = Some(NodeStr::new_str(alloc, "D")?);
    Ok(Definition::from(Node::new(alloc, query)?))
}

/// `{ a }`, of a definition.
pub(crate) fn anonymous_query(alloc: Global) -> Result<Definition, AllocError> {
    Ok(Definition::from(Node::new(alloc, query(alloc)?)?))
}

/// `{ a }`, of a definition at a location.
pub(crate) fn query_at(alloc: Global, span: SourceSpan) -> Result<Definition, AllocError> {
    Ok(Definition::from(Node::new_parsed(alloc, query(alloc)?, span)?))
}

/// `type A`
pub(crate) fn type_a(alloc: Global) -> Result<Definition, AllocError> {
    let object = ObjectTypeDefinition::new(alloc, name!(A));
    Ok(Definition::from(Node::new(alloc, object)?))
}

/// `scalar A`
pub(crate) fn scalar_a(alloc: Global) -> Result<Definition, AllocError> {
    let scalar = ScalarTypeDefinition::new(alloc, name!(A));
    Ok(Definition::from(Node::new(alloc, scalar)?))
}

/// A document without sources.
pub(crate) fn document(alloc: Global, definitions: Vec<Definition>) -> Document {
    let mut document = Document::new(alloc);
    document.definitions = definitions;
    document
}

/// A source file of these texts.
pub(crate) fn source_file(alloc: Global, path: &str, text: &str) -> Result<SourceFile, AllocError> {
    Ok(SourceFile {
        path: String::from_str(alloc, path)?,
        text: String::from_str(alloc, text)?,
    })
}

/// `type A query { a }`
pub(crate) fn type_and_query(alloc: Global) -> Result<Document, AllocError> {
    let definitions = vec![in alloc; type_a(alloc)?, anonymous_query(alloc)?]?;
    Ok(document(alloc, definitions))
}

// ONE DEFINITION OF EACH VARIANT

/// `query N @d { a }`
fn operation(alloc: Global) -> Result<Definition, AllocError> {
    let mut query = query(alloc)?;
    query.name = Some(name!(N));
    query.directives = directives(alloc)?;
    Ok(Definition::from(Node::new(alloc, query)?))
}

/// `fragment N on T @d { a }`
fn fragment(alloc: Global) -> Result<Definition, AllocError> {
    let fragment = FragmentDefinition {
        directives: directives(alloc)?,
        selection_set: selections(alloc)?,
        ..FragmentDefinition::new(alloc, name!(N), name!(T))
    };
    Ok(Definition::from(Node::new(alloc, fragment)?))
}

/// `directive @N on FIELD`
fn directive(alloc: Global) -> Result<Definition, AllocError> {
    let directive = DirectiveDefinition {
        locations: vec![in alloc; DirectiveLocation::Field]?,
        ..DirectiveDefinition::new(alloc, name!(N))
    };
    Ok(Definition::from(Node::new(alloc, directive)?))
}

/// `schema @d { query: N }`
fn schema(alloc: Global) -> Result<Definition, AllocError> {
    let root = Node::new(alloc, (OperationType::Query, name!(N)))?;
    let schema = SchemaDefinition {
        directives: directives(alloc)?,
        root_operations: vec![in alloc; root]?,
        ..SchemaDefinition::new(alloc)
    };
    Ok(Definition::from(Node::new(alloc, schema)?))
}

/// `scalar N @d`
fn scalar(alloc: Global) -> Result<Definition, AllocError> {
    let scalar = ScalarTypeDefinition {
        directives: directives(alloc)?,
        ..ScalarTypeDefinition::new(alloc, name!(N))
    };
    Ok(Definition::from(Node::new(alloc, scalar)?))
}

/// `type N @d`
fn object(alloc: Global) -> Result<Definition, AllocError> {
    let object = ObjectTypeDefinition {
        directives: directives(alloc)?,
        ..ObjectTypeDefinition::new(alloc, name!(N))
    };
    Ok(Definition::from(Node::new(alloc, object)?))
}

/// `interface N @d`
fn interface(alloc: Global) -> Result<Definition, AllocError> {
    let interface = InterfaceTypeDefinition {
        directives: directives(alloc)?,
        ..InterfaceTypeDefinition::new(alloc, name!(N))
    };
    Ok(Definition::from(Node::new(alloc, interface)?))
}

/// `union N @d`
fn union(alloc: Global) -> Result<Definition, AllocError> {
    let union = UnionTypeDefinition {
        directives: directives(alloc)?,
        ..UnionTypeDefinition::new(alloc, name!(N))
    };
    Ok(Definition::from(Node::new(alloc, union)?))
}

/// `enum N @d`
fn enumeration(alloc: Global) -> Result<Definition, AllocError> {
    let enumeration = EnumTypeDefinition {
        directives: directives(alloc)?,
        ..EnumTypeDefinition::new(alloc, name!(N))
    };
    Ok(Definition::from(Node::new(alloc, enumeration)?))
}

/// `input N @d`
fn input(alloc: Global) -> Result<Definition, AllocError> {
    let input = InputObjectTypeDefinition {
        directives: directives(alloc)?,
        ..InputObjectTypeDefinition::new(alloc, name!(N))
    };
    Ok(Definition::from(Node::new(alloc, input)?))
}

/// `extend schema @d`
fn schema_extension(alloc: Global) -> Result<Definition, AllocError> {
    let extension = SchemaExtension {
        directives: directives(alloc)?,
        ..SchemaExtension::new(alloc)
    };
    Ok(Definition::from(Node::new(alloc, extension)?))
}

/// `extend scalar N @d`
fn scalar_extension(alloc: Global) -> Result<Definition, AllocError> {
    let extension = ScalarTypeExtension {
        directives: directives(alloc)?,
        ..ScalarTypeExtension::new(alloc, name!(N))
    };
    Ok(Definition::from(Node::new(alloc, extension)?))
}

/// `extend type N @d`
fn object_extension(alloc: Global) -> Result<Definition, AllocError> {
    let extension = ObjectTypeExtension {
        directives: directives(alloc)?,
        ..ObjectTypeExtension::new(alloc, name!(N))
    };
    Ok(Definition::from(Node::new(alloc, extension)?))
}

/// `extend interface N @d`
fn interface_extension(alloc: Global) -> Result<Definition, AllocError> {
    let extension = InterfaceTypeExtension {
        directives: directives(alloc)?,
        ..InterfaceTypeExtension::new(alloc, name!(N))
    };
    Ok(Definition::from(Node::new(alloc, extension)?))
}

/// `extend union N @d`
fn union_extension(alloc: Global) -> Result<Definition, AllocError> {
    let extension = UnionTypeExtension {
        directives: directives(alloc)?,
        ..UnionTypeExtension::new(alloc, name!(N))
    };
    Ok(Definition::from(Node::new(alloc, extension)?))
}

/// `extend enum N @d`
fn enum_extension(alloc: Global) -> Result<Definition, AllocError> {
    let extension = EnumTypeExtension {
        directives: directives(alloc)?,
        ..EnumTypeExtension::new(alloc, name!(N))
    };
    Ok(Definition::from(Node::new(alloc, extension)?))
}

/// `extend input N @d`
fn input_extension(alloc: Global) -> Result<Definition, AllocError> {
    let extension = InputObjectTypeExtension {
        directives: directives(alloc)?,
        ..InputObjectTypeExtension::new(alloc, name!(N))
    };
    Ok(Definition::from(Node::new(alloc, extension)?))
}

/// Operation, fragment and the eight definitions.
fn definitions(alloc: Global) -> Result<Vec<Definition>, AllocError> {
    Ok(vec![in alloc;
        operation(alloc)?,
        fragment(alloc)?,
        directive(alloc)?,
        schema(alloc)?,
        scalar(alloc)?,
        object(alloc)?,
        interface(alloc)?,
        union(alloc)?,
        enumeration(alloc)?,
        input(alloc)?,
    ]?)
}

/// What stands in `each_variant`, on one line.
pub(crate) const EACH_VARIANT: &str =
    "query N @d { a } fragment N on T @d { a } directive @N on FIELD \
    schema @d { query: N } scalar N @d type N @d interface N @d union N @d enum N @d input N @d \
    extend schema @d extend scalar N @d extend type N @d extend interface N @d \
    extend union N @d extend enum N @d extend input N @d";

/// All seventeen variants, in order.
pub(crate) fn each_variant(alloc: Global) -> Result<Vec<Definition>, AllocError> {
    let mut all = definitions(alloc)?;
    all.push(schema_extension(alloc)?)?;
    all.push(scalar_extension(alloc)?)?;
    all.push(object_extension(alloc)?)?;
    all.push(interface_extension(alloc)?)?;
    all.push(union_extension(alloc)?)?;
    all.push(enum_extension(alloc)?)?;
    all.push(input_extension(alloc)?)?;
    Ok(all)
}
