//! Why definitions and extensions of the type system aren't well formed, and where.
use crate::samples::object;
use graphql_base::name;
use graphql_base::name::Name;
use graphql_base::node::Node;
use graphql_base::span::{FileId, SourceSpan};
use graphql_checks::flaws::{Cases, Flaw, at, check_flaws};
use graphql_text::ill_formed::SideCondition::{AddsSomething, IsConstant, IsNotReserved};
use graphql_type_system::enum_type::{EnumTypeDefinition, EnumTypeExtension};
use graphql_type_system::enum_value_definition::EnumValueDefinition;
use graphql_type_system::field_definition::FieldDefinition;
use graphql_type_system::object_type::ObjectTypeDefinition;
use graphql_type_system::scalar_type::ScalarTypeDefinition;
use graphql_type_system::schema::SchemaDefinition;
use graphql_values::directive_list::DirectiveList;
use graphql_values::input_value_definition::InputValueDefinition;
use graphql_values::operation_type::OperationType;
use graphql_values::ty;
use graphql_values::value::Value;
use std::alloc::{AllocError, Global};

/// The flaw of the variable in `flawed_input`.
const IN_A_DEFAULT: Option<Flaw> = Some((IsConstant, Some("w"), None));

/// `x: Int = $w`
fn flawed_input(alloc: Global) -> Result<InputValueDefinition, AllocError> {
    let mut input = InputValueDefinition::new(alloc, name!(x), Node::new(alloc, ty!(Int))?);
    input.default_value = Some(Node::new(alloc, Value::Variable(name!(w)))?);
    Ok(input)
}

// DEFINITIONS

fn schema(
    directives: DirectiveList,
    root_operations: Vec<Node<(OperationType, Name)>>,
) -> SchemaDefinition {
    SchemaDefinition {
        description: None,
        directives,
        root_operations,
    }
}

/// `scalar on`, with directives.
fn scalar(alloc: Global, directives: DirectiveList) -> ScalarTypeDefinition {
    ScalarTypeDefinition {
        directives,
        ..ScalarTypeDefinition::new(alloc, name!(on))
    }
}

/// `type T implements A & B`, with directives and fields.
fn object_of(
    alloc: Global,
    directives: DirectiveList,
    fields: Vec<Node<FieldDefinition>>,
) -> Result<ObjectTypeDefinition, AllocError> {
    Ok(ObjectTypeDefinition {
        directives,
        fields,
        ..object(alloc)?
    })
}

/// `enum E`, with directives and values.
fn enum_of(
    alloc: Global,
    directives: DirectiveList,
    values: Vec<Node<EnumValueDefinition>>,
) -> EnumTypeDefinition {
    EnumTypeDefinition {
        directives,
        values,
        ..EnumTypeDefinition::new(alloc, name!(E))
    }
}

// EXTENSIONS

// LOCATIONS

/// The name `null`, with a location.
fn placed_null() -> Name {
    match SourceSpan::new(FileId::new(7), 20, 24) {
        Some(span) => name!("null").with_location(span),
        None => name!("null"),
    }
}

/// `enum E { VALUE }`, where the value stands at a location.
fn placed_enum(
    alloc: Global,
    name: Name,
    location: Option<SourceSpan>,
) -> Result<EnumTypeDefinition, AllocError> {
    let value = Node::new_at(alloc, EnumValueDefinition::new(alloc, name), location)?;
    Ok(enum_of(alloc, DirectiveList::new(alloc), vec![in alloc; value]?))
}

fn placed_enums(alloc: Global) -> Cases<EnumTypeDefinition> {
    let (inner, name) = (at(15, 25), at(20, 24));
    let null = name!("null");
    Ok(vec![in alloc;
        (
            placed_enum(alloc, placed_null(), inner)?,
            Some((IsNotReserved, Some("null"), name))
        ),
        (
            placed_enum(alloc, placed_null(), None)?,
            Some((IsNotReserved, Some("null"), name))
        ),
        (
            placed_enum(alloc, null.clone()?, inner)?,
            Some((IsNotReserved, Some("null"), inner))
        ),
        (
            placed_enum(alloc, null, None)?,
            Some((IsNotReserved, Some("null"), None))
        ),
    ]?)
}

/// `type T implements A & B { f(x: Int = $w): Int }`, and where the field, its argument and the default value stand.
fn placed_object(
    alloc: Global,
    outer: Option<SourceSpan>,
    middle: Option<SourceSpan>,
    inner: Option<SourceSpan>,
) -> Result<ObjectTypeDefinition, AllocError> {
    let mut input = flawed_input(alloc)?;
    input.default_value = Some(Node::new_at(alloc, Value::Variable(name!(w)), inner)?);
    let mut field = FieldDefinition::new(alloc, name!(f), ty!(Int));
    field.arguments = vec![in alloc; Node::new_at(alloc, input, middle)?]?;
    let fields = vec![in alloc; Node::new_at(alloc, field, outer)?]?;
    object_of(alloc, DirectiveList::new(alloc), fields)
}

fn placed_objects(alloc: Global) -> Cases<ObjectTypeDefinition> {
    let (outer, middle, inner) = (at(10, 30), at(12, 28), at(15, 25));
    let rows = [
        (outer, middle, inner, Some((IsConstant, Some("w"), inner))),
        (outer, middle, None, Some((IsConstant, Some("w"), middle))),
        (outer, None, inner, Some((IsConstant, Some("w"), inner))),
        (outer, None, None, Some((IsConstant, Some("w"), outer))),
        (None, None, None, IN_A_DEFAULT),
    ];
    let mut cases = Vec::new(alloc);
    for (outer, middle, inner, flaw) in rows {
        cases.push((placed_object(alloc, outer, middle, inner)?, flaw))?;
    }
    Ok(cases)
}

/// `extend enum null`, which adds nothing, where the name has a location.
fn placed_extensions(alloc: Global) -> Cases<EnumTypeExtension> {
    let extension = EnumTypeExtension::new(alloc, placed_null());
    let wanted = Some((AddsSomething, Some("null"), at(20, 24)));
    Ok(vec![in alloc; (extension, wanted)]?)
}

/// The name's, or else that of the innermost node around it that has one.
#[test]
fn locations(rt: HostRuntime) {
    let alloc = rt.alloc();
    check_flaws(placed_enums(alloc)).expect(&rt, "placed enums");
    check_flaws(placed_objects(alloc)).expect(&rt, "placed objects");
    check_flaws(placed_extensions(alloc)).expect(&rt, "placed extensions");
}
