//! Prints of each kind, a definition and an extension each, as each is made anew too, where memory is ample. What breaks a side
//! condition is printed all the same. How trees are laid out further is told by the cases of another program.
use crate::checks::{Trees, check_trees};
use crate::samples::{directives_with_variable, field, object};
use graphql_base::name;
use graphql_base::name::Name;
use graphql_base::node::{Node, NodeStr};
use graphql_type_system::enum_type::{EnumTypeDefinition, EnumTypeExtension};
use graphql_type_system::enum_value_definition::EnumValueDefinition;
use graphql_type_system::field_definition::FieldDefinition;
use graphql_type_system::input_object_type::{InputObjectTypeDefinition, InputObjectTypeExtension};
use graphql_type_system::interface_type::{InterfaceTypeDefinition, InterfaceTypeExtension};
use graphql_type_system::object_type::{ObjectTypeDefinition, ObjectTypeExtension};
use graphql_type_system::scalar_type::{ScalarTypeDefinition, ScalarTypeExtension};
use graphql_type_system::schema::{SchemaDefinition, SchemaExtension};
use graphql_type_system::union_type::{UnionTypeDefinition, UnionTypeExtension};
use graphql_values::directive::Directive;
use graphql_values::directive_list::DirectiveList;
use graphql_values::input_value_definition::InputValueDefinition;
use graphql_values::operation_type::OperationType;
use graphql_values::{ty, value};
use std::alloc::{AllocError, Global};

/// ` @d`
fn directives(alloc: Global) -> Result<DirectiveList, AllocError> {
    DirectiveList::of(alloc, Directive::new(alloc, name!(d)))
}

fn fields(alloc: Global) -> Trees<FieldDefinition> {
    let with_a_variable = FieldDefinition {
        directives: directives_with_variable(alloc)?,
        ..FieldDefinition::new(alloc, name!(f), ty!(Int))
    };
    Ok(vec![in alloc;
        (
            field(alloc)?,
            true,
            "\"F\" f(x: Int = 1): [String!]! @e",
            Some("\"\"\"F\"\"\"\nf(x: Int = 1): [String!]! @e")
        ),
        (
            FieldDefinition::new(alloc, name!(A), ty!(Int)),
            true,
            "A: Int",
            None
        ),
        (with_a_variable, false, "f: Int @d(a: $v)", None),
    ]?)
}

fn enum_values(alloc: Global) -> Trees<EnumValueDefinition> {
    let value = EnumValueDefinition::new(alloc, name!(A));
    Ok(vec![in alloc; (value, true, "A", Some("A"))]?)
}

fn schemas(alloc: Global) -> Trees<SchemaDefinition> {
    let schema = SchemaDefinition {
        description: Some(NodeStr::new_str(alloc, "S")?),
        directives: directives(alloc)?,
        root_operations: vec![in alloc;
            Node::new(alloc, (OperationType::Query, name!(Q)))?,
            Node::new(alloc, (OperationType::Mutation, name!(M)))?,
        ]?,
    };
    let line = "\"S\" schema @d { query: Q mutation: M }";
    let lines = "\"\"\"S\"\"\"\nschema @d {\n  query: Q\n  mutation: M\n}";
    Ok(vec![in alloc;
        (schema, true, line, Some(lines)),
        (
            SchemaDefinition::new(alloc),
            false,
            "schema {}",
            Some("schema {}")
        ),
    ]?)
}

fn scalars(alloc: Global) -> Trees<ScalarTypeDefinition> {
    let described = ScalarTypeDefinition {
        description: Some(NodeStr::new_str(alloc, "Hi")?),
        ..ScalarTypeDefinition::new(alloc, name!(A))
    };
    let lines = "\"\"\"Hi\"\"\"\nscalar A";
    Ok(vec![in alloc;
        (described, true, "\"Hi\" scalar A", Some(lines)),
        (
            ScalarTypeDefinition::new(alloc, name!(A)),
            true,
            "scalar A",
            None
        ),
    ]?)
}

fn objects(alloc: Global) -> Trees<ObjectTypeDefinition> {
    let line = "type T implements A & B @d { \"F\" f(x: Int = 1): [String!]! @e }";
    let lines = "type T implements A & B @d {\n  \"\"\"F\"\"\"\n  f(x: Int = 1): [String!]! @e\n}";
    let mut with_a_variable = object(alloc)?;
    with_a_variable.directives = directives_with_variable(alloc)?;
    let of_a_variable = "type T implements A & B @d(a: $v) { \"F\" f(x: Int = 1): [String!]! @e }";
    Ok(vec![in alloc;
        (object(alloc)?, true, line, Some(lines)),
        (
            ObjectTypeDefinition::new(alloc, name!(A)),
            true,
            "type A",
            None
        ),
        (with_a_variable, false, of_a_variable, None),
    ]?)
}

/// `f: Int`
fn fields_of_interfaces(alloc: Global) -> Result<Vec<Node<FieldDefinition>>, AllocError> {
    let field = FieldDefinition::new(alloc, name!(f), ty!(Int));
    Ok(vec![in alloc; Node::new(alloc, field)?]?)
}

fn interfaces(alloc: Global) -> Trees<InterfaceTypeDefinition> {
    let interface = InterfaceTypeDefinition {
        fields: fields_of_interfaces(alloc)?,
        ..InterfaceTypeDefinition::new(alloc, name!(N))
    };
    let lines = "interface N {\n  f: Int\n}";
    Ok(vec![in alloc;
        (interface, true, "interface N { f: Int }", Some(lines)),
        (
            InterfaceTypeDefinition::new(alloc, name!(A)),
            true,
            "interface A",
            None
        ),
    ]?)
}

fn unions(alloc: Global) -> Trees<UnionTypeDefinition> {
    let union_type = UnionTypeDefinition {
        directives: directives(alloc)?,
        members: vec![in alloc; name!(A), name!(B)]?,
        ..UnionTypeDefinition::new(alloc, name!(U))
    };
    let line = "union U @d = A | B";
    Ok(vec![in alloc;
        (union_type, true, line, Some(line)),
        (
            UnionTypeDefinition::new(alloc, name!(A)),
            true,
            "union A",
            None
        ),
    ]?)
}

/// `enum E { VALUE }`
fn enum_of(alloc: Global, value: Name) -> Result<EnumTypeDefinition, AllocError> {
    let node = Node::new(alloc, EnumValueDefinition::new(alloc, value))?;
    Ok(EnumTypeDefinition {
        values: vec![in alloc; node]?,
        ..EnumTypeDefinition::new(alloc, name!(E))
    })
}

fn enums(alloc: Global) -> Trees<EnumTypeDefinition> {
    let lines = "enum E {\n  A\n}";
    Ok(vec![in alloc;
        (enum_of(alloc, name!(A))?, true, "enum E { A }", Some(lines)),
        (
            EnumTypeDefinition::new(alloc, name!(A)),
            true,
            "enum A",
            None
        ),
        (
            enum_of(alloc, name!("null"))?,
            false,
            "enum E { null }",
            None
        ),
        (
            enum_of(alloc, name!("true"))?,
            false,
            "enum E { true }",
            None
        ),
    ]?)
}

/// `a: Int = 1`
fn fields_of_inputs(alloc: Global) -> Result<Vec<Node<InputValueDefinition>>, AllocError> {
    let mut a = InputValueDefinition::new(alloc, name!(a), Node::new(alloc, ty!(Int))?);
    a.default_value = Some(Node::new(alloc, value!(in alloc; 1)?)?);
    Ok(vec![in alloc; Node::new(alloc, a)?]?)
}

fn inputs(alloc: Global) -> Trees<InputObjectTypeDefinition> {
    let input = InputObjectTypeDefinition {
        fields: fields_of_inputs(alloc)?,
        ..InputObjectTypeDefinition::new(alloc, name!(I))
    };
    let lines = "input I {\n  a: Int = 1\n}";
    Ok(vec![in alloc;
        (input, true, "input I { a: Int = 1 }", Some(lines)),
        (
            InputObjectTypeDefinition::new(alloc, name!(A)),
            true,
            "input A",
            None
        ),
    ]?)
}

#[test]
fn of_definitions(rt: HostRuntime) {
    let alloc = rt.alloc();
    check_trees(&rt, alloc, fields(alloc));
    check_trees(&rt, alloc, enum_values(alloc));
    check_trees(&rt, alloc, schemas(alloc));
    check_trees(&rt, alloc, scalars(alloc));
    check_trees(&rt, alloc, objects(alloc));
    check_trees(&rt, alloc, interfaces(alloc));
    check_trees(&rt, alloc, unions(alloc));
    check_trees(&rt, alloc, enums(alloc));
    check_trees(&rt, alloc, inputs(alloc));
}

// EXTENSIONS: A NEW ONE ADDS NOTHING

fn schema_extensions(alloc: Global) -> Trees<SchemaExtension> {
    let root_operation = Node::new(alloc, (OperationType::Subscription, name!(S)))?;
    let extension = SchemaExtension {
        root_operations: vec![in alloc; root_operation]?,
        ..SchemaExtension::new(alloc)
    };
    let line = "extend schema { subscription: S }";
    let lines = "extend schema {\n  subscription: S\n}";
    Ok(vec![in alloc;
        (extension, true, line, Some(lines)),
        (SchemaExtension::new(alloc), false, "extend schema", None),
    ]?)
}

fn scalar_extensions(alloc: Global) -> Trees<ScalarTypeExtension> {
    let extension = ScalarTypeExtension {
        directives: directives(alloc)?,
        ..ScalarTypeExtension::new(alloc, name!(A))
    };
    let line = "extend scalar A @d";
    Ok(vec![in alloc;
        (extension, true, line, Some(line)),
        (
            ScalarTypeExtension::new(alloc, name!(A)),
            false,
            "extend scalar A",
            None
        ),
    ]?)
}

fn object_extensions(alloc: Global) -> Trees<ObjectTypeExtension> {
    let extension = ObjectTypeExtension {
        implements_interfaces: vec![in alloc; name!(A), name!(B)]?,
        ..ObjectTypeExtension::new(alloc, name!(T))
    };
    let line = "extend type T implements A & B";
    Ok(vec![in alloc;
        (extension, true, line, Some(line)),
        (
            ObjectTypeExtension::new(alloc, name!(A)),
            false,
            "extend type A",
            None
        ),
    ]?)
}

fn interface_extensions(alloc: Global) -> Trees<InterfaceTypeExtension> {
    let extension = InterfaceTypeExtension {
        fields: fields_of_interfaces(alloc)?,
        ..InterfaceTypeExtension::new(alloc, name!(N))
    };
    let line = "extend interface N { f: Int }";
    let lines = "extend interface N {\n  f: Int\n}";
    let new = InterfaceTypeExtension::new(alloc, name!(A));
    Ok(vec![in alloc;
        (extension, true, line, Some(lines)),
        (new, false, "extend interface A", None),
    ]?)
}

fn union_extensions(alloc: Global) -> Trees<UnionTypeExtension> {
    let extension = UnionTypeExtension {
        members: vec![in alloc; name!(A)]?,
        ..UnionTypeExtension::new(alloc, name!(U))
    };
    let line = "extend union U = A";
    Ok(vec![in alloc;
        (extension, true, line, Some(line)),
        (
            UnionTypeExtension::new(alloc, name!(A)),
            false,
            "extend union A",
            None
        ),
    ]?)
}

fn enum_extensions(alloc: Global) -> Trees<EnumTypeExtension> {
    let extension = EnumTypeExtension {
        directives: directives(alloc)?,
        ..EnumTypeExtension::new(alloc, name!(E))
    };
    let line = "extend enum E @d";
    Ok(vec![in alloc;
        (extension, true, line, Some(line)),
        (
            EnumTypeExtension::new(alloc, name!(A)),
            false,
            "extend enum A",
            None
        ),
    ]?)
}

fn input_extensions(alloc: Global) -> Trees<InputObjectTypeExtension> {
    let extension = InputObjectTypeExtension {
        fields: fields_of_inputs(alloc)?,
        ..InputObjectTypeExtension::new(alloc, name!(I))
    };
    let line = "extend input I { a: Int = 1 }";
    let lines = "extend input I {\n  a: Int = 1\n}";
    let new = InputObjectTypeExtension::new(alloc, name!(A));
    Ok(vec![in alloc;
        (extension, true, line, Some(lines)),
        (new, false, "extend input A", None),
    ]?)
}

#[test]
fn of_extensions(rt: HostRuntime) {
    let alloc = rt.alloc();
    check_trees(&rt, alloc, schema_extensions(alloc));
    check_trees(&rt, alloc, scalar_extensions(alloc));
    check_trees(&rt, alloc, object_extensions(alloc));
    check_trees(&rt, alloc, interface_extensions(alloc));
    check_trees(&rt, alloc, union_extensions(alloc));
    check_trees(&rt, alloc, enum_extensions(alloc));
    check_trees(&rt, alloc, input_extensions(alloc));
}
