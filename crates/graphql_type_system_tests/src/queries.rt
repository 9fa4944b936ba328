//! What is looked up by name.
use crate::checks::check_case;
use graphql_base::name;
use graphql_base::node::Node;
use graphql_type_system::enum_type::{EnumTypeDefinition, EnumTypeExtension};
use graphql_type_system::enum_value_definition::EnumValueDefinition;
use graphql_type_system::field_definition::FieldDefinition;
use graphql_type_system::input_object_type::{InputObjectTypeDefinition, InputObjectTypeExtension};
use graphql_type_system::interface_type::{InterfaceTypeDefinition, InterfaceTypeExtension};
use graphql_type_system::object_type::{ObjectTypeDefinition, ObjectTypeExtension};
use graphql_values::directive::Directive;
use graphql_values::directive_list::DirectiveList;
use graphql_values::input_value_definition::InputValueDefinition;
use graphql_values::{ty, value};
use std::alloc::{AllocError, Global};
use std::process::Abort;

/// What is asked for, and the mark of what is found: the first `x` of two, the one `y`, and nothing in another case,
/// by a part of a name or without one. In an empty list nothing is found.
fn asked() -> [(&'static str, Option<usize>); 5] {
    [
        ("x", Some(1)),
        ("y", Some(0)),
        ("X", None),
        ("xy", None),
        ("", None),
    ]
}

/// How many arguments a field has.
fn told(field: Option<&Node<FieldDefinition>>) -> Option<usize> {
    Some(field?.arguments.len())
}

/// `x(a: Int): Int`, `y: Int`, `x: Int`
fn fields(alloc: Global) -> Result<Vec<Node<FieldDefinition>>, AllocError> {
    let a = InputValueDefinition::new(alloc, name!(a), Node::new(alloc, ty!(Int))?);
    let first = FieldDefinition {
        arguments: vec![in alloc; Node::new(alloc, a)?]?,
        ..FieldDefinition::new(alloc, name!(x), ty!(Int))
    };
    let fields = vec![in alloc;
        Node::new(alloc, first)?,
        Node::new(alloc, FieldDefinition::new(alloc, name!(y), ty!(Int)))?,
        Node::new(alloc, FieldDefinition::new(alloc, name!(x), ty!(Int)))?,
    ]?;
    Ok(fields)
}

/// How many directives an enum value has.
fn told_of_value(value: Option<&Node<EnumValueDefinition>>) -> Option<usize> {
    Some(value?.directives.len())
}

/// `x @d`, `y`, `x`
fn values(alloc: Global) -> Result<Vec<Node<EnumValueDefinition>>, AllocError> {
    let first = EnumValueDefinition {
        directives: DirectiveList::of(alloc, Directive::new(alloc, name!(d)))?,
        ..EnumValueDefinition::new(alloc, name!(x))
    };
    let values = vec![in alloc;
        Node::new(alloc, first)?,
        Node::new(alloc, EnumValueDefinition::new(alloc, name!(y)))?,
        Node::new(alloc, EnumValueDefinition::new(alloc, name!(x)))?,
    ]?;
    Ok(values)
}

/// Whether an input value has a default value, as a number.
fn told_of_input(input: Option<&Node<InputValueDefinition>>) -> Option<usize> {
    Some(if input?.default_value.is_some() { 1 } else { 0 })
}

/// `x: Int = 1`, `y: Int`, `x: Int`
fn inputs(alloc: Global) -> Result<Vec<Node<InputValueDefinition>>, AllocError> {
    let mut first = InputValueDefinition::new(alloc, name!(x), Node::new(alloc, ty!(Int))?);
    first.default_value = Some(Node::new(alloc, value!(in alloc; 1)?)?);
    let second = InputValueDefinition::new(alloc, name!(y), Node::new(alloc, ty!(Int))?);
    let third = InputValueDefinition::new(alloc, name!(x), Node::new(alloc, ty!(Int))?);
    let inputs = vec![in alloc;
        Node::new(alloc, first)?,
        Node::new(alloc, second)?,
        Node::new(alloc, third)?,
    ]?;
    Ok(inputs)
}

/// What has members: fields, values, input fields or arguments.
#[derive(Drop)]
struct Holders {
    object: ObjectTypeDefinition,
    of_object: ObjectTypeExtension,
    interface: InterfaceTypeDefinition,
    of_interface: InterfaceTypeExtension,
    values: EnumTypeDefinition,
    of_values: EnumTypeExtension,
    input: InputObjectTypeDefinition,
    of_input: InputObjectTypeExtension,
    field: FieldDefinition,
}

impl Holders {
    /// Without members.
    fn new(alloc: Global) -> Holders {
        Holders {
            object: ObjectTypeDefinition::new(alloc, name!(A)),
            of_object: ObjectTypeExtension::new(alloc, name!(A)),
            interface: InterfaceTypeDefinition::new(alloc, name!(A)),
            of_interface: InterfaceTypeExtension::new(alloc, name!(A)),
            values: EnumTypeDefinition::new(alloc, name!(A)),
            of_values: EnumTypeExtension::new(alloc, name!(A)),
            input: InputObjectTypeDefinition::new(alloc, name!(A)),
            of_input: InputObjectTypeExtension::new(alloc, name!(A)),
            field: FieldDefinition::new(alloc, name!(f), ty!(Int)),
        }
    }

    fn fill(&mut self, alloc: Global) -> Result<(), AllocError> {
        self.object.fields = fields(alloc)?;
        self.of_object.fields = fields(alloc)?;
        self.interface.fields = fields(alloc)?;
        self.of_interface.fields = fields(alloc)?;
        self.values.values = values(alloc)?;
        self.of_values.values = values(alloc)?;
        self.input.fields = inputs(alloc)?;
        self.of_input.fields = inputs(alloc)?;
        self.field.arguments = inputs(alloc)?;
        Ok(())
    }

    /// The mark of what each finds under a name.
    fn found(&self, name: &str) -> [(&'static str, Option<usize>); 9] {
        [
            ("object", told(self.object.field_by_name(name))),
            ("extended object", told(self.of_object.field_by_name(name))),
            ("interface", told(self.interface.field_by_name(name))),
            (
                "extended interface",
                told(self.of_interface.field_by_name(name)),
            ),
            ("enum", told_of_value(self.values.value_by_name(name))),
            (
                "extended enum",
                told_of_value(self.of_values.value_by_name(name)),
            ),
            ("input", told_of_input(self.input.field_by_name(name))),
            (
                "extended input",
                told_of_input(self.of_input.field_by_name(name)),
            ),
            ("field", told_of_input(self.field.argument_by_name(name))),
        ]
    }
}

fn check_none(rt: &impl Abort, holders: &Holders) {
    for (whose, found) in holders.found("x") {
        check_case(rt, whose, found, None);
    }
}

fn check_found(rt: &impl Abort, holders: &Holders, name: &str, wanted: Option<usize>) {
    for (whose, found) in holders.found(name) {
        check_case(rt, whose, (name, found), (name, wanted));
    }
}

/// Fields, values, input fields and arguments.
#[test]
fn of_members_by_name(rt: HostRuntime) {
    let mut holders = Holders::new(rt.alloc());
    check_none(&rt, &holders);
    holders.fill(rt.alloc()).expect(&rt, "memory");
    for (name, wanted) in asked() {
        check_found(&rt, &holders, name, wanted);
    }
}
