//! Small trees of which the examples are made.
use graphql_base::name;
use graphql_base::name::Name;
use graphql_base::node::Node;
use graphql_values::argument::Argument;
use graphql_values::directive::Directive;
use graphql_values::directive_definition::DirectiveDefinition;
use graphql_values::directive_list::DirectiveList;
use graphql_values::input_value_definition::InputValueDefinition;
use graphql_values::value::Value;
use graphql_values::{ty, value};
use std::alloc::{AllocError, Global};

pub(crate) fn number(alloc: Global, number: i32) -> Result<Node<Value>, AllocError> {
    Node::new(alloc, Value::from_i32(alloc, number)?)
}

/// `[1]`
pub(crate) fn one(alloc: Global) -> Result<Value, AllocError> {
    value!(in alloc; [1])
}

/// `[1, 2]`
pub(crate) fn numbers(alloc: Global) -> Result<Value, AllocError> {
    value!(in alloc; [1, 2])
}

/// What a value can be.
pub(crate) const FORMS: [&str; 9] = [
    "null", "enum", "variable", "string", "float", "int", "boolean", "list", "object",
];

/// A value of that form.
pub(crate) fn value_of(alloc: Global, form: &str) -> Result<Value, AllocError> {
    match form {
        "string" => Value::from_text(alloc, "é"),
        "float" => value!(in alloc; 1.50),
        "int" => value!(in alloc; -7),
        "list" => numbers(alloc),
        "object" => value!(in alloc; {a: 1, b: 2}),
        _ => Ok(plain_value(form)),
    }
}

fn plain_value(form: &str) -> Value {
    match form {
        "enum" => Value::Enum(name!(A)),
        "variable" => Value::Variable(name!(v)),
        "boolean" => Value::from(true),
        _ => Value::Null,
    }
}

/// `[1, EXAMPLE, true, null]`
pub(crate) fn items(alloc: Global) -> Result<Value, AllocError> {
    value!(in alloc; [1, EXAMPLE, true, null])
}

/// `[[true, null], {a: 1, a: 3000000000}]`
pub(crate) fn made_of_parts(alloc: Global) -> Result<Value, AllocError> {
    let list = Value::list(alloc, vec![in alloc; Value::from(true), Value::Null]?)?;
    let mut fields = vec![in alloc; (name!(a), Value::from_i32(alloc, 1)?)]?;
    fields.push((name!(a), Value::from_i64(alloc, 3000000000)?))?;
    let object = Value::object(alloc, fields)?;
    Value::list(alloc, vec![in alloc; list, object]?)
}

pub(crate) fn with_argument(
    alloc: Global,
    mut directive: Directive,
    name: Name,
    value: Node<Value>,
) -> Result<Directive, AllocError> {
    directive
        .arguments
        .push(Argument::new_node(alloc, name, value)?)?;
    Ok(directive)
}

/// `@a(x: 1, y: 2)`, whose numbers take no memory.
pub(crate) fn directive(alloc: Global) -> Result<Directive, AllocError> {
    let bare = Directive::new(alloc, name!(a));
    let x = Node::new(alloc, Value::from_i32(alloc, 1)?)?;
    let with_x = with_argument(alloc, bare, name!(x), x)?;
    let y = Node::new(alloc, Value::from_i32(alloc, 2)?)?;
    with_argument(alloc, with_x, name!(y), y)
}

/// `@a @b`
pub(crate) fn directives(alloc: Global) -> Result<DirectiveList, AllocError> {
    let nodes = vec![in alloc;
        Node::new(alloc, Directive::new(alloc, name!(a)))?,
        Node::new(alloc, Directive::new(alloc, name!(b)))?,
    ]?;
    Ok(DirectiveList(nodes))
}

/// `[[], 1.5]`
pub(crate) fn nested(alloc: Global) -> Result<Value, AllocError> {
    value!(in alloc; [[], 1.5])
}

/// `a: [[I!]] = [[], 1.5]`
pub(crate) fn input(alloc: Global) -> Result<InputValueDefinition, AllocError> {
    let ty = Node::new(alloc, ty!(in alloc; [[I!]])?)?;
    let mut input = InputValueDefinition::new(alloc, name!(a), ty);
    input.default_value = Some(Node::new(alloc, nested(alloc)?)?);
    Ok(input)
}

/// `directive @d(a: [[I!]] = [[], 1.5])`
pub(crate) fn definition(alloc: Global) -> Result<DirectiveDefinition, AllocError> {
    let mut definition = DirectiveDefinition::new(alloc, name!(d));
    definition.arguments.push(Node::new(alloc, input(alloc)?)?)?;
    Ok(definition)
}
