//! Small trees of which the examples are made.
use graphql_base::name;
use graphql_base::node::{Node, NodeStr};
use graphql_type_system::field_definition::FieldDefinition;
use graphql_type_system::object_type::ObjectTypeDefinition;
use graphql_values::argument::Argument;
use graphql_values::directive::Directive;
use graphql_values::directive_list::DirectiveList;
use graphql_values::input_value_definition::InputValueDefinition;
use graphql_values::value::Value;
use graphql_values::{ty, value};
use std::alloc::{AllocError, Global};

/// `@d(a: $v)`
pub(crate) fn directives_with_variable(alloc: Global) -> Result<DirectiveList, AllocError> {
    let value = Node::new(alloc, Value::Variable(name!(v)))?;
    let arguments = vec![in alloc; Argument::new_node(alloc, name!(a), value)?]?;
    let directive = Directive {
        arguments,
        ..Directive::new(alloc, name!(d))
    };
    DirectiveList::of(alloc, directive)
}

/// `"F" f(x: Int = 1): [String!]! @e`
pub(crate) fn field(alloc: Global) -> Result<FieldDefinition, AllocError> {
    let mut x = InputValueDefinition::new(alloc, name!(x), Node::new(alloc, ty!(Int))?);
    x.default_value = Some(Node::new(alloc, value!(in alloc; 1)?)?);
    let ty = ty!(in alloc; [String!]!)?;
    Ok(FieldDefinition {
        description: Some(NodeStr::new_str(alloc, "F")?),
        arguments: vec![in alloc; Node::new(alloc, x)?]?,
        directives: DirectiveList::of(alloc, Directive::new(alloc, name!(e)))?,
        ..FieldDefinition::new(alloc, name!(f), ty)
    })
}

/// `type T implements A & B @d { "F" f(x: Int = 1): [String!]! @e }`
pub(crate) fn object(alloc: Global) -> Result<ObjectTypeDefinition, AllocError> {
    Ok(ObjectTypeDefinition {
        implements_interfaces: vec![in alloc; name!(A), name!(B)]?,
        directives: DirectiveList::of(alloc, Directive::new(alloc, name!(d)))?,
        fields: vec![in alloc; Node::new(alloc, field(alloc)?)?]?,
        ..ObjectTypeDefinition::new(alloc, name!(T))
    })
}
