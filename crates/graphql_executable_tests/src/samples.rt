//! Small trees of which the examples are made.
use graphql_base::name;
use graphql_base::name::Name;
use graphql_base::node::{Node, NodeStr};
use graphql_executable::field::Field;
use graphql_executable::fragment_definition::FragmentDefinition;
use graphql_executable::fragment_spread::FragmentSpread;
use graphql_executable::inline_fragment::InlineFragment;
use graphql_executable::operation_definition::OperationDefinition;
use graphql_executable::selection::Selection;
use graphql_executable::variable_definition::VariableDefinition;
use graphql_values::argument::Argument;
use graphql_values::directive::Directive;
use graphql_values::directive_list::DirectiveList;
use graphql_values::operation_type::OperationType;
use graphql_values::ty;
use graphql_values::value::Value;
use std::alloc::{AllocError, Global};

/// `a`
pub(crate) fn a(alloc: Global) -> Result<Selection, AllocError> {
    Selection::field(alloc, Field::new(alloc, name!(a)))
}

/// `... on T { id }`
pub(crate) fn inline_fragment(alloc: Global) -> Result<InlineFragment, AllocError> {
    let id = Selection::field(alloc, Field::new(alloc, name!(id)))?;
    Ok(InlineFragment {
        type_condition: Some(name!(T)),
        selection_set: vec![in alloc; id]?,
        ..InlineFragment::new(alloc)
    })
}

fn argument(alloc: Global, name: Name, value: Value) -> Result<Vec<Node<Argument>>, AllocError> {
    let value = Node::new(alloc, value)?;
    Ok(vec![in alloc; Argument::new_node(alloc, name, value)?]?)
}

/// `r: s(a: $v) @include(if: true) { ...F ... on T { id } }`
pub(crate) fn field(alloc: Global) -> Result<Field, AllocError> {
    let mut include = Directive::new(alloc, name!(include));
    include.arguments = argument(alloc, name!(if), Value::from(true))?;
    let mut field = Field::new(alloc, name!(s));
    field.alias = Some(name!(r));
    field.arguments = argument(alloc, name!(a), Value::Variable(name!(v)))?;
    field.directives = DirectiveList::of(alloc, include)?;
    field.selection_set = vec![in alloc;
        Selection::fragment_spread(alloc, FragmentSpread::new(alloc, name!(F)))?,
        Selection::inline_fragment(alloc, inline_fragment(alloc)?)?,
    ]?;
    Ok(field)
}

/// `$v: Int = 1 @d`
pub(crate) fn variable(alloc: Global) -> Result<VariableDefinition, AllocError> {
    let one = Value::from_i32(alloc, 1)?;
    let ty = Node::new(alloc, ty!(Int))?;
    Ok(VariableDefinition {
        default_value: Some(Node::new(alloc, one)?),
        directives: DirectiveList::of(alloc, Directive::new(alloc, name!(d)))?,
        ..VariableDefinition::new(alloc, name!(v), ty)
    })
}

/// An anonymous query of these selections.
pub(crate) fn query(alloc: Global, selection_set: Vec<Selection>) -> OperationDefinition {
    OperationDefinition {
        selection_set,
        ..OperationDefinition::new(alloc, OperationType::Query)
    }
}

/// `{ a }`
pub(crate) fn query_of_a(alloc: Global) -> Result<OperationDefinition, AllocError> {
    Ok(query(alloc, vec![in alloc; a(alloc)?]?))
}

/// `query N($v: Int = 1 @d) { r: s(a: $v) @include(if: true) { ...F ... on T { id } } }`
pub(crate) fn operation(alloc: Global) -> Result<OperationDefinition, AllocError> {
    let set = vec![in alloc; Selection::field(alloc, field(alloc)?)?]?;
    let mut operation = query(alloc, set);
    operation.name = Some(name!(N));
    operation.variables = vec![in alloc; Node::new(alloc, variable(alloc)?)?]?;
    Ok(operation)
}

/// `"D" fragment F on T { a }`
pub(crate) fn fragment(alloc: Global) -> Result<FragmentDefinition, AllocError> {
    Ok(FragmentDefinition {
        description: Some(NodeStr::new_str(alloc, "D")?),
        selection_set: vec![in alloc; a(alloc)?]?,
        ..FragmentDefinition::new(alloc, name!(F), name!(T))
    })
}

/// So many fields `a`.
pub(crate) fn fields(alloc: Global, count: usize) -> Result<Vec<Selection>, AllocError> {
    let mut set = Vec::new(alloc);
    for _ in 0..count {
        set.push(a(alloc)?)?;
    }
    Ok(set)
}

/// So many selection sets around `a`, each in the field `a` of the one before.
pub(crate) fn nested(alloc: Global, depth: usize) -> Result<Vec<Selection>, AllocError> {
    let mut set = vec![in alloc; a(alloc)?]?;
    for _ in 1..depth {
        let mut outer = Field::new(alloc, name!(a));
        outer.selection_set = set;
        set = vec![in alloc; Selection::field(alloc, outer)?]?;
    }
    Ok(set)
}
