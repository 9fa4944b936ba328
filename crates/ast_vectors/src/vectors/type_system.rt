//! Trees of type system definitions.
use graphql_ast::ast::{
    Directive, DirectiveDefinition, DirectiveList, DirectiveLocation, FieldDefinition,
    InputValueDefinition, ObjectTypeDefinition, ScalarTypeDefinition,
};
use graphql_ast::node::{Node, NodeStr};
use graphql_ast::{name, ty, value};
use std::alloc::{AllocError, Global};

/// `scalar A` with this description.
pub(super) fn scalar(alloc: Global, description: &str) -> Result<ScalarTypeDefinition, AllocError> {
    let mut scalar = ScalarTypeDefinition::new(alloc, name!(A));
    scalar.description = Some(NodeStr::new_str(alloc, description)?);
    Ok(scalar)
}

/// `"F" f(x: Int = 1): [String!]! @e`
fn described_field(alloc: Global) -> Result<FieldDefinition, AllocError> {
    let mut x = InputValueDefinition::new(alloc, name!(x), Node::new(alloc, ty!(Int))?);
    x.default_value = Some(Node::new(alloc, value!(in alloc; 1)?)?);
    Ok(FieldDefinition {
        description: Some(NodeStr::new_str(alloc, "F")?),
        name: name!(f),
        arguments: vec![in alloc; Node::new(alloc, x)?]?,
        ty: ty!(in alloc; [String!]!)?,
        directives: DirectiveList::of(alloc, Directive::new(alloc, name!(e)))?,
    })
}

/// `type T implements A & B @d { .. }` of one field, which has a description, an argument and a directive.
pub(super) fn object_with_field(alloc: Global) -> Result<ObjectTypeDefinition, AllocError> {
    Ok(ObjectTypeDefinition {
        implements_interfaces: vec![in alloc; name!(A), name!(B)]?,
        directives: DirectiveList::of(alloc, Directive::new(alloc, name!(d)))?,
        fields: vec![in alloc; Node::new(alloc, described_field(alloc)?)?]?,
        ..ObjectTypeDefinition::new(alloc, name!(T))
    })
}

/// `f(a: [Int] = [1] @x): Int`
pub(super) fn field_with_argument(alloc: Global) -> Result<FieldDefinition, AllocError> {
    let ty = Node::new(alloc, ty!(in alloc; [Int])?)?;
    let mut a = InputValueDefinition::new(alloc, name!(a), ty);
    a.default_value = Some(Node::new(alloc, value!(in alloc; [1])?)?);
    a.directives = DirectiveList::of(alloc, Directive::new(alloc, name!(x)))?;
    let mut field = FieldDefinition::new(alloc, name!(f), ty!(Int));
    field.arguments = vec![in alloc; Node::new(alloc, a)?]?;
    Ok(field)
}

/// `directive @d(a: Int @x, b: Int) on FIELD`
pub(super) fn directive_definition(alloc: Global) -> Result<DirectiveDefinition, AllocError> {
    let mut a = InputValueDefinition::new(alloc, name!(a), Node::new(alloc, ty!(Int))?);
    a.directives = DirectiveList::of(alloc, Directive::new(alloc, name!(x)))?;
    let b = InputValueDefinition::new(alloc, name!(b), Node::new(alloc, ty!(Int))?);
    Ok(DirectiveDefinition {
        arguments: vec![in alloc; Node::new(alloc, a)?, Node::new(alloc, b)?]?,
        locations: vec![in alloc; DirectiveLocation::Field]?,
        ..DirectiveDefinition::new(alloc, name!(d))
    })
}
