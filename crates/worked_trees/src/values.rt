//! Values, directives, and definitions of input values and directives.
use crate::parts::{arguments, description, directives, list, located, node, type_of_list};
use graphql_ast::ast::{
    Argument, Directive, DirectiveDefinition, DirectiveList, DirectiveLocation,
    InputValueDefinition, Type, Value,
};
use graphql_ast::{name, value};
use std::alloc::{AllocError, Global};

/// `[null, A, $v, "s", 1.50000000000000000000000000000002, -7, true, [1], {a: 1}]`
pub fn value(alloc: Global) -> Result<Value, AllocError> {
    value!(in alloc;
        [null, A, $v, "s", 1.50000000000000000000000000000002, -7, true, [1], {a: 1}])
}

/// `[T!]`
pub fn type_reference(alloc: Global) -> Result<Type, AllocError> {
    type_of_list(alloc)
}

/// `x: [1]`
pub fn argument(alloc: Global) -> Result<Argument, AllocError> {
    Ok(Argument::new(located(name!(x)), list(alloc)?))
}

/// `@d(x: 1)`
pub fn directive(alloc: Global) -> Result<Directive, AllocError> {
    Ok(Directive {
        name: located(name!(d)),
        arguments: arguments(alloc)?,
    })
}

/// ` @d(x: 1)`
pub fn directive_list(alloc: Global) -> Result<DirectiveList, AllocError> {
    directives(alloc)
}

/// `"D" i: [T!] = [1] @d(x: 1)`
pub fn input_value_definition(alloc: Global) -> Result<InputValueDefinition, AllocError> {
    Ok(InputValueDefinition {
        description: description(alloc)?,
        name: located(name!(i)),
        ty: node(alloc, type_of_list(alloc)?)?,
        default_value: Some(list(alloc)?),
        directives: directives(alloc)?,
    })
}

/// `"D" directive @d("D" i: [T!] = [1] @d(x: 1)) repeatable on FIELD | QUERY`
pub fn directive_definition(alloc: Global) -> Result<DirectiveDefinition, AllocError> {
    Ok(DirectiveDefinition {
        description: description(alloc)?,
        name: located(name!(d)),
        arguments: vec![in alloc; node(alloc, input_value_definition(alloc)?)?]?,
        repeatable: true,
        locations: vec![in alloc; DirectiveLocation::Field, DirectiveLocation::Query]?,
    })
}
