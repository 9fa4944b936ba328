//! Types, values, arguments, directives and definitions of input values without locations.
ghost use Rattle.std.specs.Prelude.{◌≡◌, [], IfOk, List};
ghost use Rattle.graphql_values.specs.kinds.Arguments.{ArgumentTree};
ghost use Rattle.graphql_values.specs.kinds.Directives.{DirectiveTree};
ghost use Rattle.graphql_values.specs.kinds.InputValueDefinitions.{input_value_definition_kind};
ghost use Rattle.graphql_values.specs.kinds.TypeReferences.{TypeTree};
ghost use Rattle.graphql_values.specs.kinds.Values.{ValueTree};
ghost use Rattle.graphql_values.specs.trees.DefinitionTrees.{input_value_definition_tree};
ghost use Rattle.graphql_values.specs.trees.DirectiveTrees.{argument_tree, directive_tree, directive_trees};
ghost use Rattle.graphql_values.specs.trees.TypeTrees.{type_tree};
ghost use Rattle.graphql_values.specs.trees.ValueTrees.{object_field_trees, value_tree, value_trees};
ghost use Rattle.graphql_locations.specs.Leaves.{list_locations, named_node_locations, node_locations};
ghost use Rattle.graphql_locations.specs.kinds.Values.{argument_locations, directive_list_locations, directive_locations, input_value_definition_locations, type_locations, value_locations};

use crate::located::Located;
use graphql_ast::ast::{Argument, Directive, DirectiveList, InputValueDefinition, Type, Value};
use graphql_ast::{Name, Node};
use std::alloc::{AllocError, Global};

impl Located for Type {
    ghost Tree = { TypeTree };

    ghost tree = { type_tree };

    ghost locations = { type_locations };

    fn without_locations(&self, alloc: Global) -> Result<Type, AllocError> {
        match self {
            Type::Named(name) => Ok(Type::Named(name.without_locations(alloc)?)),
            Type::NonNullNamed(name) => Ok(Type::NonNullNamed(name.without_locations(alloc)?)),
            Type::List(item) => Ok(Type::List(Box::new(
                alloc,
                (**item).without_locations(alloc)?,
            )?)),
            Type::NonNullList(item) => Ok(Type::NonNullList(Box::new(
                alloc,
                (**item).without_locations(alloc)?,
            )?)),
        }
    }
}

#[cycle(values)]
#[tactic(auto, using(crate::proofs::ValuesStripped::value_steps))]
fn strip_value(alloc: Global, value: &Value) -> Result<Value, AllocError>
    ensures tree { IfOk result (λ made. value_tree made ≡ value_tree value.now) }
    ensures locations { IfOk result (λ made. value_locations made ≡ []) }
{
    match value {
        Value::Null => Ok(Value::Null),
        Value::Enum(name) => Ok(Value::Enum(name.without_locations(alloc)?)),
        Value::Variable(name) => Ok(Value::Variable(name.without_locations(alloc)?)),
        Value::String(text) => Ok(Value::String(text.clone()?)),
        Value::Float(number) => Ok(Value::Float(number.clone()?)),
        Value::Int(number) => Ok(Value::Int(number.clone()?)),
        Value::Boolean(truth) => Ok(Value::Boolean(*truth)),
        Value::List(items) => Ok(Value::List(strip_items(alloc, items)?)),
        Value::Object(fields) => Ok(Value::Object(strip_object_fields(alloc, fields)?)),
    }
}

#[cycle(values)]
#[tactic(auto, using(crate::proofs::PartsStripped::list_steps, crate::proofs::ValuesStripped::items_made))]
fn strip_items(alloc: Global, items: &[Node<Value>]) -> Result<Vec<Node<Value>>, AllocError>
    ensures trees { IfOk result (λ made. value_trees made.items ≡ value_trees items.now) }
    ensures locations { IfOk result (λ made.
        list_locations (node_locations value_locations) made.items ≡ []) }
{
    let mut made = Vec::with_capacity(alloc, items.len())?;
    for item in items {
        let value = strip_value(alloc, item)?;
        made.push(Node::new(alloc, value)?)?;
    }
    Ok(made)
}

#[cycle(values)]
#[tactic(auto, using(crate::proofs::PartsStripped::list_steps, crate::proofs::ValuesStripped::fields_made))]
fn strip_object_fields(
    alloc: Global,
    fields: &[(Name, Node<Value>)],
) -> Result<Vec<(Name, Node<Value>)>, AllocError>
    ensures trees { IfOk result (λ made.
        object_field_trees made.items ≡ object_field_trees fields.now) }
    ensures locations { IfOk result (λ made.
        list_locations (named_node_locations value_locations) made.items ≡ []) }
{
    let mut made = Vec::with_capacity(alloc, fields.len())?;
    for field in fields {
        let name = field.0.without_locations(alloc)?;
        let value = strip_value(alloc, &field.1)?;
        made.push((name, Node::new(alloc, value)?))?;
    }
    Ok(made)
}

impl Located for Value {
    ghost Tree = { ValueTree };

    ghost tree = { value_tree };

    ghost locations = { value_locations };

    fn without_locations(&self, alloc: Global) -> Result<Value, AllocError> {
        strip_value(alloc, self)
    }
}

impl Located for Argument {
    ghost Tree = { ArgumentTree };

    ghost tree = { argument_tree };

    ghost locations = { argument_locations };

    fn without_locations(&self, alloc: Global) -> Result<Argument, AllocError> {
        Ok(Argument {
            name: self.name.without_locations(alloc)?,
            value: self.value.without_locations(alloc)?,
        })
    }
}

impl Located for Directive {
    ghost Tree = { DirectiveTree };

    ghost tree = { directive_tree };

    ghost locations = { directive_locations };

    fn without_locations(&self, alloc: Global) -> Result<Directive, AllocError> {
        Ok(Directive {
            name: self.name.without_locations(alloc)?,
            arguments: self.arguments.without_locations(alloc)?,
        })
    }
}

impl Located for DirectiveList {
    ghost Tree = { List DirectiveTree };

    ghost tree = { directive_trees };

    ghost locations = { directive_list_locations };

    fn without_locations(&self, alloc: Global) -> Result<DirectiveList, AllocError> {
        Ok(DirectiveList(self.0.without_locations(alloc)?))
    }
}

impl Located for InputValueDefinition {
    ghost Tree = { input_value_definition_kind.Tree };

    ghost tree = { input_value_definition_tree };

    ghost locations = { input_value_definition_locations };

    fn without_locations(&self, alloc: Global) -> Result<InputValueDefinition, AllocError> {
        Ok(InputValueDefinition {
            description: self.description.without_locations(alloc)?,
            name: self.name.without_locations(alloc)?,
            ty: self.ty.without_locations(alloc)?,
            default_value: self.default_value.without_locations(alloc)?,
            directives: self.directives.without_locations(alloc)?,
        })
    }
}
