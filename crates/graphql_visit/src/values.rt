//! Walks over values, types, arguments, directives and definitions of input values.
ghost use Rattle.graphql_base.specs.Node.{node_value};
ghost use Rattle.graphql_values.specs.kinds.Arguments.{ArgumentTree};
ghost use Rattle.graphql_values.specs.kinds.Directives.{DirectiveTree};
ghost use Rattle.graphql_values.specs.kinds.InputValueDefinitions.{input_value_definition_kind};
ghost use Rattle.graphql_values.specs.kinds.TypeReferences.{TypeTree};
ghost use Rattle.graphql_values.specs.kinds.Values.{ValueTree};
ghost use Rattle.graphql_values.specs.trees.DefinitionTrees.{input_value_definition_tree};
ghost use Rattle.graphql_values.specs.trees.DirectiveTrees.{argument_tree, directive_tree};
ghost use Rattle.graphql_values.specs.trees.TypeTrees.{type_tree};
ghost use Rattle.graphql_values.specs.trees.ValueTrees.{object_field_trees, value_tree, value_trees};
ghost use Rattle.graphql_visit.specs.NodeRefs.{object_field_tree};
ghost use Rattle.graphql_visit.specs.Visits.{one};
ghost use Rattle.graphql_visit.specs.Walks.{Walks};
ghost use Rattle.graphql_visit.specs.kinds.Values.{argument_visited, directive_visited, input_value_definition_visited, object_field_visited, object_fields_visits, type_visited, value_visited, values_visits, within_type, within_value};

use crate::node_ref::NodeRef;
use crate::visitor::{Ended, Visitor, enter, leave};
use crate::walked::{Walked, walk, walk_all, walk_optional};
use graphql_ast::ast::{Argument, Directive, InputValueDefinition, Type, Value};
use graphql_ast::{Name, Node};

/// Walks over a value.
#[cycle(values)]
#[tactic(auto, using(crate::proofs::Steps::one_steps))]
fn walk_value<V: Visitor>(node: &Node<Value>, visitor: &mut V) -> Result<(), Ended<V::Error>>
    ensures { Walks V.enters V.leaves (one value_visited (value_tree (node_value node.now)))
        visitor.old result visitor.new }
{
    if !enter(visitor, NodeRef::Value(node))? {
        return Ok(());
    }
    walk_within_value(node, visitor)?;
    leave(visitor, NodeRef::Value(node))
}

#[cycle(values)]
#[tactic(auto, using(crate::proofs::WithinValues::value_steps, crate::proofs::ValueSizes::within_steps))]
fn walk_within_value<V: Visitor>(value: &Value, visitor: &mut V) -> Result<(), Ended<V::Error>>
    ensures { Walks V.enters V.leaves (within_value (value_tree value.now))
        visitor.old result visitor.new }
{
    match value {
        Value::List(items) => walk_items(items, visitor),
        Value::Object(fields) => walk_object_fields(fields, visitor),
        _ => Ok(()),
    }
}

#[cycle(values)]
#[tactic(auto, using(crate::proofs::Steps::loop_steps, crate::proofs::WithinValues::items_walked, crate::proofs::ValueSizes::item_size))]
fn walk_items<V: Visitor>(items: &[Node<Value>], visitor: &mut V) -> Result<(), Ended<V::Error>>
    ensures { Walks V.enters V.leaves (values_visits (value_trees items.now))
        visitor.old result visitor.new }
{
    for item in items {
        walk_value(item, visitor)?;
    }
    Ok(())
}

#[cycle(values)]
#[tactic(auto, using(crate::proofs::Steps::loop_steps, crate::proofs::WithinValues::fields_walked, crate::proofs::ValueSizes::field_size))]
fn walk_object_fields<V: Visitor>(
    fields: &[(Name, Node<Value>)],
    visitor: &mut V,
) -> Result<(), Ended<V::Error>>
    ensures { Walks V.enters V.leaves (object_fields_visits (object_field_trees fields.now))
        visitor.old result visitor.new }
{
    for field in fields {
        walk_object_field(field, visitor)?;
    }
    Ok(())
}

/// Walks over a field of an object.
#[cycle(values)]
#[tactic(auto, using(crate::proofs::Steps::one_steps))]
fn walk_object_field<V: Visitor>(
    field: &(Name, Node<Value>),
    visitor: &mut V,
) -> Result<(), Ended<V::Error>>
    ensures { Walks V.enters V.leaves (one object_field_visited (object_field_tree field.now))
        visitor.old result visitor.new }
{
    if !enter(visitor, NodeRef::ObjectField(field))? {
        return Ok(());
    }
    walk_value(&field.1, visitor)?;
    leave(visitor, NodeRef::ObjectField(field))
}

impl Walked for Node<Value> {
    ghost Tree = { ValueTree };

    ghost tree = { λ node. value_tree (node_value node) };

    ghost visited = { value_visited };

    fn node_ref(&self) -> NodeRef<'_> {
        NodeRef::Value(self)
    }

    #[tactic(auto, using(crate::proofs::Steps::walk_steps))]
    fn walk_within<V: Visitor>(&self, visitor: &mut V) -> Result<(), Ended<V::Error>> {
        walk_within_value(self, visitor)
    }
}

impl Walked for Node<Argument> {
    ghost Tree = { ArgumentTree };

    ghost tree = { λ node. argument_tree (node_value node) };

    ghost visited = { argument_visited };

    fn node_ref(&self) -> NodeRef<'_> {
        NodeRef::Argument(self)
    }

    #[tactic(auto, using(crate::proofs::Steps::walk_steps))]
    fn walk_within<V: Visitor>(&self, visitor: &mut V) -> Result<(), Ended<V::Error>> {
        walk(&self.value, visitor)
    }
}

impl Walked for Node<Directive> {
    ghost Tree = { DirectiveTree };

    ghost tree = { λ node. directive_tree (node_value node) };

    ghost visited = { directive_visited };

    fn node_ref(&self) -> NodeRef<'_> {
        NodeRef::Directive(self)
    }

    #[tactic(auto, using(crate::proofs::Steps::walk_steps))]
    fn walk_within<V: Visitor>(&self, visitor: &mut V) -> Result<(), Ended<V::Error>> {
        walk_all(&self.arguments, visitor)
    }
}

/// Walks over a type.
#[cycle(types)]
#[tactic(auto, using(crate::proofs::Steps::one_steps))]
fn walk_type<V: Visitor>(ty: &Type, visitor: &mut V) -> Result<(), Ended<V::Error>>
    ensures { Walks V.enters V.leaves (one type_visited (type_tree ty.now))
        visitor.old result visitor.new }
{
    if !enter(visitor, NodeRef::Type(ty))? {
        return Ok(());
    }
    walk_within_type(ty, visitor)?;
    leave(visitor, NodeRef::Type(ty))
}

#[cycle(types)]
#[tactic(auto, using(crate::proofs::WithinTypes::type_steps))]
fn walk_within_type<V: Visitor>(ty: &Type, visitor: &mut V) -> Result<(), Ended<V::Error>>
    ensures { Walks V.enters V.leaves (within_type (type_tree ty.now))
        visitor.old result visitor.new }
{
    match ty {
        Type::List(item) => walk_type(item, visitor),
        Type::NonNullList(item) => walk_type(item, visitor),
        _ => Ok(()),
    }
}

impl Walked for Type {
    ghost Tree = { TypeTree };

    ghost tree = { type_tree };

    ghost visited = { type_visited };

    fn node_ref(&self) -> NodeRef<'_> {
        NodeRef::Type(self)
    }

    #[tactic(auto, using(crate::proofs::Steps::walk_steps))]
    fn walk_within<V: Visitor>(&self, visitor: &mut V) -> Result<(), Ended<V::Error>> {
        walk_within_type(self, visitor)
    }
}

impl Walked for Node<Type> {
    ghost Tree = { TypeTree };

    ghost tree = { λ node. type_tree (node_value node) };

    ghost visited = { type_visited };

    fn node_ref(&self) -> NodeRef<'_> {
        NodeRef::Type(self)
    }

    #[tactic(auto, using(crate::proofs::Steps::walk_steps))]
    fn walk_within<V: Visitor>(&self, visitor: &mut V) -> Result<(), Ended<V::Error>> {
        walk_within_type(self, visitor)
    }
}

impl Walked for Node<InputValueDefinition> {
    ghost Tree = { input_value_definition_kind.Tree };

    ghost tree = { λ node. input_value_definition_tree (node_value node) };

    ghost visited = { input_value_definition_visited };

    fn node_ref(&self) -> NodeRef<'_> {
        NodeRef::InputValueDefinition(self)
    }

    #[tactic(auto, using(crate::proofs::Steps::walk_steps))]
    fn walk_within<V: Visitor>(&self, visitor: &mut V) -> Result<(), Ended<V::Error>> {
        walk(&self.ty, visitor)?;
        walk_optional(self.default_value.as_ref(), visitor)?;
        walk_all(&self.directives.0, visitor)
    }
}
