//! Values, arguments, directives and definitions of input values are rebuilt.
ghost use Rattle.std.specs.Prelude.{◌≡◌, IfOk, option_map};
ghost use Rattle.graphql_base.specs.Node.{node_location, node_value};
ghost use Rattle.graphql_values.specs.kinds.Arguments.{ArgumentTree};
ghost use Rattle.graphql_values.specs.kinds.Directives.{DirectiveTree};
ghost use Rattle.graphql_values.specs.kinds.InputValueDefinitions.{input_value_definition_kind};
ghost use Rattle.graphql_values.specs.kinds.Values.{ValueTree};
ghost use Rattle.graphql_values.specs.trees.DefinitionTrees.{input_value_definition_tree};
ghost use Rattle.graphql_values.specs.trees.DirectiveTrees.{argument_tree, argument_trees, directive_tree, directive_trees};
ghost use Rattle.graphql_values.specs.trees.ValueTrees.{object_field_trees, value_tree, value_trees};
ghost use Rattle.graphql_visit.specs.NodeRefs.{object_field_tree};
ghost use Rattle.graphql_rewrite.specs.Outcomes.{outcome};
ghost use Rattle.graphql_rewrite.specs.kinds.Values.{rewritten_argument, rewritten_arguments, rewritten_directive, rewritten_directives, rewritten_input_value_definition, rewritten_object_field, rewritten_object_fields, rewritten_value, rewritten_values, rewritten_within};

use crate::parts::or_copy;
use crate::rebuild::{Rebuild, rebuild_node, rebuild_nodes};
use crate::rewriter::{Rebuilt, Rewriter};
use crate::shared_lists::keep;
use graphql_ast::ast::{Argument, Directive, DirectiveList, InputValueDefinition, Value};
use graphql_ast::{Name, Node};
use std::alloc::Global;

/// What is made of a value behind what was made within it.
fn value_behind<R: Rewriter>(
    alloc: Global,
    rewriter: &R,
    value: &Value,
    inner: Option<Value>,
) -> Rebuilt<Value>
    ensures { IfOk result (λ made. outcome value_tree (value_tree value.now) made
        ≡ (R.rewriting rewriter.now).value (outcome value_tree (value_tree value.now) inner)) }
{
    match inner {
        None => rewriter.value(alloc, value),
        Some(inner) => match rewriter.value(alloc, &inner)? {
            None => Ok(Some(inner)),
            Some(made) => Ok(Some(made)),
        },
    }
}

#[cycle(values)]
fn rebuild_value_node<R: Rewriter>(
    alloc: Global,
    rewriter: &R,
    node: &Node<Value>,
) -> Rebuilt<Node<Value>>
    ensures tree { IfOk result (λ made.
        outcome (λ made. value_tree (node_value made)) (value_tree (node_value node.now)) made
        ≡ rewritten_value (R.rewriting rewriter.now) (value_tree (node_value node.now))) }
    ensures location { IfOk result (λ made.
        outcome node_location (node_location node.now) made ≡ node_location node.now) }
{
    let inner = rebuild_within(alloc, rewriter, node)?;
    match value_behind(alloc, rewriter, node, inner)? {
        Some(made) => Ok(Some(node.same_location(alloc, made)?)),
        None => Ok(None),
    }
}

#[cycle(values)]
#[tactic(auto, using(crate::proofs::ValuesMade::within_steps, graphql_visit::proofs::ValueSizes::within_steps))]
fn rebuild_within<R: Rewriter>(alloc: Global, rewriter: &R, value: &Value) -> Rebuilt<Value>
    ensures { IfOk result (λ made. outcome value_tree (value_tree value.now) made
        ≡ rewritten_within (R.rewriting rewriter.now) (value_tree value.now)) }
{
    match value {
        Value::List(items) => match rebuild_items(alloc, rewriter, items)? {
            Some(made) => Ok(Some(Value::List(made))),
            None => Ok(None),
        },
        Value::Object(fields) => match rebuild_object_fields(alloc, rewriter, fields)? {
            Some(made) => Ok(Some(Value::Object(made))),
            None => Ok(None),
        },
        _ => Ok(None),
    }
}

#[cycle(values)]
#[tactic(auto, using(crate::proofs::Lists::made_on, crate::proofs::ValuesMade::items_made, graphql_visit::proofs::ValueSizes::item_size))]
fn rebuild_items<R: Rewriter>(
    alloc: Global,
    rewriter: &R,
    items: &[Node<Value>],
) -> Rebuilt<Vec<Node<Value>>>
    ensures { IfOk result (λ made.
        outcome (λ made. value_trees made.items) (value_trees items.now) made
        ≡ rewritten_values (R.rewriting rewriter.now) (value_trees items.now)) }
{
    let mut made = None;
    for (index, item) in items.iter().enumerate() {
        let changed = rebuild_value_node(alloc, rewriter, item)?;
        made = keep(alloc, made, items, index, changed)?;
    }
    Ok(made)
}

#[cycle(values)]
#[tactic(auto, using(crate::proofs::Lists::made_on, crate::proofs::ValuesMade::fields_made, graphql_visit::proofs::ValueSizes::field_size))]
fn rebuild_object_fields<R: Rewriter>(
    alloc: Global,
    rewriter: &R,
    fields: &[(Name, Node<Value>)],
) -> Rebuilt<Vec<(Name, Node<Value>)>>
    ensures { IfOk result (λ made.
        outcome (λ made. object_field_trees made.items) (object_field_trees fields.now) made
        ≡ rewritten_object_fields (R.rewriting rewriter.now) (object_field_trees fields.now)) }
{
    let mut made = None;
    for (index, field) in fields.iter().enumerate() {
        let changed = rebuild_object_field(alloc, rewriter, field)?;
        made = keep(alloc, made, fields, index, changed)?;
    }
    Ok(made)
}

/// A field of an object.
#[cycle(values)]
fn rebuild_object_field<R: Rewriter>(
    alloc: Global,
    rewriter: &R,
    field: &(Name, Node<Value>),
) -> Rebuilt<(Name, Node<Value>)>
    ensures { IfOk result (λ made. outcome object_field_tree (object_field_tree field.now) made
        ≡ rewritten_object_field (R.rewriting rewriter.now) (object_field_tree field.now)) }
{
    match rebuild_value_node(alloc, rewriter, &field.1)? {
        Some(value) => Ok(Some((field.0.clone()?, value))),
        None => Ok(None),
    }
}

impl Rebuild for Value {
    ghost Tree = { ValueTree };

    ghost tree = { value_tree };

    ghost rewritten = { rewritten_value };

    fn rebuild<R: Rewriter>(&self, alloc: Global, rewriter: &R) -> Rebuilt<Value> {
        let inner = rebuild_within(alloc, rewriter, self)?;
        value_behind(alloc, rewriter, self, inner)
    }
}

/// A default value, if there is one.
pub(crate) fn rebuild_default<R: Rewriter>(
    alloc: Global,
    rewriter: &R,
    value: &Option<Node<Value>>,
) -> Rebuilt<Option<Node<Value>>>
    ensures { IfOk result (λ made.
        outcome (option_map (λ node. value_tree (node_value node)))
        (option_map (λ node. value_tree (node_value node)) value.now) made
        ≡ option_map (rewritten_value (R.rewriting rewriter.now))
        (option_map (λ node. value_tree (node_value node)) value.now)) }
{
    match value {
        Some(node) => match rebuild_node(alloc, rewriter, node)? {
            Some(made) => Ok(Some(Some(made))),
            None => Ok(None),
        },
        None => Ok(None),
    }
}

impl Rebuild for Argument {
    ghost Tree = { ArgumentTree };

    ghost tree = { argument_tree };

    ghost rewritten = { rewritten_argument };

    fn rebuild<R: Rewriter>(&self, alloc: Global, rewriter: &R) -> Rebuilt<Argument> {
        match rebuild_node(alloc, rewriter, &self.value)? {
            Some(value) => Ok(Some(Argument {
                name: self.name.clone()?,
                value,
            })),
            None => Ok(None),
        }
    }
}

/// The arguments of a field or a directive.
pub(crate) fn rebuild_arguments<R: Rewriter>(
    alloc: Global,
    rewriter: &R,
    arguments: &[Node<Argument>],
) -> Rebuilt<Vec<Node<Argument>>>
    ensures { IfOk result (λ made.
        outcome (λ made. argument_trees made.items) (argument_trees arguments.now) made
        ≡ rewritten_arguments (R.rewriting rewriter.now) (argument_trees arguments.now)) }
{
    match rebuild_nodes(alloc, rewriter, arguments)? {
        None => rewriter.arguments(alloc, arguments),
        Some(inner) => match rewriter.arguments(alloc, &inner)? {
            None => Ok(Some(inner)),
            Some(made) => Ok(Some(made)),
        },
    }
}

impl Rebuild for Directive {
    ghost Tree = { DirectiveTree };

    ghost tree = { directive_tree };

    ghost rewritten = { rewritten_directive };

    fn rebuild<R: Rewriter>(&self, alloc: Global, rewriter: &R) -> Rebuilt<Directive> {
        match rebuild_arguments(alloc, rewriter, &self.arguments)? {
            Some(arguments) => Ok(Some(Directive {
                name: self.name.clone()?,
                arguments,
            })),
            None => Ok(None),
        }
    }
}

/// The directives of a node.
pub(crate) fn rebuild_directives<R: Rewriter>(
    alloc: Global,
    rewriter: &R,
    directives: &DirectiveList,
) -> Rebuilt<DirectiveList>
    ensures { IfOk result (λ made.
        outcome directive_trees (directive_trees directives.now) made
        ≡ rewritten_directives (R.rewriting rewriter.now) (directive_trees directives.now)) }
{
    match rebuild_nodes(alloc, rewriter, &directives.0)? {
        None => match rewriter.directives(alloc, &directives.0)? {
            None => Ok(None),
            Some(made) => Ok(Some(DirectiveList(made))),
        },
        Some(inner) => match rewriter.directives(alloc, &inner)? {
            None => Ok(Some(DirectiveList(inner))),
            Some(made) => Ok(Some(DirectiveList(made))),
        },
    }
}

impl Rebuild for InputValueDefinition {
    ghost Tree = { input_value_definition_kind.Tree };

    ghost tree = { input_value_definition_tree };

    ghost rewritten = { rewritten_input_value_definition };

    fn rebuild<R: Rewriter>(&self, alloc: Global, rewriter: &R) -> Rebuilt<InputValueDefinition> {
        let default_value = rebuild_default(alloc, rewriter, &self.default_value)?;
        let directives = rebuild_directives(alloc, rewriter, &self.directives)?;
        if default_value.is_none() && directives.is_none() {
            return Ok(None);
        }
        Ok(Some(InputValueDefinition {
            description: self.description.clone()?,
            name: self.name.clone()?,
            ty: self.ty.clone()?,
            default_value: or_copy(default_value, &self.default_value)?,
            directives: or_copy(directives, &self.directives)?,
        }))
    }
}
