//! The flaws of values, arguments, directives and definitions of input values and of directives.
ghost use Rattle.std.specs.Prelude.{◌≡◌, OnOk};
ghost use Rattle.graphql_base.specs.Node.{node_value};
ghost use Rattle.graphql_values.specs.kinds.Arguments.{arguments_flaws};
ghost use Rattle.graphql_values.specs.kinds.DefaultValues.{default_value_flaws};
ghost use Rattle.graphql_values.specs.kinds.Directives.{directives_flaws};
ghost use Rattle.graphql_values.specs.kinds.Values.{admits_variables, object_fields_flaws, value_flaws, values_flaws};
ghost use Rattle.graphql_values.specs.trees.DirectiveTrees.{argument_trees, directive_trees};
ghost use Rattle.graphql_values.specs.trees.ValueTrees.{constness_of, default_value_tree, object_field_trees, value_tree, value_trees};
ghost use Rattle.graphql_flaws.specs.FoundFlaws.{Finds};

use crate::find_flaws::FindFlaws;
use crate::found_flaw::PathStep::{Item, Member};
use crate::parts::push_nodes;
use crate::search::FlawSearch;
use graphql_ast::ast::{
    Argument, Directive, DirectiveDefinition, DirectiveList, InputValueDefinition, Value,
};
use graphql_ast::ill_formed::SideCondition::{HasLocation, IsConstant, IsNotReserved};
use graphql_ast::{Name, Node};
use graphql_values::writers::{Constness, is_enum_name};
use std::alloc::AllocError;

/// Whether variables may stand in the context.
fn admits_variables(constness: Constness) -> bool
    ensures { result ≡ admits_variables (constness_of constness) }
{
    match constness {
        Constness::Const => false,
        Constness::NonConst => true,
    }
}

/// Finds the enum values in a value that are `true`, `false` or `null`, and the variables where the context is constant.
#[cycle(values)]
fn push_value<'a>(
    search: &mut FlawSearch<'a>,
    value: &'a Value,
    constness: Constness,
) -> Result<(), AllocError>
    ensures { OnOk result (Finds
        (value_flaws (constness_of constness) (value_tree value.now)) search.old search.new) }
{
    match value {
        Value::Enum(name) => {
            let is_free = is_enum_name(name.as_str());
            search.push_unless(is_free, IsNotReserved, Some(name), &[Member("value")])
        }
        Value::Variable(name) => {
            search.push_unless(admits_variables(constness), IsConstant, Some(name), &[])
        }
        Value::List(items) => push_items(search, items, constness),
        Value::Object(fields) => push_object_fields(search, fields, constness),
        Value::Null | Value::String(_) | Value::Float(_) | Value::Int(_) | Value::Boolean(_) => {
            Ok(())
        }
    }
}

#[cycle(values)]
fn push_items<'a>(
    search: &mut FlawSearch<'a>,
    items: &'a [Node<Value>],
    constness: Constness,
) -> Result<(), AllocError>
    ensures { OnOk result (Finds
        (values_flaws (constness_of constness) (value_trees items.now)) search.old search.new) }
{
    for index in 0..items.len() {
        let item = &items[index];
        let outer = search.enter(&[Member("values"), Item(index)], item.location())?;
        push_value(search, item, constness)?;
        search.leave(outer);
    }
    Ok(())
}

#[cycle(values)]
fn push_object_fields<'a>(
    search: &mut FlawSearch<'a>,
    fields: &'a [(Name, Node<Value>)],
    constness: Constness,
) -> Result<(), AllocError>
    ensures { OnOk result (Finds
        (object_fields_flaws (constness_of constness) (object_field_trees fields.now))
        search.old search.new) }
{
    for index in 0..fields.len() {
        let field = &fields[index];
        let steps = [Member("fields"), Item(index), Member("value")];
        let outer = search.enter(&steps, field.1.location())?;
        push_value(search, &field.1, constness)?;
        search.leave(outer);
    }
    Ok(())
}

/// Finds the flaws of the value in a member.
fn push_value_node<'a>(
    search: &mut FlawSearch<'a>,
    member: &'static str,
    node: &'a Node<Value>,
    constness: Constness,
) -> Result<(), AllocError>
    ensures { OnOk result (Finds
        (value_flaws (constness_of constness) (value_tree (node_value node.now)))
        search.old search.new) }
{
    let outer = search.enter(&[Member(member)], node.location())?;
    push_value(search, node, constness)?;
    search.leave(outer);
    Ok(())
}

/// Finds the flaws of a default value, which stands in a const context.
pub(crate) fn push_default_value<'a>(
    search: &mut FlawSearch<'a>,
    default_value: Option<&'a Node<Value>>,
) -> Result<(), AllocError>
    ensures { OnOk result (Finds
        (default_value_flaws (default_value_tree default_value.entry)) search.old search.new) }
{
    match default_value {
        Some(node) => push_value_node(search, "defaultValue", node, Constness::Const),
        None => Ok(()),
    }
}

/// Finds the flaws of the arguments of a field or a directive.
pub(crate) fn push_arguments<'a>(
    search: &mut FlawSearch<'a>,
    arguments: &'a [Node<Argument>],
    constness: Constness,
) -> Result<(), AllocError>
    ensures { OnOk result (Finds
        (arguments_flaws (constness_of constness) (argument_trees arguments.now))
        search.old search.new) }
{
    for index in 0..arguments.len() {
        let argument = &arguments[index];
        let outer = search.enter(&[Member("arguments"), Item(index)], argument.location())?;
        push_value_node(search, "value", &argument.value, constness)?;
        search.leave(outer);
    }
    Ok(())
}

/// Finds the flaws of the items of a list of directives.
fn push_directive_items<'a>(
    search: &mut FlawSearch<'a>,
    directives: &'a DirectiveList,
    constness: Constness,
) -> Result<(), AllocError>
    ensures { OnOk result (Finds
        (directives_flaws (constness_of constness) (directive_trees directives.now))
        search.old search.new) }
{
    let nodes = directives.0.as_slice();
    for index in 0..nodes.len() {
        let directive = &nodes[index];
        let outer = search.enter(&[Item(index)], directive.location())?;
        push_arguments(search, &directive.arguments, constness)?;
        search.leave(outer);
    }
    Ok(())
}

/// Finds the flaws of the directives of a node.
pub(crate) fn push_directives<'a>(
    search: &mut FlawSearch<'a>,
    directives: &'a DirectiveList,
    constness: Constness,
) -> Result<(), AllocError>
    ensures { OnOk result (Finds
        (directives_flaws (constness_of constness) (directive_trees directives.now))
        search.old search.new) }
{
    let outer = search.enter(&[Member("directives")], None)?;
    push_directive_items(search, directives, constness)?;
    search.leave(outer);
    Ok(())
}

impl FindFlaws for Value {
    fn push_flaws<'a>(&'a self, search: &mut FlawSearch<'a>) -> Result<(), AllocError> {
        push_value(search, self, Constness::NonConst)
    }
}

impl FindFlaws for Directive {
    fn push_flaws<'a>(&'a self, search: &mut FlawSearch<'a>) -> Result<(), AllocError> {
        push_arguments(search, &self.arguments, Constness::NonConst)
    }
}

impl FindFlaws for DirectiveList {
    fn push_flaws<'a>(&'a self, search: &mut FlawSearch<'a>) -> Result<(), AllocError> {
        push_directive_items(search, self, Constness::NonConst)
    }
}

impl FindFlaws for InputValueDefinition {
    fn push_flaws<'a>(&'a self, search: &mut FlawSearch<'a>) -> Result<(), AllocError> {
        push_default_value(search, self.default_value.as_ref())?;
        push_directives(search, &self.directives, Constness::Const)
    }
}

impl FindFlaws for DirectiveDefinition {
    fn push_flaws<'a>(&'a self, search: &mut FlawSearch<'a>) -> Result<(), AllocError> {
        push_nodes(search, "arguments", &self.arguments)?;
        let has_location = !self.locations.is_empty();
        search.push_unless(has_location, HasLocation, Some(&self.name), &[])
    }
}
