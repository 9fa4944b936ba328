//! Arguments and directives, which are mostly left out: where there are none, no writer is called.
ghost use Rattle.graphql_text.specs.code.Stack.{CanWrite, IsKept};
ghost use Rattle.graphql_text.specs.code.Writing.{Writes};
ghost use Rattle.graphql_values.specs.kinds.Arguments.{arguments_nesting, arguments_shape};
ghost use Rattle.graphql_values.specs.kinds.Directives.{directives_nesting, directives_shape};
ghost use Rattle.graphql_values.specs.trees.DirectiveTrees.{argument_trees, directive_trees};

use graphql_base::node::Node;
use graphql_text::writers::{Place, Stack, Target, Written};
use graphql_values::argument::Argument;
use graphql_values::directive_list::DirectiveList;
use graphql_values::writers::{ValueEntry, write_arguments};

/// Writes the arguments of a field; nothing where there are none.
#[inline(always)]
pub(crate) fn write_optional_arguments<'t, O: Target>(
    out: &mut O,
    place: &Place<'_>,
    stack: &mut Stack<ValueEntry<'t>>,
    arguments: &'t [Node<Argument>],
)
    requires { CanWrite place.now stack.old (arguments_nesting (argument_trees arguments.now)) }
    ensures kept { IsKept stack.old stack.new }
    ensures written { Writes O.wrote out.old out.new place.now
        (arguments_shape (argument_trees arguments.now)) }
{
    if arguments.is_empty() {
        return;
    }
    write_arguments(out, place, stack, arguments);
}

/// Writes directives, each after one space; nothing where there are none.
#[inline(always)]
pub(crate) fn write_optional_directives<'t, O: Target>(
    out: &mut O,
    place: &Place<'_>,
    stack: &mut Stack<ValueEntry<'t>>,
    directives: &'t DirectiveList,
)
    requires { CanWrite place.now stack.old (directives_nesting (directive_trees directives.now)) }
    ensures kept { IsKept stack.old stack.new }
    ensures written { Writes O.wrote out.old out.new place.now
        (directives_shape (directive_trees directives.now)) }
{
    if directives.is_empty() {
        return;
    }
    directives.write_at(out, place, stack);
}
