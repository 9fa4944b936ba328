//! Arguments are written: in parentheses, on one line in every layout.
ghost use Rattle.std.specs.Prelude.{◌≡◌, None};
ghost use Rattle.graphql_text.specs.code.IllFormed.{IsFirstFlaw};
ghost use Rattle.graphql_text.specs.layout.Levels.{IsCount};
ghost use Rattle.graphql_text.specs.code.Stack.{CanWrite, IsKept};
ghost use Rattle.graphql_text.specs.code.Writing.{Writes, WritesItems};
ghost use Rattle.graphql_values.specs.kinds.Arguments.{argument_items, arguments_flaws, arguments_nesting, arguments_obey, arguments_shape};
ghost use Rattle.graphql_values.specs.trees.DirectiveTrees.{argument_tree, argument_trees};
ghost use Rattle.graphql_values.specs.trees.ValueTrees.{constness_of};
ghost use Rattle.graphql_values.specs.kinds.Values.{value_nesting};

use crate::argument::Argument;
use crate::constness::Constness;
use crate::value::print::{ValueEntry, find_value_nesting, write_value};
use crate::value::well_formed::{find_ill_formed_value, is_value_well_formed};
use graphql_base::node::Node;
use graphql_text::ill_formed::IllFormed;
use graphql_text::writers::{Place, Stack, Target, write_name_then, write_words};

/// Whether each argument's value is well formed in the context.
pub fn are_arguments_well_formed(arguments: &[Node<Argument>], constness: Constness) -> bool
    ensures { result ≡ arguments_obey (constness_of constness) (argument_trees arguments.now) }
{
    for argument in arguments {
        if !is_value_well_formed(&argument.value, constness) {
            return false;
        }
    }
    true
}

/// Where the value of an argument isn't well formed in the context.
pub fn find_ill_formed_argument(
    arguments: &[Node<Argument>],
    constness: Constness,
) -> Option<IllFormed<'_>>
    ensures { IsFirstFlaw
        (arguments_flaws (constness_of constness) (argument_trees arguments.now)) result }
{
    for argument in arguments {
        if let Some(found) = find_ill_formed_value(&argument.value, constness) {
            let found = found.within(argument.value.location());
            return Some(found.within(argument.location()));
        }
    }
    None
}

/// The nesting depth of the groups of arguments: one more than the value that nests most, and 0 without arguments.
/// `None` if it is above `usize::MAX`.
pub fn find_arguments_nesting(arguments: &[Node<Argument>]) -> Option<usize>
    ensures { IsCount result (arguments_nesting (argument_trees arguments.now)) }
{
    let mut most = 0;
    for argument in arguments {
        most = most.max(find_value_nesting(&argument.value)?.checked_add(1)?);
    }
    Some(most)
}

/// Writes an argument, at a place on one line.
fn write_argument<'a, O: Target>(
    out: &mut O,
    place: &Place<'_>,
    stack: &mut Stack<ValueEntry<'a>>,
    argument: &'a Argument,
)
    requires flat { place.now.prefix ≡ None }
    requires ready { CanWrite place.now stack.old
        (value_nesting (argument_tree argument.now).value) }
    ensures kept { IsKept stack.old stack.new }
    ensures written { WritesItems O.wrote out.old out.new None place.now.level
        (argument_items (argument_tree argument.now)) }
{
    let Argument { name, value } = argument;
    write_name_then(out, name, ": ");
    write_value(out, place, stack, value);
}

/// Writes the arguments of a field or a directive, which stand on one line in every layout; nothing where there are
/// none. The stack is empty before and after, and has room for the entries of the values that wait.
pub fn write_arguments<'a, O: Target>(
    out: &mut O,
    place: &Place<'_>,
    stack: &mut Stack<ValueEntry<'a>>,
    arguments: &'a [Node<Argument>],
)
    requires { CanWrite place.now stack.old (arguments_nesting (argument_trees arguments.now)) }
    ensures kept { IsKept stack.old stack.new }
    ensures written { Writes O.wrote out.old out.new place.now
        (arguments_shape (argument_trees arguments.now)) }
{
    let Some((first, rest)) = arguments.split_first() else {
        return;
    };
    let inner = place.flat().inner();
    write_words(out, "(");
    write_argument(out, &inner, stack, first);
    for argument in rest {
        if out.is_stopped() {
            return;
        }
        write_words(out, ", ");
        write_argument(out, &inner, stack, argument);
    }
    write_words(out, ")");
}
