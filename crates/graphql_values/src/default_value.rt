//! Default values of input values and variables.
ghost use Rattle.std.specs.Prelude.{◌≡◌};
ghost use Rattle.graphql_text.specs.code.IllFormed.{IsFirstFlaw};
ghost use Rattle.graphql_text.specs.layout.Levels.{IsCount};
ghost use Rattle.graphql_text.specs.code.Place.{breaks};
ghost use Rattle.graphql_text.specs.code.Stack.{CanWrite, IsKept};
ghost use Rattle.graphql_text.specs.code.Writing.{Writes};
ghost use Rattle.graphql_values.specs.kinds.DefaultValues.{default_value_flaws, default_value_nesting, default_value_obeys, default_value_shape};
ghost use Rattle.graphql_values.specs.trees.ValueTrees.{default_value_tree};

use crate::constness::Constness;
use crate::value::Value;
use crate::value::print::{ValueEntry, find_value_nesting, write_value};
use crate::value::well_formed::{find_ill_formed_value, is_value_well_formed};
use graphql_base::node::Node;
use graphql_text::ill_formed::IllFormed;
use graphql_text::writers::{Place, Stack, Target, write_words};

/// Whether a default value, if there is one, is well formed in its const context.
pub fn is_default_value_well_formed(default_value: Option<&Node<Value>>) -> bool
    ensures { result ≡ default_value_obeys (default_value_tree default_value.entry) }
{
    match default_value {
        Some(value) => is_value_well_formed(value, Constness::Const),
        None => true,
    }
}

/// Where a default value isn't well formed in its const context. `None` also without one.
pub fn find_ill_formed_default_value<'a>(
    default_value: Option<&'a Node<Value>>,
) -> Option<IllFormed<'a>>
    ensures { IsFirstFlaw (default_value_flaws (default_value_tree default_value.entry)) result }
{
    let value = default_value?;
    let found = find_ill_formed_value(value, Constness::Const)?;
    Some(found.within(value.location()))
}

/// The nesting depth of the lists and objects of a default value, and 0 without one. `None` if it is above
/// `usize::MAX`.
pub fn find_default_value_nesting(default_value: Option<&Node<Value>>) -> Option<usize>
    ensures { IsCount result (default_value_nesting (default_value_tree default_value.entry)) }
{
    match default_value {
        Some(value) => find_value_nesting(value),
        None => Some(0),
    }
}

/// Writes a default value and what leads to it; nothing where there is none.
pub fn write_default_value<'a, O: Target>(
    out: &mut O,
    place: &Place<'_>,
    stack: &mut Stack<ValueEntry<'a>>,
    default_value: Option<&'a Node<Value>>,
)
    requires { CanWrite place.now stack.old
        (default_value_nesting (default_value_tree default_value)) }
    ensures kept { IsKept stack.old stack.new }
    ensures written { Writes O.wrote out.old out.new place.now
        (default_value_shape (breaks place.now) (default_value_tree default_value.entry)) }
{
    if let Some(value) = default_value {
        write_words(out, " = ");
        write_value(out, place, stack, value);
    }
}
