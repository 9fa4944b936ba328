//! Parameters are written: the definitions of arguments and those of variables. They stand in parentheses, on one line
//! unless one of them wants a line of its own.
ghost use Rattle.std.specs.Prelude.{◌≡◌, ◌<◌, Bool, false, length, map};
ghost use Rattle.std.specs.List.{list_any};
ghost use Rattle.graphql_text.specs.parts.Greatest.{greatest};
ghost use Rattle.graphql_text.specs.layout.Layout.{comma_group};
ghost use Rattle.graphql_text.specs.trees.Leaves.{node_trees};
ghost use Rattle.graphql_text.specs.parts.Parentheses.{parentheses_nesting, parentheses_shape};
ghost use Rattle.graphql_text.specs.code.Place.{breaks};
ghost use Rattle.graphql_text.specs.lexical.Tokens.{lparen, rparen};
ghost use Rattle.graphql_text.specs.code.Writing.{Writes};
ghost use Rattle.graphql_values.specs.code.Stacks.{AreKept, CanWriteDefinition};

use crate::stacks::Stacks;
use graphql_base::node::Node;
use graphql_text::writers::{
    Place, Target, Written, ready_comma_lead, write_comma_end, write_comma_lead, write_words,
};

/// Writes at least one parameter between brackets, in the mode of the place.
fn write_parameter_group<'t, P: Written<'t, Stacks<'t>>, O: Target>(
    out: &mut O,
    place: &Place<'_>,
    stacks: &mut Stacks<'t>,
    parameters: &'t [Node<P>],
)
    requires some { 0 < length parameters.now }
    requires ready { CanWriteDefinition place.now stacks.old
        (parentheses_nesting P.kind.nesting (node_trees P.tree parameters.now))
        (greatest P.list_depth (node_trees P.tree parameters.now)) }
    ensures kept { AreKept stacks.old stacks.new }
    ensures written { Writes O.wrote out.old out.new place.now
        (comma_group lparen rparen (breaks place.now)
        (map (P.kind.shape (breaks place.now) false) (node_trees P.tree parameters.now))) }
{
    let inner = place.inner();
    let lead = ready_comma_lead(&inner);
    write_words(out, "(");
    let mut is_first = true;
    for parameter in parameters {
        if out.is_stopped() {
            return;
        }
        write_comma_lead(out, &inner, lead, is_first);
        parameter.write_at(out, &inner, stacks);
        is_first = false;
    }
    write_comma_end(out, place);
    write_words(out, ")");
}

/// Writes parameters in parentheses; nothing where there are none. They stand on one line in every layout, unless they
/// are to have the mode of the place.
pub fn write_parameters<'t, P: Written<'t, Stacks<'t>>, O: Target>(
    out: &mut O,
    place: &Place<'_>,
    stacks: &mut Stacks<'t>,
    parameters: &'t [Node<P>],
    over_lines: bool,
)
    requires { CanWriteDefinition place.now stacks.old
        (parentheses_nesting P.kind.nesting (node_trees P.tree parameters.now))
        (greatest P.list_depth (node_trees P.tree parameters.now)) }
    ensures kept { AreKept stacks.old stacks.new }
    ensures written { (wants_lines : P.kind.Tree → Bool) →
        over_lines ≡ list_any wants_lines (node_trees P.tree parameters.now) →
        Writes O.wrote out.old out.new place.now
        (parentheses_shape wants_lines (λ broken. P.kind.shape broken false) (breaks place.now)
        (node_trees P.tree parameters.now)) }
{
    if parameters.is_empty() {
        return;
    }
    if over_lines {
        write_parameter_group(out, place, stacks, parameters);
    } else {
        write_parameter_group(out, &place.flat(), stacks, parameters);
    }
}
