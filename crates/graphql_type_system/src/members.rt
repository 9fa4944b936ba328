//! Members between braces are written, which may be left out or not, and the directives before them.
ghost use Rattle.std.specs.Prelude.{◌<◌, ◌++◌, max, length};
ghost use Rattle.graphql_text.specs.parts.Greatest.{greatest};
ghost use Rattle.graphql_text.specs.trees.Leaves.{node_trees};
ghost use Rattle.graphql_text.specs.parts.Members.{members_nesting, members_shape, required_members_shape};
ghost use Rattle.graphql_text.specs.code.Place.{breaks};
ghost use Rattle.graphql_text.specs.code.Writing.{Writes};
ghost use Rattle.graphql_values.specs.kinds.Directives.{directives_nesting, directives_shape};
ghost use Rattle.graphql_values.specs.trees.DirectiveTrees.{directive_trees};
ghost use Rattle.graphql_values.specs.code.Stacks.{AreKept, CanWriteDefinition};

use crate::member::Member;
use graphql_base::node::Node;
use graphql_text::writers::{Place, Target, Written, write_soft, write_words};
use graphql_values::directive_list::DirectiveList;
use graphql_values::writers::Stacks;

/// Writes at least one member between braces.
fn write_member_group<'t, M: Member<'t>, O: Target>(
    out: &mut O,
    place: &Place<'_>,
    stacks: &mut Stacks<'t>,
    members: &'t [Node<M>],
)
    requires some { 0 < length members.now }
    requires ready { CanWriteDefinition place.now stacks.old
        (members_nesting M.kind (node_trees M.tree members.now))
        (greatest M.list_depth (node_trees M.tree members.now)) }
    ensures kept { AreKept stacks.old stacks.new }
    ensures written { Writes O.wrote out.old out.new place.now
        (required_members_shape M.kind (breaks place.now) (node_trees M.tree members.now)) }
{
    let inner = place.inner();
    write_words(out, " {");
    for member in members {
        if out.is_stopped() {
            return;
        }
        write_soft(out, &inner);
        member.write_member(out, &inner, stacks);
    }
    write_soft(out, place);
    write_words(out, "}");
}

/// Writes members between braces, also where there are none.
pub(crate) fn write_required_members<'t, M: Member<'t>, O: Target>(
    out: &mut O,
    place: &Place<'_>,
    stacks: &mut Stacks<'t>,
    members: &'t [Node<M>],
)
    requires { CanWriteDefinition place.now stacks.old
        (members_nesting M.kind (node_trees M.tree members.now))
        (greatest M.list_depth (node_trees M.tree members.now)) }
    ensures kept { AreKept stacks.old stacks.new }
    ensures written { Writes O.wrote out.old out.new place.now
        (required_members_shape M.kind (breaks place.now) (node_trees M.tree members.now)) }
{
    if members.is_empty() {
        write_words(out, " {}");
    } else {
        write_member_group(out, place, stacks, members);
    }
}

/// Writes members between braces; nothing where there are none.
fn write_members<'t, M: Member<'t>, O: Target>(
    out: &mut O,
    place: &Place<'_>,
    stacks: &mut Stacks<'t>,
    members: &'t [Node<M>],
)
    requires { CanWriteDefinition place.now stacks.old
        (members_nesting M.kind (node_trees M.tree members.now))
        (greatest M.list_depth (node_trees M.tree members.now)) }
    ensures kept { AreKept stacks.old stacks.new }
    ensures written { Writes O.wrote out.old out.new place.now
        (members_shape M.kind (breaks place.now) (node_trees M.tree members.now)) }
{
    if members.is_empty() {
        return;
    }
    write_member_group(out, place, stacks, members);
}

/// Writes directives, and members between braces; of the members nothing where there are none.
pub(crate) fn write_directives_and_members<'t, M: Member<'t>, O: Target>(
    out: &mut O,
    place: &Place<'_>,
    stacks: &mut Stacks<'t>,
    directives: &'t DirectiveList,
    members: &'t [Node<M>],
)
    requires { CanWriteDefinition place.now stacks.old
        (max (directives_nesting (directive_trees directives.now))
        (members_nesting M.kind (node_trees M.tree members.now)))
        (greatest M.list_depth (node_trees M.tree members.now)) }
    ensures kept { AreKept stacks.old stacks.new }
    ensures written { Writes O.wrote out.old out.new place.now
        (directives_shape (directive_trees directives.now)
        ++ members_shape M.kind (breaks place.now) (node_trees M.tree members.now)) }
{
    directives.write_at(out, place, &mut stacks.values);
    write_members(out, place, stacks, members);
}
