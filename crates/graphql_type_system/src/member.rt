//! What stands between the braces of definitions and extensions: fields, enum values, input values, root operations.
ghost use Rattle.std.specs.Prelude.{◌≡◌, ℕ, Bool, false};
ghost use Rattle.graphql_text.specs.kinds.Kinds.{Kind};
ghost use Rattle.graphql_text.specs.layout.Layout.{lowers, raises};
ghost use Rattle.graphql_text.specs.code.Writing.{WritesPart};
ghost use Rattle.graphql_values.specs.code.Stacks.{AreKept, CanWriteDefinition};

use crate::enum_value_definition::EnumValueDefinition;
use crate::field_definition::FieldDefinition;
use graphql_text::writers::{Place, Target, Written};
use graphql_values::input_value_definition::InputValueDefinition;
use graphql_values::writers::Stacks;

/// A part that stands between braces, each on a line of its own under a prefix.
pub(crate) trait Member<'t>: Sized {
    ghost kind: { Kind };

    ghost tree: { Self → kind.Tree };

    ghost list_depth: { kind.Tree → ℕ };

    ghost balanced: { (broken : Bool) (member : kind.Tree) →
        raises (kind.shape broken false member) ≡ lowers (kind.shape broken false member) };

    /// Writes the member.
    fn write_member<O: Target>(&'t self, out: &mut O, place: &Place<'_>, stacks: &mut Stacks<'t>)
        requires { CanWriteDefinition place.now stacks.old
            (kind.nesting (tree self.now)) (list_depth (tree self.now)) }
        ensures kept { AreKept stacks.old stacks.new }
        ensures written { WritesPart O.wrote out.old out.new place.now kind (tree self.now) };
}

/// A type whose trees are members.
pub(crate) trait MemberTree<'t>: Written<'t, Stacks<'t>> {}

impl<'t> MemberTree<'t> for EnumValueDefinition {}

impl<'t> MemberTree<'t> for FieldDefinition {}

impl<'t> MemberTree<'t> for InputValueDefinition {}

impl<'t, M: MemberTree<'t>> Member<'t> for M {
    ghost kind = { M.kind };

    ghost tree = { M.tree };

    ghost list_depth = { M.list_depth };

    ghost balanced = { λ broken member. M.laws.balanced broken false member };

    fn write_member<O: Target>(&'t self, out: &mut O, place: &Place<'_>, stacks: &mut Stacks<'t>) {
        self.write_at(out, place, stacks);
    }
}
