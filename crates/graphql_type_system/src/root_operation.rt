//! Root operations, which schemas have: each is the type of operations and the object type that they begin at.
ghost use Rattle.std.specs.Prelude.{◌≡◌};
ghost use Rattle.graphql_text.specs.trees.Leaves.{node_trees};
ghost use Rattle.graphql_text.specs.parts.Members.{members_nesting};
ghost use Rattle.graphql_text.specs.kinds.PrintedKinds.{no_types};
ghost use Rattle.graphql_type_system.specs.kinds.Schemas.{root_operation_kind};
ghost use Rattle.graphql_type_system.specs.trees.TypeSystemTrees.{root_operation_tree};
ghost use Rattle.graphql_type_system.specs.lemmas.Bodies.{root_operation_balanced};

use crate::member::Member;
use graphql_base::name::NamedType;
use graphql_base::node::Node;
use graphql_text::writers::{Place, Target, write_name, write_words};
use graphql_values::operation_type::OperationType;
use graphql_values::writers::Stacks;

/// The nesting depth of root operations between braces. There is no group in them.
pub(crate) fn root_operations_nesting(root_operations: &[Node<(OperationType, NamedType)>]) -> usize
    ensures { result
        ≡ members_nesting root_operation_kind (node_trees root_operation_tree root_operations.now) }
{
    if root_operations.is_empty() { 0 } else { 1 }
}

impl<'t> Member<'t> for (OperationType, NamedType) {
    ghost kind = { root_operation_kind };

    ghost tree = { root_operation_tree };

    ghost list_depth = { no_types };

    ghost balanced = { root_operation_balanced };

    fn write_member<O: Target>(
        &'t self,
        out: &mut O,
        _place: &Place<'_>,
        _stacks: &mut Stacks<'t>,
    ) {
        write_words(out, self.0.name());
        write_words(out, ": ");
        write_name(out, &self.1);
    }
}
