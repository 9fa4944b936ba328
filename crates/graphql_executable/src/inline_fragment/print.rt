//! Inline fragments are printed.
ghost use Rattle.std.specs.Prelude.{◌≡◌, Some, option_copied};
ghost use Rattle.std.specs.Option.{option_map};
ghost use Rattle.graphql_text.specs.code.IllFormed.{IsFirstFlaw};
ghost use Rattle.graphql_text.specs.trees.Leaves.{name_tree};
ghost use Rattle.graphql_text.specs.layout.Levels.{IsCount};
ghost use Rattle.graphql_text.specs.parts.Optional.{optional_shape};
ghost use Rattle.graphql_text.specs.kinds.PrintedKinds.{no_types};
ghost use Rattle.graphql_text.specs.kinds.Printing.{IsDefaultPrint, default_bytes};
ghost use Rattle.graphql_text.specs.code.Stack.{CanWrite, IsKept};
ghost use Rattle.graphql_text.specs.code.Writing.{Writes, WritesAnywhere};
ghost use Rattle.graphql_executable.specs.trees.ExecutableTrees.{inline_fragment_tree};
ghost use Rattle.graphql_executable.specs.kinds.FragmentNames.{type_condition_shape};
ghost use Rattle.graphql_executable.specs.kinds.InlineFragments.{inline_fragment_kind};
ghost use Rattle.graphql_executable.specs.kinds.SelectionHeads.{inline_fragment_head_nesting, inline_fragment_head_flaws, inline_fragment_head_shape, inline_fragment_head_obeys};
ghost use Rattle.graphql_executable.specs.lemmas.Selections.{inline_fragment_laws};

use crate::inline_fragment::InlineFragment;
use crate::optional_parts::write_optional_directives;
use crate::selection::print::{
    find_ill_formed_set, find_selection_set_nesting, finish_sets, is_selection_set_well_formed,
    open_inline_fragment,
};
use crate::stacks::ExecutableStacks;
use graphql_base::name::NamedType;
use graphql_text::engine::{Serialize, Syntax, SyntaxTree};
use graphql_text::ill_formed::IllFormed;
use graphql_text::writers::{
    Depths, Place, Stack, Start, Target, Written, write_name, write_whole, write_words,
};
use graphql_values::writers::{
    Constness, ValueEntry, are_directives_well_formed, find_directives_nesting,
    find_ill_formed_directive,
};
use std::alloc::AllocError;
use std::fmt;

/// Whether the directives of an inline fragment are well formed.
#[tactic(auto, using(crate::proofs::layout::SelectionShapes::inline_fragment_head_is))]
pub(crate) fn is_inline_fragment_head_well_formed(fragment: &InlineFragment) -> bool
    ensures { result ≡ inline_fragment_head_obeys (inline_fragment_tree fragment.now).head }
{
    are_directives_well_formed(&fragment.directives, Constness::NonConst)
}

/// Where the directives of an inline fragment aren't well formed.
#[tactic(auto, using(crate::proofs::layout::SelectionShapes::inline_fragment_head_is))]
fn find_ill_formed_inline_fragment_head(fragment: &InlineFragment) -> Option<IllFormed<'_>>
    ensures { IsFirstFlaw
        (inline_fragment_head_flaws (inline_fragment_tree fragment.now).head) result }
{
    find_ill_formed_directive(&fragment.directives, Constness::NonConst)
}

/// The nesting depth of the groups in the directives of an inline fragment. `None` if it is above `usize::MAX`.
#[tactic(auto, using(crate::proofs::layout::SelectionShapes::inline_fragment_head_is))]
pub(crate) fn find_inline_fragment_head_nesting(fragment: &InlineFragment) -> Option<usize>
    ensures { IsCount result
        (inline_fragment_head_nesting (inline_fragment_tree fragment.now).head) }
{
    find_directives_nesting(&fragment.directives)
}

/// Writes `on` and a type; nothing where there is none.
pub(crate) fn write_type_condition<O: Target>(out: &mut O, type_condition: Option<&NamedType>)
    ensures { WritesAnywhere O.wrote out.old out.new
        (optional_shape type_condition_shape
        (option_map name_tree (option_copied type_condition.entry))) }
{
    if let Some(name) = type_condition {
        write_words(out, " on ");
        write_name(out, name);
    }
}

/// Writes an inline fragment without its selection set.
#[tactic(auto, using(crate::proofs::layout::SelectionShapes::inline_fragment_head_is))]
pub(crate) fn write_inline_fragment_head<'t, O: Target>(
    out: &mut O,
    place: &Place<'_>,
    stack: &mut Stack<ValueEntry<'t>>,
    fragment: &'t InlineFragment,
)
    requires { CanWrite place.now stack.old
        (inline_fragment_head_nesting (inline_fragment_tree fragment.now).head) }
    ensures kept { IsKept stack.old stack.new }
    ensures written { Writes O.wrote out.old out.new place.now
        (inline_fragment_head_shape (inline_fragment_tree fragment.now).head) }
{
    let InlineFragment {
        type_condition,
        directives,
        selection_set: _,
    } = fragment;
    write_words(out, "...");
    write_type_condition(out, type_condition.as_ref());
    write_optional_directives(out, place, stack, directives);
}

impl InlineFragment {
    /// The inline fragment in the default layout, for `print_to`, `to_text` or another layout.
    pub fn serialize(&self) -> Serialize<'_, InlineFragment>
        ensures { IsDefaultPrint self.now result }
    {
        Serialize::new(self)
    }

    /// The first flaw of its directives, or else that it has no selection, or the first flaw of its selections.
    /// Variables are allowed.
    #[cycle(find_ill_formed_selection)]
    #[tactic(auto, using(crate::proofs::layout::SelectionShapes::inline_fragment_steps, graphql_text::proofs::kinds::FlawsTold::flaw_steps))]
    pub fn find_ill_formed(&self) -> Option<IllFormed<'_>>
        ensures { IsFirstFlaw (inline_fragment_kind.flaws (inline_fragment_tree self.now)) result }
    {
        let found = find_ill_formed_inline_fragment_head(self);
        if found.is_some() {
            return found;
        }
        find_ill_formed_set(self.type_condition.as_ref(), &self.selection_set)
    }

    /// Whether it has a selection, and so has each inline fragment in it; no fragment spread in it is named `on`; and
    /// no enum value in its arguments and directives is `true`, `false` or `null`. Variables are allowed.
    #[tactic(auto, using(crate::proofs::layout::SelectionShapes::inline_selections_are))]
    pub fn is_well_formed(&self) -> bool
        ensures { result ≡ inline_fragment_kind.obeys (inline_fragment_tree self.now) }
    {
        is_inline_fragment_head_well_formed(self)
            && is_selection_set_well_formed(&self.selection_set)
    }
}

impl SyntaxTree for InlineFragment {
    ghost kind = { inline_fragment_kind };

    ghost tree = { inline_fragment_tree };

    ghost laws = { inline_fragment_laws };

    ghost list_depth = { no_types };

    fn find_ill_formed(&self) -> Option<IllFormed<'_>> {
        InlineFragment::find_ill_formed(self)
    }

    fn is_well_formed(&self) -> bool {
        InlineFragment::is_well_formed(self)
    }

    #[tactic(auto, using(crate::proofs::layout::SelectionShapes::inline_selections_are))]
    fn find_depths(&self) -> Option<Depths> {
        let head = find_inline_fragment_head_nesting(self)?;
        let selections = find_selection_set_nesting(&self.selection_set)?;
        Some(Depths::without_types(head.max(selections)))
    }
}

impl Syntax for InlineFragment {
    fn write<O: Target>(&self, out: &mut O, start: &Start<'_>) -> Result<(), AllocError> {
        write_whole(self, out, start)
    }
}

impl<'t> Written<'t, ExecutableStacks<'t>> for InlineFragment {
    fn reserve(&'t self, depths: Depths) -> Result<ExecutableStacks<'t>, AllocError> {
        ExecutableStacks::reserve(self.directives.allocator(), depths)
    }

    fn write_at<O: Target>(
        &'t self,
        out: &mut O,
        place: &Place<'_>,
        stacks: &mut ExecutableStacks<'t>,
    ) {
        let mut here = *place;
        open_inline_fragment(out, &mut here, stacks, self);
        finish_sets(out, &mut here, stacks);
    }
}

impl fmt::Display for InlineFragment {
    ghost output = { λ fragment.
        Some (default_bytes inline_fragment_kind (inline_fragment_tree fragment)) };

    fn fmt<W: fmt::Write>(&self, f: &mut fmt::Formatter<W>) -> fmt::Result {
        self.serialize().fmt(f)
    }
}
