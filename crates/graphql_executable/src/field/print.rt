//! Fields are printed.
ghost use Rattle.std.specs.Prelude.{◌≡◌, Some, option_copied};
ghost use Rattle.std.specs.Option.{option_map};
ghost use Rattle.graphql_text.specs.code.IllFormed.{IsFirstFlaw};
ghost use Rattle.graphql_text.specs.trees.Leaves.{name_tree};
ghost use Rattle.graphql_text.specs.layout.Levels.{IsCount};
ghost use Rattle.graphql_text.specs.parts.Optional.{optional_shape};
ghost use Rattle.graphql_text.specs.kinds.PrintedKinds.{no_types};
ghost use Rattle.graphql_text.specs.kinds.Printing.{IsDefaultPrint, default_bytes};
ghost use Rattle.graphql_text.specs.code.Stack.{CanWrite, IsKept};
ghost use Rattle.graphql_text.specs.code.Writing.{Writes, WritesAnywhere};
ghost use Rattle.graphql_executable.specs.trees.ExecutableTrees.{field_tree};
ghost use Rattle.graphql_executable.specs.kinds.Fields.{field_kind};
ghost use Rattle.graphql_executable.specs.kinds.SelectionHeads.{alias_shape, field_head_nesting, field_head_flaws, field_head_shape, field_head_obeys};
ghost use Rattle.graphql_executable.specs.lemmas.Selections.{field_laws};

use crate::field::Field;
use crate::optional_parts::{write_optional_arguments, write_optional_directives};
use crate::selection::print::{
    are_selections_well_formed, find_ill_formed_selection, find_selection_set_nesting, finish_sets,
    open_field,
};
use crate::stacks::ExecutableStacks;
use graphql_base::name::Name;
use graphql_text::engine::{Serialize, Syntax, SyntaxTree};
use graphql_text::ill_formed::IllFormed;
use graphql_text::writers::{
    Depths, Place, Stack, Start, Target, Written, write_name, write_name_then, write_whole,
};
use graphql_values::writers::{
    Constness, ValueEntry, are_arguments_well_formed, are_directives_well_formed,
    find_arguments_nesting, find_directives_nesting, find_ill_formed_argument,
    find_ill_formed_directive,
};
use std::alloc::AllocError;
use std::fmt;

/// Whether the arguments and the directives of a field are well formed.
#[tactic(auto, using(crate::proofs::layout::SelectionShapes::field_head_is))]
pub(crate) fn is_field_head_well_formed(field: &Field) -> bool
    ensures { result ≡ field_head_obeys (field_tree field.now).head }
{
    are_arguments_well_formed(&field.arguments, Constness::NonConst)
        && are_directives_well_formed(&field.directives, Constness::NonConst)
}

/// Where the arguments and the directives of a field aren't well formed.
#[tactic(auto, using(crate::proofs::layout::SelectionShapes::field_head_is, graphql_text::proofs::kinds::FlawsTold::flaw_steps))]
fn find_ill_formed_field_head(field: &Field) -> Option<IllFormed<'_>>
    ensures { IsFirstFlaw (field_head_flaws (field_tree field.now).head) result }
{
    let found = find_ill_formed_argument(&field.arguments, Constness::NonConst);
    if found.is_some() {
        return found;
    }
    find_ill_formed_directive(&field.directives, Constness::NonConst)
}

/// The nesting depth of the groups in the arguments and the directives of a field. `None` if it is above `usize::MAX`.
#[tactic(auto, using(crate::proofs::layout::SelectionShapes::field_head_is))]
pub(crate) fn find_field_head_nesting(field: &Field) -> Option<usize>
    ensures { IsCount result (field_head_nesting (field_tree field.now).head) }
{
    let arguments = find_arguments_nesting(&field.arguments)?;
    Some(arguments.max(find_directives_nesting(&field.directives)?))
}

/// Writes an alias and `:`; nothing where there is none.
#[inline(always)]
fn write_alias<O: Target>(out: &mut O, alias: Option<&Name>)
    ensures { WritesAnywhere O.wrote out.old out.new
        (optional_shape alias_shape (option_map name_tree (option_copied alias.entry))) }
{
    if let Some(alias) = alias {
        write_name_then(out, alias, ": ");
    }
}

/// Writes a field without its selection set.
#[inline(always)]
#[tactic(auto, using(crate::proofs::layout::SelectionShapes::field_head_is))]
pub(crate) fn write_field_head<'t, O: Target>(
    out: &mut O,
    place: &Place<'_>,
    stack: &mut Stack<ValueEntry<'t>>,
    field: &'t Field,
)
    requires { CanWrite place.now stack.old (field_head_nesting (field_tree field.now).head) }
    ensures kept { IsKept stack.old stack.new }
    ensures written { Writes O.wrote out.old out.new place.now
        (field_head_shape (field_tree field.now).head) }
{
    let Field {
        alias,
        name,
        arguments,
        directives,
        selection_set: _,
    } = field;
    write_alias(out, alias.as_ref());
    write_name(out, name);
    write_optional_arguments(out, place, stack, arguments);
    write_optional_directives(out, place, stack, directives);
}

impl Field {
    /// The field in the default layout, for `print_to`, `to_text` or another layout.
    pub fn serialize(&self) -> Serialize<'_, Field>
        ensures { IsDefaultPrint self.now result }
    {
        Serialize::new(self)
    }

    /// The first flaw of its arguments, its directives or its selections. Variables are allowed.
    #[cycle(find_ill_formed_selection)]
    #[tactic(auto, using(crate::proofs::layout::SelectionShapes::field_selections_are, graphql_text::proofs::kinds::FlawsTold::flaw_steps))]
    pub fn find_ill_formed(&self) -> Option<IllFormed<'_>>
        ensures { IsFirstFlaw (field_kind.flaws (field_tree self.now)) result }
    {
        let found = find_ill_formed_field_head(self);
        if found.is_some() {
            return found;
        }
        find_ill_formed_selection(&self.selection_set)
    }

    /// Whether no fragment spread in it is named `on`, each inline fragment in it has a selection, and no enum value in
    /// its arguments and directives is `true`, `false` or `null`. Variables are allowed.
    #[tactic(auto, using(crate::proofs::layout::SelectionShapes::field_selections_are))]
    pub fn is_well_formed(&self) -> bool
        ensures { result ≡ field_kind.obeys (field_tree self.now) }
    {
        is_field_head_well_formed(self) && are_selections_well_formed(&self.selection_set)
    }
}

impl SyntaxTree for Field {
    ghost kind = { field_kind };

    ghost tree = { field_tree };

    ghost laws = { field_laws };

    ghost list_depth = { no_types };

    fn find_ill_formed(&self) -> Option<IllFormed<'_>> {
        Field::find_ill_formed(self)
    }

    fn is_well_formed(&self) -> bool {
        Field::is_well_formed(self)
    }

    #[tactic(auto, using(crate::proofs::layout::SelectionShapes::field_selections_are))]
    fn find_depths(&self) -> Option<Depths> {
        let head = find_field_head_nesting(self)?;
        let selections = find_selection_set_nesting(&self.selection_set)?;
        Some(Depths::without_types(head.max(selections)))
    }
}

impl Syntax for Field {
    fn write<O: Target>(&self, out: &mut O, start: &Start<'_>) -> Result<(), AllocError> {
        write_whole(self, out, start)
    }
}

impl<'t> Written<'t, ExecutableStacks<'t>> for Field {
    fn reserve(&'t self, depths: Depths) -> Result<ExecutableStacks<'t>, AllocError> {
        ExecutableStacks::reserve(self.directives.allocator(), depths)
    }

    fn write_at<O: Target>(
        &'t self,
        out: &mut O,
        place: &Place<'_>,
        stacks: &mut ExecutableStacks<'t>,
    ) {
        let mut here = *place;
        open_field(out, &mut here, stacks, self);
        finish_sets(out, &mut here, stacks);
    }
}

impl fmt::Display for Field {
    ghost output = { λ field. Some (default_bytes field_kind (field_tree field)) };

    fn fmt<W: fmt::Write>(&self, f: &mut fmt::Formatter<W>) -> fmt::Result {
        self.serialize().fmt(f)
    }
}
