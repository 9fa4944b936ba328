//! Selections are printed, and selection sets.
ghost use Rattle.std.specs.Prelude.{◌≡◌, ◌+◌, ◌≤◌, ◌^◌, ◌∷◌, IsTrue, Some, false, option_copied};
ghost use Rattle.std.specs.Option.{option_map};
ghost use Rattle.graphql_text.specs.code.IllFormed.{IsFirstFlaw};
ghost use Rattle.graphql_text.specs.code.Groups.{curly_rest};
ghost use Rattle.graphql_text.specs.layout.Layout.{Space};
ghost use Rattle.graphql_text.specs.layout.Levels.{Fits, IsCount};
ghost use Rattle.graphql_text.specs.code.Place.{mode_of};
ghost use Rattle.graphql_text.specs.kinds.PrintedKinds.{no_types};
ghost use Rattle.graphql_text.specs.kinds.Printing.{IsDefaultPrint, default_bytes};
ghost use Rattle.graphql_text.specs.code.Stack.{CanWrite, IsKept, IsReady, stack_entries, stack_room};
ghost use Rattle.graphql_text.specs.code.Writing.{Writes, WritesBeginning};
ghost use Rattle.graphql_text.specs.trees.Leaves.{name_tree};
ghost use Rattle.graphql_executable.specs.code.ExecutableStacks.{AreAllKept, CanWriteExecutable};
ghost use Rattle.graphql_executable.specs.trees.ExecutableTrees.{field_tree, inline_fragment_tree, selection_tree, selection_trees};
ghost use Rattle.graphql_executable.specs.kinds.Fields.{selection_of_field};
ghost use Rattle.graphql_executable.specs.kinds.InlineFragments.{selection_of_inline_fragment};
ghost use Rattle.graphql_executable.specs.code.SelectionWalk.{CanFinish, CanGoOn, CanOpen, Finishes, GoesOn, LoseNoRoom, Opens, OpensSelection, has_set, need_with, set_level, stack_items};
ghost use Rattle.graphql_executable.specs.kinds.Selections.{optional_braced_shape, selection_kind, selection_nesting, selection_set_flaws, selection_set_nesting, selection_set_obeys, selection_set_shape, selection_shape, selections_flaws, selections_obey, selections_shapes};
ghost use Rattle.graphql_executable.specs.lemmas.Selections.{selection_laws};

use crate::field::Field;
use crate::field::print::{find_field_head_nesting, is_field_head_well_formed, write_field_head};
use crate::inline_fragment::InlineFragment;
use crate::inline_fragment::print::{
    find_inline_fragment_head_nesting, is_inline_fragment_head_well_formed,
    write_inline_fragment_head,
};
use crate::selection::Selection;
use crate::stacks::{ExecutableStacks, SelectionEntry};
use graphql_base::name::Name;
use graphql_text::engine::{Serialize, Syntax, SyntaxTree};
use graphql_text::ill_formed::{IllFormed, SideCondition};
use graphql_text::writers::{
    Depths, Place, Stack, Start, Target, Written, ill_formed_unless, write_soft, write_whole,
    write_words,
};
use graphql_values::writers::{ValueEntry, find_directives_nesting};
use std::alloc::{AllocError, Global};
use std::fmt;

/// Whether each selection is well formed.
#[cycle(selection_is_well_formed)]
pub(crate) fn are_selections_well_formed(selections: &[Selection]) -> bool
    ensures { result ≡ selections_obey (selection_trees selections.now) }
{
    for selection in selections {
        if !selection.is_well_formed() {
            return false;
        }
    }
    true
}

/// Whether there is a selection, and each is well formed.
#[cycle(selection_is_well_formed)]
#[tactic(auto, using(crate::proofs::layout::SelectionShapes::has_selections_is))]
pub(crate) fn is_selection_set_well_formed(selections: &[Selection]) -> bool
    ensures { result ≡ selection_set_obeys (selection_trees selections.now) }
{
    !selections.is_empty() && are_selections_well_formed(selections)
}

/// Where selections aren't well formed: the first of their flaws.
#[cycle(find_ill_formed_selection)]
#[tactic(auto, using(graphql_text::proofs::kinds::FlawsTold::flaw_steps))]
pub(crate) fn find_ill_formed_selection(selections: &[Selection]) -> Option<IllFormed<'_>>
    ensures { IsFirstFlaw (selections_flaws (selection_trees selections.now)) result }
{
    for selection in selections {
        let found = selection.find_ill_formed();
        if found.is_some() {
            return found;
        }
    }
    None
}

/// Where the selection set of what has this name isn't well formed: it has no selection, or one that isn't.
#[cycle(find_ill_formed_selection)]
#[tactic(auto, using(crate::proofs::layout::SelectionShapes::has_selections_is, graphql_text::proofs::kinds::FlawsTold::flaw_steps))]
pub(crate) fn find_ill_formed_set<'a>(
    name: Option<&'a Name>,
    selections: &'a [Selection],
) -> Option<IllFormed<'a>>
    ensures { IsFirstFlaw
        (selection_set_flaws (option_map name_tree (option_copied name.entry))
        (selection_trees selections.now)) result }
{
    let has_selections = !selections.is_empty();
    let found = ill_formed_unless(has_selections, SideCondition::HasSelection, name);
    if found.is_some() {
        return found;
    }
    find_ill_formed_selection(selections)
}

/// Whether a selection is a field or a fragment spread alone, without arguments, directives and selections: most are.
#[inline(always)]
#[tactic(auto, using(crate::proofs::layout::SelectionShapes::plain_selection_steps))]
fn is_plain(selection: &Selection) -> bool
    ensures { IsTrue result → selection_nesting (selection_tree selection.now) ≡ 0 }
{
    match selection {
        Selection::Field(field) => field.arguments.is_empty()
            && field.directives.is_empty()
            && field.selection_set.is_empty(),
        Selection::FragmentSpread(spread) => spread.directives.is_empty(),
        Selection::InlineFragment(_) => false,
    }
}

/// The nesting depth of the groups of a selection. `None` if it is above `usize::MAX`.
#[cycle(nesting)]
#[tactic(auto, using(crate::proofs::layout::SelectionShapes::selection_nesting_steps))]
fn find_selection_nesting(selection: &Selection) -> Option<usize>
    ensures { IsCount result (selection_nesting (selection_tree selection.now)) }
{
    if is_plain(selection) {
        return Some(0);
    }
    match selection {
        Selection::Field(field) => {
            let head = find_field_head_nesting(field)?;
            Some(head.max(find_selection_set_nesting(&field.selection_set)?))
        }
        Selection::FragmentSpread(spread) => find_directives_nesting(&spread.directives),
        Selection::InlineFragment(fragment) => {
            let head = find_inline_fragment_head_nesting(fragment)?;
            Some(head.max(find_selection_set_nesting(&fragment.selection_set)?))
        }
    }
}

/// The nesting depth of the groups of a selection set: one more than the selection that nests most, and 0 without
/// selections. `None` if it is above `usize::MAX`.
#[cycle(nesting)]
pub(crate) fn find_selection_set_nesting(selections: &[Selection]) -> Option<usize>
    ensures { IsCount result (selection_set_nesting (selection_trees selections.now)) }
{
    let mut most = 0;
    for selection in selections {
        most = most.max(find_selection_nesting(selection)?.checked_add(1)?);
    }
    Some(most)
}

/// Writes a selection set up to its selections, and puts these on the stack; all of one without selections.
#[inline(always)]
fn open_set<'a, O: Target>(
    out: &mut O,
    here: &mut Place<'_>,
    stack: &mut Stack<SelectionEntry<'a>>,
    selections: &'a [Selection],
)
    requires fits { Fits here.old.level (selection_set_nesting (selection_trees selections.now)) }
    requires room { need_with (selection_set_nesting (selection_trees selections.now))
        (stack_entries stack.old)
        ≤ stack_room stack.old }
    ensures prefix { here.new.prefix ≡ here.old.prefix }
    ensures room { stack_room stack.old ≤ stack_room stack.new }
    ensures opened { Opens O.wrote out.old out.new
        (mode_of here.old.prefix) here.old.level here.new.level
        (selection_set_shape (selection_trees selections.now))
        (set_level (selection_trees selections.now))
        (selection_set_nesting (selection_trees selections.now)) (stack_entries stack.old)
        (stack_entries stack.new) }
{
    if selections.is_empty() {
        write_words(out, "{}");
        return;
    }
    write_words(out, "{");
    here.level += 1;
    stack.push(SelectionEntry { rest: selections });
}

/// The same after a space, and nothing of a set without selections.
#[inline(always)]
fn open_optional_set<'a, O: Target>(
    out: &mut O,
    here: &mut Place<'_>,
    stack: &mut Stack<SelectionEntry<'a>>,
    selections: &'a [Selection],
)
    requires fits { Fits here.old.level (selection_set_nesting (selection_trees selections.now)) }
    requires room { need_with (selection_set_nesting (selection_trees selections.now))
        (stack_entries stack.old)
        ≤ stack_room stack.old }
    ensures prefix { here.new.prefix ≡ here.old.prefix }
    ensures room { stack_room stack.old ≤ stack_room stack.new }
    ensures opened { Opens O.wrote out.old out.new
        (mode_of here.old.prefix) here.old.level here.new.level
        (optional_braced_shape (selections_shapes (selection_trees selections.now)))
        (set_level (selection_trees selections.now))
        (selection_set_nesting (selection_trees selections.now)) (stack_entries stack.old)
        (stack_entries stack.new) }
{
    if selections.is_empty() {
        return;
    }
    write_words(out, " ");
    open_set(out, here, stack, selections);
}

/// Writes a field up to its selections, and puts these on the stack.
#[inline(always)]
pub(crate) fn open_field<'a, O: Target>(
    out: &mut O,
    here: &mut Place<'_>,
    stacks: &mut ExecutableStacks<'a>,
    field: &'a Field,
)
    requires { CanOpen here.old.level stacks.old
        (selection_nesting (selection_of_field (field_tree field.now))) }
    ensures prefix { here.new.prefix ≡ here.old.prefix }
    ensures kept { LoseNoRoom stacks.old stacks.new }
    ensures opened { OpensSelection O.wrote out.old out.new
        (mode_of here.old.prefix) here.old.level here.new.level
        (selection_of_field (field_tree field.now))
        (stack_entries stacks.old.selections) (stack_entries stacks.new.selections) }
{
    write_field_head(out, here, &mut stacks.definitions.values, field);
    open_optional_set(out, here, &mut stacks.selections, &field.selection_set);
}

/// Writes an inline fragment up to its selections, and puts these on the stack.
#[inline(always)]
pub(crate) fn open_inline_fragment<'a, O: Target>(
    out: &mut O,
    here: &mut Place<'_>,
    stacks: &mut ExecutableStacks<'a>,
    fragment: &'a InlineFragment,
)
    requires { CanOpen here.old.level stacks.old
        (selection_nesting (selection_of_inline_fragment (inline_fragment_tree fragment.now))) }
    ensures prefix { here.new.prefix ≡ here.old.prefix }
    ensures kept { LoseNoRoom stacks.old stacks.new }
    ensures opened { OpensSelection O.wrote out.old out.new
        (mode_of here.old.prefix) here.old.level here.new.level
        (selection_of_inline_fragment (inline_fragment_tree fragment.now))
        (stack_entries stacks.old.selections) (stack_entries stacks.new.selections) }
{
    write_inline_fragment_head(out, here, &mut stacks.definitions.values, fragment);
    write_words(out, " ");
    open_set(out, here, &mut stacks.selections, &fragment.selection_set);
}

/// Writes a selection up to the selections of its set, and puts these on the stack; all of one without a set.
#[inline(always)]
fn open_selection<'a, O: Target>(
    out: &mut O,
    here: &mut Place<'_>,
    stacks: &mut ExecutableStacks<'a>,
    selection: &'a Selection,
)
    requires { CanOpen here.old.level stacks.old
        (selection_nesting (selection_tree selection.now)) }
    ensures prefix { here.new.prefix ≡ here.old.prefix }
    ensures kept { LoseNoRoom stacks.old stacks.new }
    ensures opened { OpensSelection O.wrote out.old out.new
        (mode_of here.old.prefix) here.old.level here.new.level
        (selection_tree selection.now)
        (stack_entries stacks.old.selections) (stack_entries stacks.new.selections) }
{
    match selection {
        Selection::Field(field) => open_field(out, here, stacks, field),
        Selection::FragmentSpread(spread) => {
            spread.write_at(out, here, &mut stacks.definitions.values);
        }
        Selection::InlineFragment(fragment) => open_inline_fragment(out, here, stacks, fragment),
    }
}

/// Whether there are selections within a selection. Any other is written whole at once.
#[inline(always)]
#[tactic(auto, using(crate::proofs::layout::SelectionShapes::selection_set_steps))]
fn has_set(selection: &Selection) -> bool
    ensures { result ≡ has_set (selection_tree selection.now) }
{
    match selection {
        Selection::Field(field) => !field.selection_set.is_empty(),
        Selection::FragmentSpread(_) => false,
        Selection::InlineFragment(fragment) => !fragment.selection_set.is_empty(),
    }
}

/// Writes a selection without selections of its own.
#[inline(always)]
#[tactic(auto, using(crate::proofs::layout::SelectionShapes::selection_nesting_steps))]
fn write_leaf<'a, O: Target>(
    out: &mut O,
    place: &Place<'_>,
    stack: &mut Stack<ValueEntry<'a>>,
    selection: &'a Selection,
)
    requires leaf { has_set (selection_tree selection.now) ≡ false }
    requires ready { CanWrite place.now stack.old
        (selection_nesting (selection_tree selection.now)) }
    ensures kept { IsKept stack.old stack.new }
    ensures written { Writes O.wrote out.old out.new place.now
        (selection_shape (selection_tree selection.now)) }
{
    match selection {
        Selection::Field(field) => write_field_head(out, place, stack, field),
        Selection::FragmentSpread(spread) => spread.write_at(out, place, stack),
        Selection::InlineFragment(fragment) => {
            write_inline_fragment_head(out, place, stack, fragment);
            write_words(out, " {}");
        }
    }
}

/// Writes the selections up to the next one that has selections of its own. It returns what is left then.
#[inline(always)]
fn write_leaves<'a, O: Target>(
    out: &mut O,
    place: &Place<'_>,
    stack: &mut Stack<ValueEntry<'a>>,
    selections: &'a [Selection],
) -> &'a [Selection]
    requires fits { place.now.level + selection_set_nesting (selection_trees selections.now)
        ≤ 2 ^ 64 }
    requires ready { IsReady stack.old (selection_set_nesting (selection_trees selections.now)) }
    ensures kept { IsKept stack.old stack.new }
    ensures nesting { selection_set_nesting (selection_trees result.now)
        ≤ selection_set_nesting (selection_trees selections.now) }
    ensures written { WritesBeginning O.wrote out.old out.new
        (mode_of place.now.prefix) place.now.level
        (curly_rest (selections_shapes (selection_trees selections.now)))
        place.now.level (curly_rest (selections_shapes (selection_trees result.now))) }
{
    let mut rest = selections;
    while let Some((selection, more)) = rest.split_first() {
        if has_set(selection) || out.is_stopped() {
            break;
        }
        write_soft(out, place);
        write_leaf(out, place, stack, selection);
        rest = more;
    }
    rest
}

/// Writes the next selection of an open set up to the selections of its own set, and puts these and the rest on the
/// stack; or the end of the set.
#[inline(always)]
fn write_next<'a, O: Target>(
    out: &mut O,
    here: &mut Place<'_>,
    stacks: &mut ExecutableStacks<'a>,
    entry: SelectionEntry<'a>,
)
    requires { CanGoOn here.old.level stacks.old entry }
    ensures prefix { here.new.prefix ≡ here.old.prefix }
    ensures kept { LoseNoRoom stacks.old stacks.new }
    ensures written { GoesOn O.wrote out.old out.new
        (mode_of here.old.prefix) here.old.level here.new.level
        entry.entry (stack_entries stacks.old.selections) (stack_entries stacks.new.selections) }
{
    match entry.rest.split_first() {
        Some((selection, rest)) => {
            write_soft(out, here);
            stacks.selections.push(SelectionEntry { rest });
            open_selection(out, here, stacks, selection);
        }
        None => {
            here.level -= 1;
            write_soft(out, here);
            write_words(out, "}");
        }
    }
}

/// Writes the selections of an open set up to the next one that has selections of its own, and puts these and the rest
/// on the stack; or all of them, and the end of the set.
#[inline(always)]
fn write_entry<'a, O: Target>(
    out: &mut O,
    here: &mut Place<'_>,
    stacks: &mut ExecutableStacks<'a>,
    entry: SelectionEntry<'a>,
)
    requires { CanGoOn here.old.level stacks.old entry }
    ensures prefix { here.new.prefix ≡ here.old.prefix }
    ensures kept { LoseNoRoom stacks.old stacks.new }
    ensures written { GoesOn O.wrote out.old out.new
        (mode_of here.old.prefix) here.old.level here.new.level
        entry.entry (stack_entries stacks.old.selections) (stack_entries stacks.new.selections) }
{
    let rest = write_leaves(out, here, &mut stacks.definitions.values, entry.rest);
    write_next(out, here, stacks, SelectionEntry { rest });
}

/// Writes all selections and ends of sets that wait on the stack. What was begun is whole then.
pub(crate) fn finish_sets<'a, O: Target>(
    out: &mut O,
    here: &mut Place<'_>,
    stacks: &mut ExecutableStacks<'a>,
)
    requires { CanFinish here.old.level stacks.old }
    ensures kept { AreAllKept stacks.old stacks.new }
    ensures finished { Finishes O.wrote out.old out.new (mode_of here.old.prefix) here.old.level
        (stack_items (stack_entries stacks.old.selections)) }
{
    while let Some(entry) = stacks.selections.pop() {
        if out.is_stopped() {
            stacks.selections.clear();
            return;
        }
        write_entry(out, here, stacks, entry);
    }
}

/// Writes a selection set. The stacks are empty before and after, and have room for what waits meanwhile.
pub(crate) fn write_selection_set<'a, O: Target>(
    out: &mut O,
    place: &Place<'_>,
    stacks: &mut ExecutableStacks<'a>,
    selections: &'a [Selection],
)
    requires { CanWriteExecutable place.now stacks.old
        (selection_set_nesting (selection_trees selections.now)) 0 }
    ensures kept { AreAllKept stacks.old stacks.new }
    ensures written { Writes O.wrote out.old out.new place.now
        (selection_set_shape (selection_trees selections.now)) }
{
    let mut here = *place;
    open_set(out, &mut here, &mut stacks.selections, selections);
    finish_sets(out, &mut here, stacks);
}

impl Selection {
    /// The selection in the default layout, for `print_to`, `to_text` or another layout.
    pub fn serialize(&self) -> Serialize<'_, Selection>
        ensures { IsDefaultPrint self.now result }
    {
        Serialize::new(self)
    }

    /// The first fragment spread in it that is named `on`, inline fragment that has no selection, or enum value in its
    /// arguments and directives that is `true`, `false` or `null`. Variables are allowed.
    #[cycle(find_ill_formed_selection)]
    #[tactic(auto, using(crate::proofs::layout::SelectionShapes::selection_flaws_steps))]
    pub fn find_ill_formed(&self) -> Option<IllFormed<'_>>
        ensures { IsFirstFlaw (selection_kind.flaws (selection_tree self.now)) result }
    {
        let found = match self {
            Selection::Field(field) => field.find_ill_formed(),
            Selection::FragmentSpread(spread) => spread.find_ill_formed(),
            Selection::InlineFragment(fragment) => fragment.find_ill_formed(),
        };
        Some(found?.within(self.location()))
    }

    /// Whether no fragment spread in it is named `on`, each inline fragment in it has a selection, and no enum value in
    /// its arguments and directives is `true`, `false` or `null`. Variables are allowed.
    #[cycle(selection_is_well_formed)]
    #[tactic(auto, using(crate::proofs::layout::SelectionShapes::selection_obeys_steps))]
    pub fn is_well_formed(&self) -> bool
        ensures { result ≡ selection_kind.obeys (selection_tree self.now) }
    {
        match self {
            Selection::Field(field) => is_field_head_well_formed(field)
                && are_selections_well_formed(&field.selection_set),
            Selection::FragmentSpread(spread) => spread.is_well_formed(),
            Selection::InlineFragment(fragment) => is_inline_fragment_head_well_formed(fragment)
                && is_selection_set_well_formed(&fragment.selection_set),
        }
    }

    /// The allocator of its directives.
    fn allocator(&self) -> Global {
        match self {
            Selection::Field(field) => field.directives.allocator(),
            Selection::FragmentSpread(spread) => spread.directives.allocator(),
            Selection::InlineFragment(fragment) => fragment.directives.allocator(),
        }
    }
}

impl SyntaxTree for Selection {
    ghost kind = { selection_kind };

    ghost tree = { selection_tree };

    ghost laws = { selection_laws };

    ghost list_depth = { no_types };

    fn find_ill_formed(&self) -> Option<IllFormed<'_>> {
        Selection::find_ill_formed(self)
    }

    fn is_well_formed(&self) -> bool {
        Selection::is_well_formed(self)
    }

    fn find_depths(&self) -> Option<Depths> {
        Some(Depths::without_types(find_selection_nesting(self)?))
    }
}

impl Syntax for Selection {
    fn write<O: Target>(&self, out: &mut O, start: &Start<'_>) -> Result<(), AllocError> {
        write_whole(self, out, start)
    }
}

impl<'t> Written<'t, ExecutableStacks<'t>> for Selection {
    fn reserve(&'t self, depths: Depths) -> Result<ExecutableStacks<'t>, AllocError> {
        ExecutableStacks::reserve(self.allocator(), depths)
    }

    fn write_at<O: Target>(
        &'t self,
        out: &mut O,
        place: &Place<'_>,
        stacks: &mut ExecutableStacks<'t>,
    ) {
        let mut here = *place;
        open_selection(out, &mut here, stacks, self);
        finish_sets(out, &mut here, stacks);
    }
}

impl fmt::Display for Selection {
    ghost output = { λ selection. Some (default_bytes selection_kind (selection_tree selection)) };

    fn fmt<W: fmt::Write>(&self, f: &mut fmt::Formatter<W>) -> fmt::Result {
        self.serialize().fmt(f)
    }
}
