//! Fragment definitions are printed.
ghost use Rattle.std.specs.Prelude.{◌≡◌, Some};
ghost use Rattle.graphql_text.specs.code.IllFormed.{IsFirstFlaw};
ghost use Rattle.graphql_text.specs.kinds.PrintedKinds.{no_types};
ghost use Rattle.graphql_text.specs.kinds.Printing.{IsDefaultPrint, default_bytes};
ghost use Rattle.graphql_executable.specs.trees.ExecutableTrees.{fragment_definition_tree};
ghost use Rattle.graphql_executable.specs.kinds.FragmentDefinitions.{fragment_definition_kind};
ghost use Rattle.graphql_executable.specs.lemmas.Definitions.{fragment_definition_laws};

use crate::fragment_definition::FragmentDefinition;
use crate::fragment_spread::print::is_fragment_name;
use crate::selection::print::{
    find_ill_formed_set, find_selection_set_nesting, is_selection_set_well_formed,
    write_selection_set,
};
use crate::stacks::ExecutableStacks;
use graphql_text::engine::{Serialize, Syntax, SyntaxTree};
use graphql_text::ill_formed::{IllFormed, SideCondition};
use graphql_text::writers::{
    Depths, Place, Start, Target, Written, ill_formed_unless, write_leading_description,
    write_name, write_whole, write_words,
};
use graphql_values::writers::{
    Constness, are_directives_well_formed, find_directives_nesting, find_ill_formed_directive,
};
use std::alloc::AllocError;
use std::fmt;

impl FragmentDefinition {
    /// The fragment definition in the default layout, for `print_to`, `to_text` or another layout.
    pub fn serialize(&self) -> Serialize<'_, FragmentDefinition>
        ensures { IsDefaultPrint self.now result }
    {
        Serialize::new(self)
    }

    /// That it is named `on`, or the first flaw of its directives, or else that it has no selection, or the first flaw
    /// of its selections.
    #[tactic(auto, using(graphql_text::proofs::kinds::FlawsTold::flaw_steps))]
    pub fn find_ill_formed(&self) -> Option<IllFormed<'_>>
        ensures { IsFirstFlaw
            (fragment_definition_kind.flaws (fragment_definition_tree self.now)) result }
    {
        let is_free = is_fragment_name(self.name.as_str());
        let found = ill_formed_unless(is_free, SideCondition::IsNotOn, Some(&self.name));
        if found.is_some() {
            return found;
        }
        let found = find_ill_formed_directive(&self.directives, Constness::NonConst);
        if found.is_some() {
            return found;
        }
        find_ill_formed_set(Some(&self.name), &self.selection_set)
    }

    /// Whether it isn't named `on`, it has a selection, and its directives and selections are well formed.
    pub fn is_well_formed(&self) -> bool
        ensures { result ≡ fragment_definition_kind.obeys (fragment_definition_tree self.now) }
    {
        is_fragment_name(self.name.as_str())
            && are_directives_well_formed(&self.directives, Constness::NonConst)
            && is_selection_set_well_formed(&self.selection_set)
    }
}

impl SyntaxTree for FragmentDefinition {
    ghost kind = { fragment_definition_kind };

    ghost tree = { fragment_definition_tree };

    ghost laws = { fragment_definition_laws };

    ghost list_depth = { no_types };

    fn find_ill_formed(&self) -> Option<IllFormed<'_>> {
        FragmentDefinition::find_ill_formed(self)
    }

    fn is_well_formed(&self) -> bool {
        FragmentDefinition::is_well_formed(self)
    }

    fn find_depths(&self) -> Option<Depths> {
        let directives = find_directives_nesting(&self.directives)?;
        let selections = find_selection_set_nesting(&self.selection_set)?;
        Some(Depths::without_types(directives.max(selections)))
    }
}

impl Syntax for FragmentDefinition {
    fn write<O: Target>(&self, out: &mut O, start: &Start<'_>) -> Result<(), AllocError> {
        write_whole(self, out, start)
    }
}

impl<'t> Written<'t, ExecutableStacks<'t>> for FragmentDefinition {
    fn reserve(&'t self, depths: Depths) -> Result<ExecutableStacks<'t>, AllocError> {
        ExecutableStacks::reserve(self.directives.allocator(), depths)
    }

    fn write_at<O: Target>(
        &'t self,
        out: &mut O,
        place: &Place<'_>,
        stacks: &mut ExecutableStacks<'t>,
    ) {
        let FragmentDefinition {
            description,
            name,
            type_condition,
            directives,
            selection_set,
        } = self;
        write_leading_description(out, place, description.as_ref());
        write_words(out, "fragment ");
        write_name(out, name);
        write_words(out, " on ");
        write_name(out, type_condition);
        directives.write_at(out, place, &mut stacks.definitions.values);
        write_words(out, " ");
        write_selection_set(out, place, stacks, selection_set);
    }
}

impl fmt::Display for FragmentDefinition {
    ghost output = { λ fragment.
        Some (default_bytes fragment_definition_kind (fragment_definition_tree fragment)) };

    fn fmt<W: fmt::Write>(&self, f: &mut fmt::Formatter<W>) -> fmt::Result {
        self.serialize().fmt(f)
    }
}
