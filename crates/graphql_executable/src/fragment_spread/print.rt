//! Fragment spreads are printed.
ghost use Rattle.std.specs.Prelude.{◌≡◌, Some};
ghost use Rattle.graphql_text.specs.code.IllFormed.{IsFirstFlaw};
ghost use Rattle.graphql_text.specs.kinds.PrintedKinds.{no_types};
ghost use Rattle.graphql_text.specs.kinds.Printing.{IsDefaultPrint, default_bytes};
ghost use Rattle.graphql_executable.specs.trees.ExecutableTrees.{fragment_spread_tree};
ghost use Rattle.graphql_executable.specs.kinds.FragmentNames.{is_fragment_name};
ghost use Rattle.graphql_executable.specs.kinds.FragmentSpreads.{fragment_spread_kind};
ghost use Rattle.graphql_executable.specs.lemmas.Heads.{fragment_spread_laws};

use crate::fragment_spread::FragmentSpread;
use crate::optional_parts::write_optional_directives;
use graphql_text::engine::{Serialize, Syntax, SyntaxTree};
use graphql_text::ill_formed::{IllFormed, SideCondition};
use graphql_text::writers::{
    Depths, Place, Stack, Start, Target, Written, ill_formed_unless, write_name, write_whole,
    write_words,
};
use graphql_values::writers::{
    Constness, ValueEntry, are_directives_well_formed, find_ill_formed_directive,
};
use std::alloc::AllocError;
use std::fmt;

/// Whether a name can be that of a fragment (`FragmentName`, section 2.8): any but `on`.
pub(crate) fn is_fragment_name(name: &str) -> bool
    ensures { result ≡ is_fragment_name name.now }
{
    name != "on"
}

impl FragmentSpread {
    /// The fragment spread in the default layout, for `print_to`, `to_text` or another layout.
    pub fn serialize(&self) -> Serialize<'_, FragmentSpread>
        ensures { IsDefaultPrint self.now result }
    {
        Serialize::new(self)
    }

    /// That it is named `on`, or the first flaw of its directives. Variables are allowed.
    #[tactic(auto, using(graphql_text::proofs::kinds::FlawsTold::flaw_steps))]
    pub fn find_ill_formed(&self) -> Option<IllFormed<'_>>
        ensures { IsFirstFlaw (fragment_spread_kind.flaws (fragment_spread_tree self.now)) result }
    {
        let is_free = is_fragment_name(self.fragment_name.as_str());
        let found = ill_formed_unless(is_free, SideCondition::IsNotOn, Some(&self.fragment_name));
        if found.is_some() {
            return found;
        }
        find_ill_formed_directive(&self.directives, Constness::NonConst)
    }

    /// Whether it isn't named `on`, and no enum value in its directives is `true`, `false` or `null`. Variables are
    /// allowed.
    pub fn is_well_formed(&self) -> bool
        ensures { result ≡ fragment_spread_kind.obeys (fragment_spread_tree self.now) }
    {
        is_fragment_name(self.fragment_name.as_str())
            && are_directives_well_formed(&self.directives, Constness::NonConst)
    }
}

impl SyntaxTree for FragmentSpread {
    ghost kind = { fragment_spread_kind };

    ghost tree = { fragment_spread_tree };

    ghost laws = { fragment_spread_laws };

    ghost list_depth = { no_types };

    fn find_ill_formed(&self) -> Option<IllFormed<'_>> {
        FragmentSpread::find_ill_formed(self)
    }

    fn is_well_formed(&self) -> bool {
        FragmentSpread::is_well_formed(self)
    }

    fn find_depths(&self) -> Option<Depths> {
        self.directives.find_depths()
    }
}

impl Syntax for FragmentSpread {
    fn write<O: Target>(&self, out: &mut O, start: &Start<'_>) -> Result<(), AllocError> {
        write_whole(self, out, start)
    }
}

impl<'t> Written<'t, Stack<ValueEntry<'t>>> for FragmentSpread {
    fn reserve(&'t self, depths: Depths) -> Result<Stack<ValueEntry<'t>>, AllocError> {
        Stack::reserve(Some(self.directives.allocator()), depths.nesting)
    }

    fn write_at<O: Target>(
        &'t self,
        out: &mut O,
        place: &Place<'_>,
        stack: &mut Stack<ValueEntry<'t>>,
    ) {
        let FragmentSpread {
            fragment_name,
            directives,
        } = self;
        write_words(out, "...");
        write_name(out, fragment_name);
        write_optional_directives(out, place, stack, directives);
    }
}

impl fmt::Display for FragmentSpread {
    ghost output = { λ spread.
        Some (default_bytes fragment_spread_kind (fragment_spread_tree spread)) };

    fn fmt<W: fmt::Write>(&self, f: &mut fmt::Formatter<W>) -> fmt::Result {
        self.serialize().fmt(f)
    }
}
