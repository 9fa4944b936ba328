//! Definitions of enum values are printed.
ghost use Rattle.std.specs.Prelude.{◌≡◌, Some};
ghost use Rattle.graphql_text.specs.code.IllFormed.{IsFirstFlaw};
ghost use Rattle.graphql_text.specs.kinds.PrintedKinds.{no_types};
ghost use Rattle.graphql_text.specs.kinds.Printing.{IsDefaultPrint, default_bytes};
ghost use Rattle.graphql_type_system.specs.kinds.EnumValueDefinitions.{enum_value_definition_kind};
ghost use Rattle.graphql_type_system.specs.trees.TypeSystemTrees.{enum_value_definition_tree};
ghost use Rattle.graphql_type_system.specs.lemmas.Kinds.{enum_value_definition_laws};

use crate::enum_value_definition::EnumValueDefinition;
use graphql_text::engine::{Serialize, Syntax, SyntaxTree};
use graphql_text::ill_formed::{IllFormed, SideCondition};
use graphql_text::writers::{
    Depths, Place, Start, Target, Written, ill_formed_unless, write_leading_description,
    write_name, write_whole,
};
use graphql_values::writers::{
    Constness, Stacks, are_directives_well_formed, find_ill_formed_directive, is_enum_name,
};
use std::alloc::AllocError;
use std::fmt;

impl EnumValueDefinition {
    /// The definition in the default layout, for `print_to`, `to_text` or another layout.
    pub fn serialize(&self) -> Serialize<'_, EnumValueDefinition>
        ensures { IsDefaultPrint self.now result }
    {
        Serialize::new(self)
    }

    /// That the value is `true`, `false` or `null`, or the first flaw of its directives.
    #[tactic(auto, using(graphql_text::proofs::kinds::FlawsTold::flaw_steps))]
    pub fn find_ill_formed(&self) -> Option<IllFormed<'_>>
        ensures { IsFirstFlaw
            (enum_value_definition_kind.flaws (enum_value_definition_tree self.now)) result }
    {
        let is_free = is_enum_name(self.value.as_str());
        let found = ill_formed_unless(is_free, SideCondition::IsNotReserved, Some(&self.value));
        if found.is_some() {
            return found;
        }
        find_ill_formed_directive(&self.directives, Constness::Const)
    }

    /// Whether the value is none of `true`, `false` and `null`, and the same holds of the enum values in the arguments
    /// of its directives, where no variable stands.
    pub fn is_well_formed(&self) -> bool
        ensures { result ≡ enum_value_definition_kind.obeys (enum_value_definition_tree self.now) }
    {
        is_enum_name(self.value.as_str())
            && are_directives_well_formed(&self.directives, Constness::Const)
    }
}

impl SyntaxTree for EnumValueDefinition {
    ghost kind = { enum_value_definition_kind };

    ghost tree = { enum_value_definition_tree };

    ghost laws = { enum_value_definition_laws };

    ghost list_depth = { no_types };

    fn find_ill_formed(&self) -> Option<IllFormed<'_>> {
        EnumValueDefinition::find_ill_formed(self)
    }

    fn is_well_formed(&self) -> bool {
        EnumValueDefinition::is_well_formed(self)
    }

    fn find_depths(&self) -> Option<Depths> {
        self.directives.find_depths()
    }
}

impl Syntax for EnumValueDefinition {
    fn write<O: Target>(&self, out: &mut O, start: &Start<'_>) -> Result<(), AllocError> {
        write_whole(self, out, start)
    }
}

impl<'t> Written<'t, Stacks<'t>> for EnumValueDefinition {
    fn reserve(&'t self, depths: Depths) -> Result<Stacks<'t>, AllocError> {
        Stacks::reserve(self.directives.allocator(), depths)
    }

    fn write_at<O: Target>(&'t self, out: &mut O, place: &Place<'_>, stacks: &mut Stacks<'t>) {
        let EnumValueDefinition {
            description,
            value,
            directives,
        } = self;
        write_leading_description(out, place, description.as_ref());
        write_name(out, value);
        directives.write_at(out, place, &mut stacks.values);
    }
}

impl fmt::Display for EnumValueDefinition {
    ghost output = { λ definition.
        Some (default_bytes enum_value_definition_kind (enum_value_definition_tree definition)) };

    fn fmt<W: fmt::Write>(&self, f: &mut fmt::Formatter<W>) -> fmt::Result {
        self.serialize().fmt(f)
    }
}
