//! Enum types are printed.
ghost use Rattle.std.specs.Prelude.{◌≡◌, Some};
ghost use Rattle.graphql_text.specs.code.IllFormed.{IsFirstFlaw};
ghost use Rattle.graphql_text.specs.kinds.PrintedKinds.{no_types};
ghost use Rattle.graphql_text.specs.kinds.Printing.{IsDefaultPrint, default_bytes};
ghost use Rattle.graphql_type_system.specs.kinds.EnumTypes.{enum_type_definition_kind, enum_type_extension_kind};
ghost use Rattle.graphql_type_system.specs.trees.TypeSystemTrees.{enum_type_definition_tree, enum_type_extension_tree};
ghost use Rattle.graphql_type_system.specs.lemmas.Kinds.{enum_type_definition_laws, enum_type_extension_laws};

use crate::enum_type::{EnumTypeDefinition, EnumTypeExtension};
use crate::members::write_directives_and_members;
use graphql_text::engine::{Serialize, Syntax, SyntaxTree};
use graphql_text::ill_formed::{IllFormed, SideCondition};
use graphql_text::writers::{
    Depths, Place, Start, Target, Written, are_parts_well_formed, find_ill_formed_part,
    find_parts_depths, ill_formed_unless, write_leading_description, write_name, write_whole,
    write_words,
};
use graphql_values::writers::{
    Constness, Stacks, are_directives_well_formed, find_ill_formed_directive,
};
use std::alloc::AllocError;
use std::fmt;

impl EnumTypeDefinition {
    /// The definition in the default layout, for `print_to`, `to_text` or another layout.
    pub fn serialize(&self) -> Serialize<'_, EnumTypeDefinition>
        ensures { IsDefaultPrint self.now result }
    {
        Serialize::new(self)
    }

    /// The first flaw of its directives, or else of its values.
    #[tactic(auto, using(graphql_text::proofs::kinds::FlawsTold::flaw_steps))]
    pub fn find_ill_formed(&self) -> Option<IllFormed<'_>>
        ensures { IsFirstFlaw
            (enum_type_definition_kind.flaws (enum_type_definition_tree self.now)) result }
    {
        let found = find_ill_formed_directive(&self.directives, Constness::Const);
        if found.is_some() {
            return found;
        }
        find_ill_formed_part(&self.values)
    }

    /// Whether the directives and the values are well formed, each in a const context.
    pub fn is_well_formed(&self) -> bool
        ensures { result ≡ enum_type_definition_kind.obeys (enum_type_definition_tree self.now) }
    {
        are_directives_well_formed(&self.directives, Constness::Const)
            && are_parts_well_formed(&self.values)
    }
}

impl SyntaxTree for EnumTypeDefinition {
    ghost kind = { enum_type_definition_kind };

    ghost tree = { enum_type_definition_tree };

    ghost laws = { enum_type_definition_laws };

    ghost list_depth = { no_types };

    fn find_ill_formed(&self) -> Option<IllFormed<'_>> {
        EnumTypeDefinition::find_ill_formed(self)
    }

    fn is_well_formed(&self) -> bool {
        EnumTypeDefinition::is_well_formed(self)
    }

    #[tactic(auto, using(crate::proofs::CanWriteWithoutTypes::no_lists))]
    fn find_depths(&self) -> Option<Depths> {
        let directives = self.directives.find_depths()?;
        Some(directives.max(find_parts_depths(&self.values)?))
    }
}

impl Syntax for EnumTypeDefinition {
    fn write<O: Target>(&self, out: &mut O, start: &Start<'_>) -> Result<(), AllocError> {
        write_whole(self, out, start)
    }
}

impl<'t> Written<'t, Stacks<'t>> for EnumTypeDefinition {
    fn reserve(&'t self, depths: Depths) -> Result<Stacks<'t>, AllocError> {
        Stacks::reserve(self.directives.allocator(), depths)
    }

    fn write_at<O: Target>(&'t self, out: &mut O, place: &Place<'_>, stacks: &mut Stacks<'t>) {
        let EnumTypeDefinition {
            description,
            name,
            directives,
            values,
        } = self;
        write_leading_description(out, place, description.as_ref());
        write_words(out, "enum ");
        write_name(out, name);
        write_directives_and_members(out, place, stacks, directives, values);
    }
}

impl fmt::Display for EnumTypeDefinition {
    ghost output = { λ definition.
        Some (default_bytes enum_type_definition_kind (enum_type_definition_tree definition)) };

    fn fmt<W: fmt::Write>(&self, f: &mut fmt::Formatter<W>) -> fmt::Result {
        self.serialize().fmt(f)
    }
}

impl EnumTypeExtension {
    /// The extension in the default layout, for `print_to`, `to_text` or another layout.
    pub fn serialize(&self) -> Serialize<'_, EnumTypeExtension>
        ensures { IsDefaultPrint self.now result }
    {
        Serialize::new(self)
    }

    /// That it adds nothing, or the first flaw of its directives, or else of its values.
    #[tactic(auto, using(graphql_text::proofs::kinds::FlawsTold::flaw_steps))]
    pub fn find_ill_formed(&self) -> Option<IllFormed<'_>>
        ensures { IsFirstFlaw
            (enum_type_extension_kind.flaws (enum_type_extension_tree self.now)) result }
    {
        let adds = !self.directives.is_empty() || !self.values.is_empty();
        let found = ill_formed_unless(adds, SideCondition::AddsSomething, Some(&self.name));
        if found.is_some() {
            return found;
        }
        let found = find_ill_formed_directive(&self.directives, Constness::Const);
        if found.is_some() {
            return found;
        }
        find_ill_formed_part(&self.values)
    }

    /// Whether it adds something, and the directives and the values are well formed, each in a const context.
    pub fn is_well_formed(&self) -> bool
        ensures { result ≡ enum_type_extension_kind.obeys (enum_type_extension_tree self.now) }
    {
        (!self.directives.is_empty() || !self.values.is_empty())
            && are_directives_well_formed(&self.directives, Constness::Const)
            && are_parts_well_formed(&self.values)
    }
}

impl SyntaxTree for EnumTypeExtension {
    ghost kind = { enum_type_extension_kind };

    ghost tree = { enum_type_extension_tree };

    ghost laws = { enum_type_extension_laws };

    ghost list_depth = { no_types };

    fn find_ill_formed(&self) -> Option<IllFormed<'_>> {
        EnumTypeExtension::find_ill_formed(self)
    }

    fn is_well_formed(&self) -> bool {
        EnumTypeExtension::is_well_formed(self)
    }

    #[tactic(auto, using(crate::proofs::CanWriteWithoutTypes::no_lists))]
    fn find_depths(&self) -> Option<Depths> {
        let directives = self.directives.find_depths()?;
        Some(directives.max(find_parts_depths(&self.values)?))
    }
}

impl Syntax for EnumTypeExtension {
    fn write<O: Target>(&self, out: &mut O, start: &Start<'_>) -> Result<(), AllocError> {
        write_whole(self, out, start)
    }
}

impl<'t> Written<'t, Stacks<'t>> for EnumTypeExtension {
    fn reserve(&'t self, depths: Depths) -> Result<Stacks<'t>, AllocError> {
        Stacks::reserve(self.directives.allocator(), depths)
    }

    fn write_at<O: Target>(&'t self, out: &mut O, place: &Place<'_>, stacks: &mut Stacks<'t>) {
        let EnumTypeExtension {
            name,
            directives,
            values,
        } = self;
        write_words(out, "extend enum ");
        write_name(out, name);
        write_directives_and_members(out, place, stacks, directives, values);
    }
}

impl fmt::Display for EnumTypeExtension {
    ghost output = { λ definition.
        Some (default_bytes enum_type_extension_kind (enum_type_extension_tree definition)) };

    fn fmt<W: fmt::Write>(&self, f: &mut fmt::Formatter<W>) -> fmt::Result {
        self.serialize().fmt(f)
    }
}
