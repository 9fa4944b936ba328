//! Interface types are printed.
ghost use Rattle.std.specs.Prelude.{◌≡◌, Some};
ghost use Rattle.graphql_text.specs.code.IllFormed.{IsFirstFlaw};
ghost use Rattle.graphql_text.specs.kinds.Printing.{IsDefaultPrint, default_bytes};
ghost use Rattle.graphql_type_system.specs.kinds.ImplementingTypes.{fields_list_depth};
ghost use Rattle.graphql_type_system.specs.kinds.InterfaceTypes.{interface_type_definition_kind, interface_type_extension_kind};
ghost use Rattle.graphql_type_system.specs.trees.TypeSystemTrees.{interface_type_definition_tree, interface_type_extension_tree};
ghost use Rattle.graphql_type_system.specs.lemmas.Kinds.{interface_type_definition_laws, interface_type_extension_laws};

use crate::interface_type::{InterfaceTypeDefinition, InterfaceTypeExtension};
use crate::joined_names::write_joined_names;
use crate::members::write_directives_and_members;
use graphql_text::engine::{Serialize, Syntax, SyntaxTree};
use graphql_text::ill_formed::{IllFormed, SideCondition};
use graphql_text::writers::{
    Depths, Place, Start, Target, Written, are_parts_well_formed, find_ill_formed_part,
    find_parts_depths, ill_formed_unless, write_leading_description, write_name, write_whole,
    write_words,
};
use graphql_values::writers::{
    Constness, Stacks, are_directives_well_formed, find_ill_formed_directive,
};
use std::alloc::AllocError;
use std::fmt;

impl InterfaceTypeDefinition {
    /// The definition in the default layout, for `print_to`, `to_text` or another layout.
    pub fn serialize(&self) -> Serialize<'_, InterfaceTypeDefinition>
        ensures { IsDefaultPrint self.now result }
    {
        Serialize::new(self)
    }

    /// The first flaw of its directives, or else of its fields.
    #[tactic(auto, using(graphql_text::proofs::kinds::FlawsTold::flaw_steps))]
    pub fn find_ill_formed(&self) -> Option<IllFormed<'_>>
        ensures { IsFirstFlaw
            (interface_type_definition_kind.flaws
            (interface_type_definition_tree self.now)) result }
    {
        let found = find_ill_formed_directive(&self.directives, Constness::Const);
        if found.is_some() {
            return found;
        }
        find_ill_formed_part(&self.fields)
    }

    /// Whether the directives and the fields are well formed, each in a const context.
    pub fn is_well_formed(&self) -> bool
        ensures { result
            ≡ interface_type_definition_kind.obeys (interface_type_definition_tree self.now) }
    {
        are_directives_well_formed(&self.directives, Constness::Const)
            && are_parts_well_formed(&self.fields)
    }
}

impl SyntaxTree for InterfaceTypeDefinition {
    ghost kind = { interface_type_definition_kind };

    ghost tree = { interface_type_definition_tree };

    ghost laws = { interface_type_definition_laws };

    ghost list_depth = { λ interface. fields_list_depth interface.body.fields };

    fn find_ill_formed(&self) -> Option<IllFormed<'_>> {
        InterfaceTypeDefinition::find_ill_formed(self)
    }

    fn is_well_formed(&self) -> bool {
        InterfaceTypeDefinition::is_well_formed(self)
    }

    fn find_depths(&self) -> Option<Depths> {
        let directives = self.directives.find_depths()?;
        Some(directives.max(find_parts_depths(&self.fields)?))
    }
}

impl Syntax for InterfaceTypeDefinition {
    fn write<O: Target>(&self, out: &mut O, start: &Start<'_>) -> Result<(), AllocError> {
        write_whole(self, out, start)
    }
}

impl<'t> Written<'t, Stacks<'t>> for InterfaceTypeDefinition {
    fn reserve(&'t self, depths: Depths) -> Result<Stacks<'t>, AllocError> {
        Stacks::reserve(self.directives.allocator(), depths)
    }

    fn write_at<O: Target>(&'t self, out: &mut O, place: &Place<'_>, stacks: &mut Stacks<'t>) {
        let InterfaceTypeDefinition {
            description,
            name,
            implements_interfaces,
            directives,
            fields,
        } = self;
        write_leading_description(out, place, description.as_ref());
        write_words(out, "interface ");
        write_name(out, name);
        write_joined_names(out, " implements ", " & ", implements_interfaces);
        write_directives_and_members(out, place, stacks, directives, fields);
    }
}

impl fmt::Display for InterfaceTypeDefinition {
    ghost output = { λ interface.
        Some (default_bytes interface_type_definition_kind
        (interface_type_definition_tree interface)) };

    fn fmt<W: fmt::Write>(&self, f: &mut fmt::Formatter<W>) -> fmt::Result {
        self.serialize().fmt(f)
    }
}

impl InterfaceTypeExtension {
    /// The extension in the default layout, for `print_to`, `to_text` or another layout.
    pub fn serialize(&self) -> Serialize<'_, InterfaceTypeExtension>
        ensures { IsDefaultPrint self.now result }
    {
        Serialize::new(self)
    }

    /// That it adds nothing, or the first flaw of its directives, or else of its fields.
    #[tactic(auto, using(graphql_text::proofs::kinds::FlawsTold::flaw_steps))]
    pub fn find_ill_formed(&self) -> Option<IllFormed<'_>>
        ensures { IsFirstFlaw
            (interface_type_extension_kind.flaws (interface_type_extension_tree self.now)) result }
    {
        let adds = !self.implements_interfaces.is_empty()
            || !self.directives.is_empty()
            || !self.fields.is_empty();
        let found = ill_formed_unless(adds, SideCondition::AddsSomething, Some(&self.name));
        if found.is_some() {
            return found;
        }
        let found = find_ill_formed_directive(&self.directives, Constness::Const);
        if found.is_some() {
            return found;
        }
        find_ill_formed_part(&self.fields)
    }

    /// Whether it adds something, and the directives and the fields are well formed, each in a const context.
    pub fn is_well_formed(&self) -> bool
        ensures { result
            ≡ interface_type_extension_kind.obeys (interface_type_extension_tree self.now) }
    {
        (!self.implements_interfaces.is_empty()
            || !self.directives.is_empty()
            || !self.fields.is_empty())
            && are_directives_well_formed(&self.directives, Constness::Const)
            && are_parts_well_formed(&self.fields)
    }
}

impl SyntaxTree for InterfaceTypeExtension {
    ghost kind = { interface_type_extension_kind };

    ghost tree = { interface_type_extension_tree };

    ghost laws = { interface_type_extension_laws };

    ghost list_depth = { λ interface. fields_list_depth interface.fields };

    fn find_ill_formed(&self) -> Option<IllFormed<'_>> {
        InterfaceTypeExtension::find_ill_formed(self)
    }

    fn is_well_formed(&self) -> bool {
        InterfaceTypeExtension::is_well_formed(self)
    }

    fn find_depths(&self) -> Option<Depths> {
        let directives = self.directives.find_depths()?;
        Some(directives.max(find_parts_depths(&self.fields)?))
    }
}

impl Syntax for InterfaceTypeExtension {
    fn write<O: Target>(&self, out: &mut O, start: &Start<'_>) -> Result<(), AllocError> {
        write_whole(self, out, start)
    }
}

impl<'t> Written<'t, Stacks<'t>> for InterfaceTypeExtension {
    fn reserve(&'t self, depths: Depths) -> Result<Stacks<'t>, AllocError> {
        Stacks::reserve(self.directives.allocator(), depths)
    }

    fn write_at<O: Target>(&'t self, out: &mut O, place: &Place<'_>, stacks: &mut Stacks<'t>) {
        let InterfaceTypeExtension {
            name,
            implements_interfaces,
            directives,
            fields,
        } = self;
        write_words(out, "extend interface ");
        write_name(out, name);
        write_joined_names(out, " implements ", " & ", implements_interfaces);
        write_directives_and_members(out, place, stacks, directives, fields);
    }
}

impl fmt::Display for InterfaceTypeExtension {
    ghost output = { λ interface.
        Some (default_bytes interface_type_extension_kind
        (interface_type_extension_tree interface)) };

    fn fmt<W: fmt::Write>(&self, f: &mut fmt::Formatter<W>) -> fmt::Result {
        self.serialize().fmt(f)
    }
}
