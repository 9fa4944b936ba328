//! Input object types are printed.
ghost use Rattle.std.specs.Prelude.{◌≡◌, Some};
ghost use Rattle.graphql_text.specs.code.IllFormed.{IsFirstFlaw};
ghost use Rattle.graphql_text.specs.kinds.Printing.{IsDefaultPrint, default_bytes};
ghost use Rattle.graphql_type_system.specs.kinds.BracedTypes.{braced_type_adds};
ghost use Rattle.graphql_type_system.specs.kinds.InputObjectTypes.{input_object_type_definition_kind, input_object_type_extension_kind};
ghost use Rattle.graphql_type_system.specs.trees.TypeSystemTrees.{input_object_type_definition_tree, input_object_type_extension_tree};
ghost use Rattle.graphql_type_system.specs.lemmas.Kinds.{input_object_type_definition_laws, input_object_type_extension_laws};
ghost use Rattle.graphql_values.specs.kinds.ArgumentsDefinitions.{arguments_list_depth};
ghost use Rattle.graphql_values.specs.kinds.InputValueDefinitions.{input_value_definition_kind};

use crate::input_object_type::{InputObjectTypeDefinition, InputObjectTypeExtension};
use crate::members::write_directives_and_members;
use graphql_text::engine::{Serialize, Syntax, SyntaxTree};
use graphql_text::ill_formed::{IllFormed, SideCondition};
use graphql_text::writers::{
    Depths, Place, Start, Target, Written, are_parts_well_formed, find_ill_formed_part,
    find_parts_depths, ill_formed_unless, write_leading_description, write_name, write_whole,
    write_words,
};
use graphql_values::writers::{
    Constness, Stacks, are_directives_well_formed, find_ill_formed_directive,
};
use std::alloc::AllocError;
use std::fmt;

impl InputObjectTypeDefinition {
    /// The definition in the default layout, for `print_to`, `to_text` or another layout.
    pub fn serialize(&self) -> Serialize<'_, InputObjectTypeDefinition>
        ensures { IsDefaultPrint self.now result }
    {
        Serialize::new(self)
    }

    /// The first flaw of its directives, or else of its fields.
    #[tactic(auto, using(graphql_text::proofs::kinds::FlawsTold::flaw_steps))]
    pub fn find_ill_formed(&self) -> Option<IllFormed<'_>>
        ensures { IsFirstFlaw
            (input_object_type_definition_kind.flaws
            (input_object_type_definition_tree self.now)) result }
    {
        let found = find_ill_formed_directive(&self.directives, Constness::Const);
        if found.is_some() {
            return found;
        }
        find_ill_formed_part(&self.fields)
    }

    /// Whether the directives and the fields are well formed, each in a const context.
    pub fn is_well_formed(&self) -> bool
        ensures { result
            ≡ input_object_type_definition_kind.obeys (input_object_type_definition_tree self.now) }
    {
        are_directives_well_formed(&self.directives, Constness::Const)
            && are_parts_well_formed(&self.fields)
    }
}

impl SyntaxTree for InputObjectTypeDefinition {
    ghost kind = { input_object_type_definition_kind };

    ghost tree = { input_object_type_definition_tree };

    ghost laws = { input_object_type_definition_laws };

    ghost list_depth = { λ input. arguments_list_depth input.body.members };

    fn find_ill_formed(&self) -> Option<IllFormed<'_>> {
        InputObjectTypeDefinition::find_ill_formed(self)
    }

    fn is_well_formed(&self) -> bool {
        InputObjectTypeDefinition::is_well_formed(self)
    }

    fn find_depths(&self) -> Option<Depths> {
        let directives = self.directives.find_depths()?;
        Some(directives.max(find_parts_depths(&self.fields)?))
    }
}

impl Syntax for InputObjectTypeDefinition {
    fn write<O: Target>(&self, out: &mut O, start: &Start<'_>) -> Result<(), AllocError> {
        write_whole(self, out, start)
    }
}

impl<'t> Written<'t, Stacks<'t>> for InputObjectTypeDefinition {
    fn reserve(&'t self, depths: Depths) -> Result<Stacks<'t>, AllocError> {
        Stacks::reserve(self.directives.allocator(), depths)
    }

    fn write_at<O: Target>(&'t self, out: &mut O, place: &Place<'_>, stacks: &mut Stacks<'t>) {
        let InputObjectTypeDefinition {
            description,
            name,
            directives,
            fields,
        } = self;
        write_leading_description(out, place, description.as_ref());
        write_words(out, "input ");
        write_name(out, name);
        write_directives_and_members(out, place, stacks, directives, fields);
    }
}

impl fmt::Display for InputObjectTypeDefinition {
    ghost output = { λ input.
        Some (default_bytes input_object_type_definition_kind
        (input_object_type_definition_tree input)) };

    fn fmt<W: fmt::Write>(&self, f: &mut fmt::Formatter<W>) -> fmt::Result {
        self.serialize().fmt(f)
    }
}

impl InputObjectTypeExtension {
    /// The extension in the default layout, for `print_to`, `to_text` or another layout.
    pub fn serialize(&self) -> Serialize<'_, InputObjectTypeExtension>
        ensures { IsDefaultPrint self.now result }
    {
        Serialize::new(self)
    }

    /// That it adds nothing, or the first flaw of its directives, or else of its fields.
    #[tactic(auto, using(graphql_text::proofs::kinds::FlawsTold::flaw_steps))]
    pub fn find_ill_formed(&self) -> Option<IllFormed<'_>>
        ensures { IsFirstFlaw
            (input_object_type_extension_kind.flaws
            (input_object_type_extension_tree self.now)) result }
    {
        let adds = self.adds_something();
        let found = ill_formed_unless(adds, SideCondition::AddsSomething, Some(&self.name));
        if found.is_some() {
            return found;
        }
        let found = find_ill_formed_directive(&self.directives, Constness::Const);
        if found.is_some() {
            return found;
        }
        find_ill_formed_part(&self.fields)
    }

    fn adds_something(&self) -> bool
        ensures { result ≡ braced_type_adds input_value_definition_kind
            (input_object_type_extension_tree self.now) }
    {
        !self.directives.is_empty() || !self.fields.is_empty()
    }

    /// Whether it adds something, and the directives and the fields are well formed, each in a const context.
    pub fn is_well_formed(&self) -> bool
        ensures { result
            ≡ input_object_type_extension_kind.obeys (input_object_type_extension_tree self.now) }
    {
        (!self.directives.is_empty() || !self.fields.is_empty())
            && are_directives_well_formed(&self.directives, Constness::Const)
            && are_parts_well_formed(&self.fields)
    }
}

impl SyntaxTree for InputObjectTypeExtension {
    ghost kind = { input_object_type_extension_kind };

    ghost tree = { input_object_type_extension_tree };

    ghost laws = { input_object_type_extension_laws };

    ghost list_depth = { λ input. arguments_list_depth input.members };

    fn find_ill_formed(&self) -> Option<IllFormed<'_>> {
        InputObjectTypeExtension::find_ill_formed(self)
    }

    fn is_well_formed(&self) -> bool {
        InputObjectTypeExtension::is_well_formed(self)
    }

    fn find_depths(&self) -> Option<Depths> {
        let directives = self.directives.find_depths()?;
        Some(directives.max(find_parts_depths(&self.fields)?))
    }
}

impl Syntax for InputObjectTypeExtension {
    fn write<O: Target>(&self, out: &mut O, start: &Start<'_>) -> Result<(), AllocError> {
        write_whole(self, out, start)
    }
}

impl<'t> Written<'t, Stacks<'t>> for InputObjectTypeExtension {
    fn reserve(&'t self, depths: Depths) -> Result<Stacks<'t>, AllocError> {
        Stacks::reserve(self.directives.allocator(), depths)
    }

    fn write_at<O: Target>(&'t self, out: &mut O, place: &Place<'_>, stacks: &mut Stacks<'t>) {
        let InputObjectTypeExtension {
            name,
            directives,
            fields,
        } = self;
        write_words(out, "extend input ");
        write_name(out, name);
        write_directives_and_members(out, place, stacks, directives, fields);
    }
}

impl fmt::Display for InputObjectTypeExtension {
    ghost output = { λ input.
        Some (default_bytes input_object_type_extension_kind
        (input_object_type_extension_tree input)) };

    fn fmt<W: fmt::Write>(&self, f: &mut fmt::Formatter<W>) -> fmt::Result {
        self.serialize().fmt(f)
    }
}
