//! Object types are printed.
ghost use Rattle.std.specs.Prelude.{◌≡◌, Some};
ghost use Rattle.graphql_text.specs.code.IllFormed.{IsFirstFlaw};
ghost use Rattle.graphql_text.specs.kinds.Printing.{IsDefaultPrint, default_bytes};
ghost use Rattle.graphql_type_system.specs.kinds.ImplementingTypes.{fields_list_depth};
ghost use Rattle.graphql_type_system.specs.kinds.ObjectTypes.{object_type_definition_kind, object_type_extension_kind};
ghost use Rattle.graphql_type_system.specs.trees.TypeSystemTrees.{object_type_definition_tree, object_type_extension_tree};
ghost use Rattle.graphql_type_system.specs.lemmas.Kinds.{object_type_definition_laws, object_type_extension_laws};

use crate::joined_names::write_joined_names;
use crate::members::write_directives_and_members;
use crate::object_type::{ObjectTypeDefinition, ObjectTypeExtension};
use graphql_text::engine::{Serialize, Syntax, SyntaxTree};
use graphql_text::ill_formed::{IllFormed, SideCondition};
use graphql_text::writers::{
    Depths, Place, Start, Target, Written, are_parts_well_formed, find_ill_formed_part,
    find_parts_depths, ill_formed_unless, write_leading_description, write_name, write_whole,
    write_words,
};
use graphql_values::writers::{
    Constness, Stacks, are_directives_well_formed, find_ill_formed_directive,
};
use std::alloc::AllocError;
use std::fmt;

impl ObjectTypeDefinition {
    /// The definition in the default layout, for `print_to`, `to_text` or another layout.
    pub fn serialize(&self) -> Serialize<'_, ObjectTypeDefinition>
        ensures { IsDefaultPrint self.now result }
    {
        Serialize::new(self)
    }

    /// The first flaw of its directives, or else of its fields.
    #[tactic(auto, using(graphql_text::proofs::kinds::FlawsTold::flaw_steps))]
    pub fn find_ill_formed(&self) -> Option<IllFormed<'_>>
        ensures { IsFirstFlaw
            (object_type_definition_kind.flaws (object_type_definition_tree self.now)) result }
    {
        let found = find_ill_formed_directive(&self.directives, Constness::Const);
        if found.is_some() {
            return found;
        }
        find_ill_formed_part(&self.fields)
    }

    /// Whether the directives and the fields are well formed, each in a const context.
    pub fn is_well_formed(&self) -> bool
        ensures { result
            ≡ object_type_definition_kind.obeys (object_type_definition_tree self.now) }
    {
        are_directives_well_formed(&self.directives, Constness::Const)
            && are_parts_well_formed(&self.fields)
    }
}

impl SyntaxTree for ObjectTypeDefinition {
    ghost kind = { object_type_definition_kind };

    ghost tree = { object_type_definition_tree };

    ghost laws = { object_type_definition_laws };

    ghost list_depth = { λ object. fields_list_depth object.body.fields };

    fn find_ill_formed(&self) -> Option<IllFormed<'_>> {
        ObjectTypeDefinition::find_ill_formed(self)
    }

    fn is_well_formed(&self) -> bool {
        ObjectTypeDefinition::is_well_formed(self)
    }

    fn find_depths(&self) -> Option<Depths> {
        let directives = self.directives.find_depths()?;
        Some(directives.max(find_parts_depths(&self.fields)?))
    }
}

impl Syntax for ObjectTypeDefinition {
    fn write<O: Target>(&self, out: &mut O, start: &Start<'_>) -> Result<(), AllocError> {
        write_whole(self, out, start)
    }
}

impl<'t> Written<'t, Stacks<'t>> for ObjectTypeDefinition {
    fn reserve(&'t self, depths: Depths) -> Result<Stacks<'t>, AllocError> {
        Stacks::reserve(self.directives.allocator(), depths)
    }

    fn write_at<O: Target>(&'t self, out: &mut O, place: &Place<'_>, stacks: &mut Stacks<'t>) {
        let ObjectTypeDefinition {
            description,
            name,
            implements_interfaces,
            directives,
            fields,
        } = self;
        write_leading_description(out, place, description.as_ref());
        write_words(out, "type ");
        write_name(out, name);
        write_joined_names(out, " implements ", " & ", implements_interfaces);
        write_directives_and_members(out, place, stacks, directives, fields);
    }
}

impl fmt::Display for ObjectTypeDefinition {
    ghost output = { λ object.
        Some (default_bytes object_type_definition_kind (object_type_definition_tree object)) };

    fn fmt<W: fmt::Write>(&self, f: &mut fmt::Formatter<W>) -> fmt::Result {
        self.serialize().fmt(f)
    }
}

impl ObjectTypeExtension {
    /// The extension in the default layout, for `print_to`, `to_text` or another layout.
    pub fn serialize(&self) -> Serialize<'_, ObjectTypeExtension>
        ensures { IsDefaultPrint self.now result }
    {
        Serialize::new(self)
    }

    /// That it adds nothing, or the first flaw of its directives, or else of its fields.
    #[tactic(auto, using(graphql_text::proofs::kinds::FlawsTold::flaw_steps))]
    pub fn find_ill_formed(&self) -> Option<IllFormed<'_>>
        ensures { IsFirstFlaw
            (object_type_extension_kind.flaws (object_type_extension_tree self.now)) result }
    {
        let adds = !self.implements_interfaces.is_empty()
            || !self.directives.is_empty()
            || !self.fields.is_empty();
        let found = ill_formed_unless(adds, SideCondition::AddsSomething, Some(&self.name));
        if found.is_some() {
            return found;
        }
        let found = find_ill_formed_directive(&self.directives, Constness::Const);
        if found.is_some() {
            return found;
        }
        find_ill_formed_part(&self.fields)
    }

    /// Whether it adds something, and the directives and the fields are well formed, each in a const context.
    pub fn is_well_formed(&self) -> bool
        ensures { result ≡ object_type_extension_kind.obeys (object_type_extension_tree self.now) }
    {
        (!self.implements_interfaces.is_empty()
            || !self.directives.is_empty()
            || !self.fields.is_empty())
            && are_directives_well_formed(&self.directives, Constness::Const)
            && are_parts_well_formed(&self.fields)
    }
}

impl SyntaxTree for ObjectTypeExtension {
    ghost kind = { object_type_extension_kind };

    ghost tree = { object_type_extension_tree };

    ghost laws = { object_type_extension_laws };

    ghost list_depth = { λ object. fields_list_depth object.fields };

    fn find_ill_formed(&self) -> Option<IllFormed<'_>> {
        ObjectTypeExtension::find_ill_formed(self)
    }

    fn is_well_formed(&self) -> bool {
        ObjectTypeExtension::is_well_formed(self)
    }

    fn find_depths(&self) -> Option<Depths> {
        let directives = self.directives.find_depths()?;
        Some(directives.max(find_parts_depths(&self.fields)?))
    }
}

impl Syntax for ObjectTypeExtension {
    fn write<O: Target>(&self, out: &mut O, start: &Start<'_>) -> Result<(), AllocError> {
        write_whole(self, out, start)
    }
}

impl<'t> Written<'t, Stacks<'t>> for ObjectTypeExtension {
    fn reserve(&'t self, depths: Depths) -> Result<Stacks<'t>, AllocError> {
        Stacks::reserve(self.directives.allocator(), depths)
    }

    fn write_at<O: Target>(&'t self, out: &mut O, place: &Place<'_>, stacks: &mut Stacks<'t>) {
        let ObjectTypeExtension {
            name,
            implements_interfaces,
            directives,
            fields,
        } = self;
        write_words(out, "extend type ");
        write_name(out, name);
        write_joined_names(out, " implements ", " & ", implements_interfaces);
        write_directives_and_members(out, place, stacks, directives, fields);
    }
}

impl fmt::Display for ObjectTypeExtension {
    ghost output = { λ object.
        Some (default_bytes object_type_extension_kind (object_type_extension_tree object)) };

    fn fmt<W: fmt::Write>(&self, f: &mut fmt::Formatter<W>) -> fmt::Result {
        self.serialize().fmt(f)
    }
}
