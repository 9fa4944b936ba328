//! Definitions of fields are printed.
ghost use Rattle.std.specs.Prelude.{◌≡◌, Some};
ghost use Rattle.graphql_text.specs.code.IllFormed.{IsFirstFlaw};
ghost use Rattle.graphql_text.specs.kinds.Printing.{IsDefaultPrint, default_bytes};
ghost use Rattle.graphql_type_system.specs.kinds.FieldDefinitions.{field_definition_kind, field_definition_list_depth};
ghost use Rattle.graphql_type_system.specs.trees.TypeSystemTrees.{field_definition_tree};
ghost use Rattle.graphql_type_system.specs.lemmas.Kinds.{field_definition_laws};

use crate::field_definition::FieldDefinition;
use graphql_text::engine::{Serialize, Syntax, SyntaxTree};
use graphql_text::ill_formed::IllFormed;
use graphql_text::writers::{
    Depths, Place, Start, Target, Written, are_parts_well_formed, find_ill_formed_part,
    find_parts_depths, write_leading_description, write_name, write_whole, write_words,
};
use graphql_values::writers::{
    Constness, Stacks, are_directives_well_formed, find_directives_nesting,
    find_ill_formed_directive, find_list_depth, some_want_lines, write_parameters, write_type,
};
use std::alloc::AllocError;
use std::fmt;

impl FieldDefinition {
    /// The definition in the default layout, for `print_to`, `to_text` or another layout.
    pub fn serialize(&self) -> Serialize<'_, FieldDefinition>
        ensures { IsDefaultPrint self.now result }
    {
        Serialize::new(self)
    }

    /// The first flaw of its arguments, or else of its directives.
    #[tactic(auto, using(graphql_text::proofs::kinds::FlawsTold::flaw_steps))]
    pub fn find_ill_formed(&self) -> Option<IllFormed<'_>>
        ensures { IsFirstFlaw
            (field_definition_kind.flaws (field_definition_tree self.now)) result }
    {
        let found = find_ill_formed_part(&self.arguments);
        if found.is_some() {
            return found;
        }
        find_ill_formed_directive(&self.directives, Constness::Const)
    }

    /// Whether its arguments are well formed, no variable stands in the arguments of its directives, and no enum value
    /// there is `true`, `false` or `null`.
    pub fn is_well_formed(&self) -> bool
        ensures { result ≡ field_definition_kind.obeys (field_definition_tree self.now) }
    {
        are_parts_well_formed(&self.arguments)
            && are_directives_well_formed(&self.directives, Constness::Const)
    }
}

impl SyntaxTree for FieldDefinition {
    ghost kind = { field_definition_kind };

    ghost tree = { field_definition_tree };

    ghost laws = { field_definition_laws };

    ghost list_depth = { λ field. field_definition_list_depth field.body };

    fn find_ill_formed(&self) -> Option<IllFormed<'_>> {
        FieldDefinition::find_ill_formed(self)
    }

    fn is_well_formed(&self) -> bool {
        FieldDefinition::is_well_formed(self)
    }

    fn find_depths(&self) -> Option<Depths> {
        let arguments = find_parts_depths(&self.arguments)?;
        Some(arguments.max(Depths {
            nesting: find_directives_nesting(&self.directives)?,
            lists: find_list_depth(&self.ty),
        }))
    }
}

impl Syntax for FieldDefinition {
    fn write<O: Target>(&self, out: &mut O, start: &Start<'_>) -> Result<(), AllocError> {
        write_whole(self, out, start)
    }
}

impl<'t> Written<'t, Stacks<'t>> for FieldDefinition {
    fn reserve(&'t self, depths: Depths) -> Result<Stacks<'t>, AllocError> {
        Stacks::reserve(self.directives.allocator(), depths)
    }

    fn write_at<O: Target>(&'t self, out: &mut O, place: &Place<'_>, stacks: &mut Stacks<'t>) {
        let FieldDefinition {
            description,
            name,
            arguments,
            ty,
            directives,
        } = self;
        write_leading_description(out, place, description.as_ref());
        write_name(out, name);
        write_parameters(out, place, stacks, arguments, some_want_lines(arguments));
        write_words(out, ": ");
        write_type(out, &mut stacks.types, ty);
        directives.write_at(out, place, &mut stacks.values);
    }
}

impl fmt::Display for FieldDefinition {
    ghost output = { λ field.
        Some (default_bytes field_definition_kind (field_definition_tree field)) };

    fn fmt<W: fmt::Write>(&self, f: &mut fmt::Formatter<W>) -> fmt::Result {
        self.serialize().fmt(f)
    }
}
