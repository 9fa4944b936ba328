//! Definitions of directives are printed.
ghost use Rattle.std.specs.Prelude.{◌≡◌, Some, map};
ghost use Rattle.graphql_text.specs.code.IllFormed.{IsFirstFlaw};
ghost use Rattle.graphql_text.specs.kinds.Printing.{IsDefaultPrint, default_bytes};
ghost use Rattle.graphql_text.specs.code.Writing.{WritesAnywhere};
ghost use Rattle.graphql_values.specs.kinds.ArgumentsDefinitions.{arguments_list_depth};
ghost use Rattle.graphql_values.specs.trees.DefinitionTrees.{directive_definition_tree};
ghost use Rattle.graphql_values.specs.kinds.DirectiveDefinitions.{directive_definition_kind, directive_locations_shape, repeatable_shape};
ghost use Rattle.graphql_values.specs.trees.LocationTrees.{location_tree};
ghost use Rattle.graphql_values.specs.lemmas.DirectiveDefinitions.{directive_definition_laws};

use crate::directive_definition::DirectiveDefinition;
use crate::directive_location::DirectiveLocation;
use crate::input_value_definition::print::some_want_lines;
use crate::parameters::write_parameters;
use crate::stacks::Stacks;
use graphql_text::engine::{Serialize, Syntax, SyntaxTree};
use graphql_text::ill_formed::{IllFormed, SideCondition};
use graphql_text::writers::{
    Depths, Place, Start, Target, Written, are_parts_well_formed, find_ill_formed_part,
    find_parts_depths, ill_formed_unless, write_leading_description, write_name, write_whole,
    write_words,
};
use std::alloc::AllocError;
use std::fmt;

/// Writes `repeatable`, where a definition says so.
fn write_repeatable<O: Target>(out: &mut O, is_repeatable: bool)
    ensures { WritesAnywhere O.wrote out.old out.new (repeatable_shape is_repeatable) }
{
    if is_repeatable {
        write_words(out, " repeatable");
    }
}

/// Writes `on` and the locations, with `|` between them; nothing where there are none.
fn write_locations<O: Target>(out: &mut O, locations: &[DirectiveLocation])
    ensures { WritesAnywhere O.wrote out.old out.new
        (directive_locations_shape (map location_tree locations.now)) }
{
    let Some((first, rest)) = locations.split_first() else {
        return;
    };
    write_words(out, " on ");
    write_words(out, first.name());
    for location in rest {
        if out.is_stopped() {
            return;
        }
        write_words(out, " | ");
        write_words(out, location.name());
    }
}

impl DirectiveDefinition {
    /// The definition in the default layout, for `print_to`, `to_text` or another layout.
    pub fn serialize(&self) -> Serialize<'_, DirectiveDefinition>
        ensures { IsDefaultPrint self.now result }
    {
        Serialize::new(self)
    }

    /// The first argument that isn't well formed, or else that there is no location.
    #[tactic(auto, using(graphql_text::proofs::kinds::FlawsTold::flaw_steps))]
    pub fn find_ill_formed(&self) -> Option<IllFormed<'_>>
        ensures { IsFirstFlaw
            (directive_definition_kind.flaws (directive_definition_tree self.now)) result }
    {
        let found = find_ill_formed_part(&self.arguments);
        if found.is_some() {
            return found;
        }
        let has_location = !self.locations.is_empty();
        ill_formed_unless(has_location, SideCondition::HasLocation, Some(&self.name))
    }

    /// Whether there is a location, and each argument is well formed.
    pub fn is_well_formed(&self) -> bool
        ensures { result ≡ directive_definition_kind.obeys (directive_definition_tree self.now) }
    {
        !self.locations.is_empty() && are_parts_well_formed(&self.arguments)
    }
}

impl SyntaxTree for DirectiveDefinition {
    ghost kind = { directive_definition_kind };

    ghost tree = { directive_definition_tree };

    ghost laws = { directive_definition_laws };

    ghost list_depth = { λ definition. arguments_list_depth definition.body.arguments };

    fn find_ill_formed(&self) -> Option<IllFormed<'_>> {
        DirectiveDefinition::find_ill_formed(self)
    }

    fn is_well_formed(&self) -> bool {
        DirectiveDefinition::is_well_formed(self)
    }

    fn find_depths(&self) -> Option<Depths> {
        find_parts_depths(&self.arguments)
    }
}

impl Syntax for DirectiveDefinition {
    fn write<O: Target>(&self, out: &mut O, start: &Start<'_>) -> Result<(), AllocError> {
        write_whole(self, out, start)
    }
}

impl<'t> Written<'t, Stacks<'t>> for DirectiveDefinition {
    fn reserve(&'t self, depths: Depths) -> Result<Stacks<'t>, AllocError> {
        Stacks::reserve(*self.arguments.allocator(), depths)
    }

    fn write_at<O: Target>(&'t self, out: &mut O, place: &Place<'_>, stacks: &mut Stacks<'t>) {
        let DirectiveDefinition {
            description,
            name,
            arguments,
            repeatable,
            locations,
        } = self;
        write_leading_description(out, place, description.as_ref());
        write_words(out, "directive @");
        write_name(out, name);
        write_parameters(out, place, stacks, arguments, some_want_lines(arguments));
        write_repeatable(out, *repeatable);
        write_locations(out, locations);
    }
}

impl fmt::Display for DirectiveDefinition {
    ghost output = { λ definition.
        Some (default_bytes directive_definition_kind (directive_definition_tree definition)) };

    fn fmt<W: fmt::Write>(&self, f: &mut fmt::Formatter<W>) -> fmt::Result {
        self.serialize().fmt(f)
    }
}
