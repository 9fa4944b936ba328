//! Definitions of input values are printed.
ghost use Rattle.std.specs.Prelude.{◌≡◌, Some};
ghost use Rattle.std.specs.List.{list_any};
ghost use Rattle.graphql_text.specs.code.IllFormed.{IsFirstFlaw};
ghost use Rattle.graphql_text.specs.kinds.Printing.{IsDefaultPrint, default_bytes};
ghost use Rattle.graphql_values.specs.kinds.ArgumentsDefinitions.{wants_lines};
ghost use Rattle.graphql_values.specs.trees.DefinitionTrees.{input_value_definition_tree, input_value_definition_trees};
ghost use Rattle.graphql_values.specs.kinds.InputValueDefinitions.{input_value_definition_kind};
ghost use Rattle.graphql_values.specs.kinds.TypeReferences.{list_depth};
ghost use Rattle.graphql_values.specs.lemmas.InputValueDefinitions.{input_value_definition_laws};

use crate::constness::Constness;
use crate::default_value::{
    find_default_value_nesting, find_ill_formed_default_value, is_default_value_well_formed,
    write_default_value,
};
use crate::directive_list::print::{
    are_directives_well_formed, find_directives_nesting, find_ill_formed_directive,
};
use crate::input_value_definition::InputValueDefinition;
use crate::stacks::Stacks;
use crate::types::print::{find_list_depth, write_type};
use graphql_base::node::Node;
use graphql_text::engine::{Serialize, Syntax, SyntaxTree};
use graphql_text::ill_formed::IllFormed;
use graphql_text::writers::{
    Depths, Place, Start, Target, Written, write_leading_description, write_name_then, write_whole,
};
use std::alloc::AllocError;
use std::fmt;

/// Whether one of the arguments has a description or a directive, and so wants lines of its own.
#[inline(always)]
pub fn some_want_lines(arguments: &[Node<InputValueDefinition>]) -> bool
    ensures { result ≡ list_any wants_lines (input_value_definition_trees arguments.now) }
{
    for argument in arguments {
        if argument.description.is_some() || !argument.directives.is_empty() {
            return true;
        }
    }
    false
}

impl InputValueDefinition {
    /// The definition in the default layout, for `print_to`, `to_text` or another layout.
    pub fn serialize(&self) -> Serialize<'_, InputValueDefinition>
        ensures { IsDefaultPrint self.now result }
    {
        Serialize::new(self)
    }

    /// The first enum value in the default value and the directives that is `true`, `false` or `null`, or variable in
    /// them: both are constant.
    #[tactic(auto, using(graphql_text::proofs::kinds::FlawsTold::flaw_steps))]
    pub fn find_ill_formed(&self) -> Option<IllFormed<'_>>
        ensures { IsFirstFlaw
            (input_value_definition_kind.flaws (input_value_definition_tree self.now)) result }
    {
        let found = find_ill_formed_default_value(self.default_value.as_ref());
        if found.is_some() {
            return found;
        }
        find_ill_formed_directive(&self.directives, Constness::Const)
    }

    /// Whether no enum value in the default value and the directives is `true`, `false` or `null`, and no variable
    /// stands in them: both are constant.
    pub fn is_well_formed(&self) -> bool
        ensures { result
            ≡ input_value_definition_kind.obeys (input_value_definition_tree self.now) }
    {
        is_default_value_well_formed(self.default_value.as_ref())
            && are_directives_well_formed(&self.directives, Constness::Const)
    }
}

impl SyntaxTree for InputValueDefinition {
    ghost kind = { input_value_definition_kind };

    ghost tree = { input_value_definition_tree };

    ghost laws = { input_value_definition_laws };

    ghost list_depth = { λ input. list_depth input.body.type };

    fn find_ill_formed(&self) -> Option<IllFormed<'_>> {
        InputValueDefinition::find_ill_formed(self)
    }

    fn is_well_formed(&self) -> bool {
        InputValueDefinition::is_well_formed(self)
    }

    fn find_depths(&self) -> Option<Depths> {
        let value = find_default_value_nesting(self.default_value.as_ref())?;
        Some(Depths {
            nesting: value.max(find_directives_nesting(&self.directives)?),
            lists: find_list_depth(&self.ty),
        })
    }
}

impl Syntax for InputValueDefinition {
    fn write<O: Target>(&self, out: &mut O, start: &Start<'_>) -> Result<(), AllocError> {
        write_whole(self, out, start)
    }
}

impl<'t> Written<'t, Stacks<'t>> for InputValueDefinition {
    fn reserve(&'t self, depths: Depths) -> Result<Stacks<'t>, AllocError> {
        Stacks::reserve(self.directives.allocator(), depths)
    }

    fn write_at<O: Target>(&'t self, out: &mut O, place: &Place<'_>, stacks: &mut Stacks<'t>) {
        let InputValueDefinition {
            description,
            name,
            ty,
            default_value,
            directives,
        } = self;
        write_leading_description(out, place, description.as_ref());
        write_name_then(out, name, ": ");
        write_type(out, &mut stacks.types, ty);
        write_default_value(out, place, &mut stacks.values, default_value.as_ref());
        directives.write_at(out, place, &mut stacks.values);
    }
}

impl fmt::Display for InputValueDefinition {
    ghost output = { λ input.
        Some (default_bytes input_value_definition_kind (input_value_definition_tree input)) };

    fn fmt<W: fmt::Write>(&self, f: &mut fmt::Formatter<W>) -> fmt::Result {
        self.serialize().fmt(f)
    }
}
