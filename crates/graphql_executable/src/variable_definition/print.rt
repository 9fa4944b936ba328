//! Variable definitions are printed.
ghost use Rattle.std.specs.Prelude.{◌≡◌, Some};
ghost use Rattle.std.specs.List.{list_any};
ghost use Rattle.graphql_text.specs.code.IllFormed.{IsFirstFlaw};
ghost use Rattle.graphql_text.specs.kinds.Printing.{IsDefaultPrint, default_bytes};
ghost use Rattle.graphql_values.specs.kinds.TypeReferences.{list_depth};
ghost use Rattle.graphql_executable.specs.trees.ExecutableTrees.{variable_definition_tree, variable_definition_trees};
ghost use Rattle.graphql_executable.specs.kinds.VariableDefinitions.{variable_definition_kind, wants_lines};
ghost use Rattle.graphql_executable.specs.lemmas.VariableDefinitions.{variable_definition_laws};

use crate::optional_parts::write_optional_directives;
use crate::variable_definition::VariableDefinition;
use graphql_base::node::Node;
use graphql_text::engine::{Serialize, Syntax, SyntaxTree};
use graphql_text::ill_formed::IllFormed;
use graphql_text::writers::{
    Depths, Place, Start, Target, Written, write_leading_description, write_name_then, write_whole,
    write_words,
};
use graphql_values::writers::{
    Constness, Stacks, are_directives_well_formed, find_default_value_nesting,
    find_directives_nesting, find_ill_formed_default_value, find_ill_formed_directive,
    find_list_depth, is_default_value_well_formed, write_default_value, write_type,
};
use std::alloc::AllocError;
use std::fmt;

/// Whether one of the variables has a description, and so wants lines of its own.
#[inline(always)]
pub(crate) fn some_variables_want_lines(variables: &[Node<VariableDefinition>]) -> bool
    ensures { result ≡ list_any wants_lines (variable_definition_trees variables.now) }
{
    for variable in variables {
        if variable.description.is_some() {
            return true;
        }
    }
    false
}

impl VariableDefinition {
    /// The variable definition in the default layout, for `print_to`, `to_text` or another layout.
    pub fn serialize(&self) -> Serialize<'_, VariableDefinition>
        ensures { IsDefaultPrint self.now result }
    {
        Serialize::new(self)
    }

    /// The first enum value in the default value and the directives that is `true`, `false` or `null`, or variable in
    /// them: both are constant.
    #[tactic(auto, using(graphql_text::proofs::kinds::FlawsTold::flaw_steps))]
    pub fn find_ill_formed(&self) -> Option<IllFormed<'_>>
        ensures { IsFirstFlaw
            (variable_definition_kind.flaws (variable_definition_tree self.now)) result }
    {
        let found = find_ill_formed_default_value(self.default_value.as_ref());
        if found.is_some() {
            return found;
        }
        find_ill_formed_directive(&self.directives, Constness::Const)
    }

    /// Whether no enum value in the default value and the directives is `true`, `false` or `null`, and no variable
    /// stands in them: both are constant.
    pub fn is_well_formed(&self) -> bool
        ensures { result ≡ variable_definition_kind.obeys (variable_definition_tree self.now) }
    {
        is_default_value_well_formed(self.default_value.as_ref())
            && are_directives_well_formed(&self.directives, Constness::Const)
    }
}

impl SyntaxTree for VariableDefinition {
    ghost kind = { variable_definition_kind };

    ghost tree = { variable_definition_tree };

    ghost laws = { variable_definition_laws };

    ghost list_depth = { λ variable. list_depth variable.body.type };

    fn find_ill_formed(&self) -> Option<IllFormed<'_>> {
        VariableDefinition::find_ill_formed(self)
    }

    fn is_well_formed(&self) -> bool {
        VariableDefinition::is_well_formed(self)
    }

    fn find_depths(&self) -> Option<Depths> {
        let value = find_default_value_nesting(self.default_value.as_ref())?;
        Some(Depths {
            nesting: value.max(find_directives_nesting(&self.directives)?),
            lists: find_list_depth(&self.ty),
        })
    }
}

impl Syntax for VariableDefinition {
    fn write<O: Target>(&self, out: &mut O, start: &Start<'_>) -> Result<(), AllocError> {
        write_whole(self, out, start)
    }
}

impl<'t> Written<'t, Stacks<'t>> for VariableDefinition {
    fn reserve(&'t self, depths: Depths) -> Result<Stacks<'t>, AllocError> {
        Stacks::reserve(self.directives.allocator(), depths)
    }

    fn write_at<O: Target>(&'t self, out: &mut O, place: &Place<'_>, stacks: &mut Stacks<'t>) {
        let VariableDefinition {
            description,
            name,
            ty,
            default_value,
            directives,
        } = self;
        write_leading_description(out, place, description.as_ref());
        write_words(out, "$");
        write_name_then(out, name, ": ");
        write_type(out, &mut stacks.types, ty);
        write_default_value(out, place, &mut stacks.values, default_value.as_ref());
        write_optional_directives(out, place, &mut stacks.values, directives);
    }
}

impl fmt::Display for VariableDefinition {
    ghost output = { λ variable.
        Some (default_bytes variable_definition_kind (variable_definition_tree variable)) };

    fn fmt<W: fmt::Write>(&self, f: &mut fmt::Formatter<W>) -> fmt::Result {
        self.serialize().fmt(f)
    }
}
