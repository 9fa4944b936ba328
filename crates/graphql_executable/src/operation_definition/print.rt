//! Operations are printed.
ghost use Rattle.std.specs.Prelude.{◌≡◌, ◌&&◌, Some, option_copied};
ghost use Rattle.std.specs.Option.{option_map};
ghost use Rattle.graphql_text.specs.code.IllFormed.{IsFirstFlaw};
ghost use Rattle.graphql_text.specs.layout.Layout.{is_front};
ghost use Rattle.graphql_text.specs.trees.Leaves.{name_tree};
ghost use Rattle.graphql_text.specs.parts.Optional.{optional_shape};
ghost use Rattle.graphql_text.specs.code.Place.{breaks, mode_of};
ghost use Rattle.graphql_text.specs.kinds.Printing.{IsDefaultPrint, default_bytes};
ghost use Rattle.graphql_text.specs.code.Writing.{Writes, WritesAnywhere};
ghost use Rattle.graphql_executable.specs.code.ExecutableStacks.{AreAllKept, CanWriteExecutable};
ghost use Rattle.graphql_executable.specs.trees.ExecutableTrees.{operation_definition_tree};
ghost use Rattle.graphql_executable.specs.kinds.OperationDefinitions.{is_bare_query, operation_definition_kind, operation_name_shape};
ghost use Rattle.graphql_executable.specs.kinds.VariableDefinitions.{variables_list_depth};
ghost use Rattle.graphql_executable.specs.lemmas.Definitions.{operation_definition_laws};

use crate::operation_definition::OperationDefinition;
use crate::optional_parts::write_optional_directives;
use crate::selection::print::{
    find_ill_formed_set, find_selection_set_nesting, is_selection_set_well_formed,
    write_selection_set,
};
use crate::stacks::ExecutableStacks;
use crate::variable_definition::print::some_variables_want_lines;
use graphql_base::name::Name;
use graphql_text::engine::{Serialize, Syntax, SyntaxTree};
use graphql_text::ill_formed::IllFormed;
use graphql_text::writers::{
    Depths, Place, Start, Target, Written, are_parts_well_formed, find_ill_formed_part,
    find_parts_depths, write_first_indent, write_leading_description, write_name, write_words,
};
use graphql_values::operation_type::OperationType;
use graphql_values::writers::{
    Constness, are_directives_well_formed, find_directives_nesting, find_ill_formed_directive,
    write_parameters,
};
use std::alloc::AllocError;
use std::fmt;

/// Whether it is a query that has nothing but a selection set, which the query shorthand stands for.
fn is_bare_query(operation: &OperationDefinition) -> bool
    ensures { result ≡ is_bare_query (operation_definition_tree operation.now) }
{
    operation.description.is_none()
        && matches!(operation.operation_type, OperationType::Query)
        && operation.name.is_none()
        && operation.variables.is_empty()
        && operation.directives.is_empty()
}

/// Whether nothing is written before what begins a print: there is no prefix, or the level is 0.
fn is_front(place: &Place<'_>) -> bool
    ensures { result ≡ is_front (mode_of place.now.prefix) place.now.level }
{
    match place.prefix {
        Some(_) => place.level == 0,
        None => true,
    }
}

/// Whether an operation that a print begins with stands in shorthand.
fn is_in_shorthand(place: &Place<'_>, operation: &OperationDefinition) -> bool
    ensures { result ≡ (is_front (mode_of place.now.prefix) place.now.level
        && is_bare_query (operation_definition_tree operation.now)) }
{
    is_front(place) && is_bare_query(operation)
}

/// Writes a space and the name of an operation; nothing where it is anonymous.
fn write_operation_name<O: Target>(out: &mut O, name: Option<&Name>)
    ensures { WritesAnywhere O.wrote out.old out.new
        (optional_shape operation_name_shape (option_map name_tree (option_copied name.entry))) }
{
    if let Some(name) = name {
        write_words(out, " ");
        write_name(out, name);
    }
}

/// Writes an operation that a print begins with: in shorthand, where it is a query that has nothing but a selection
/// set and nothing is written before it.
pub fn write_first_operation_definition<'t, O: Target>(
    out: &mut O,
    place: &Place<'_>,
    stacks: &mut ExecutableStacks<'t>,
    operation: &'t OperationDefinition,
)
    requires { CanWriteExecutable place.now stacks.old
        (operation_definition_kind.nesting (operation_definition_tree operation.now))
        (variables_list_depth (operation_definition_tree operation.now).body.variables) }
    ensures kept { AreAllKept stacks.old stacks.new }
    ensures written { Writes O.wrote out.old out.new place.now
        (operation_definition_kind.shape (breaks place.now)
        (is_front (mode_of place.now.prefix) place.now.level)
        (operation_definition_tree operation.now)) }
{
    if is_in_shorthand(place, operation) {
        write_selection_set(out, place, stacks, &operation.selection_set);
    } else {
        operation.write_at(out, place, stacks);
    }
}

impl OperationDefinition {
    /// The operation in the default layout, for `print_to`, `to_text` or another layout.
    pub fn serialize(&self) -> Serialize<'_, OperationDefinition>
        ensures { IsDefaultPrint self.now result }
    {
        Serialize::new(self)
    }

    /// The first flaw of its variables, or else of its directives, or else that it has no selection, or the first flaw
    /// of its selections.
    #[tactic(auto, using(graphql_text::proofs::kinds::FlawsTold::flaw_steps))]
    pub fn find_ill_formed(&self) -> Option<IllFormed<'_>>
        ensures { IsFirstFlaw
            (operation_definition_kind.flaws (operation_definition_tree self.now)) result }
    {
        let found = find_ill_formed_part(&self.variables);
        if found.is_some() {
            return found;
        }
        let found = find_ill_formed_directive(&self.directives, Constness::NonConst);
        if found.is_some() {
            return found;
        }
        find_ill_formed_set(self.name.as_ref(), &self.selection_set)
    }

    /// Whether it has a selection, no variable stands in the default value or the directives of one, and its variables,
    /// directives and selections are well formed.
    pub fn is_well_formed(&self) -> bool
        ensures { result ≡ operation_definition_kind.obeys (operation_definition_tree self.now) }
    {
        are_parts_well_formed(&self.variables)
            && are_directives_well_formed(&self.directives, Constness::NonConst)
            && is_selection_set_well_formed(&self.selection_set)
    }
}

impl SyntaxTree for OperationDefinition {
    ghost kind = { operation_definition_kind };

    ghost tree = { operation_definition_tree };

    ghost laws = { operation_definition_laws };

    ghost list_depth = { λ operation. variables_list_depth operation.body.variables };

    fn find_ill_formed(&self) -> Option<IllFormed<'_>> {
        OperationDefinition::find_ill_formed(self)
    }

    fn is_well_formed(&self) -> bool {
        OperationDefinition::is_well_formed(self)
    }

    fn find_depths(&self) -> Option<Depths> {
        let variables = find_parts_depths(&self.variables)?;
        let directives = find_directives_nesting(&self.directives)?;
        let selections = find_selection_set_nesting(&self.selection_set)?;
        Some(variables.max(Depths::without_types(directives.max(selections))))
    }
}

impl Syntax for OperationDefinition {
    fn write<O: Target>(&self, out: &mut O, start: &Start<'_>) -> Result<(), AllocError> {
        let mut stacks = self.reserve(start.depths)?;
        write_first_indent(out, &start.place);
        write_first_operation_definition(out, &start.place, &mut stacks, self);
        Ok(())
    }
}

impl<'t> Written<'t, ExecutableStacks<'t>> for OperationDefinition {
    fn reserve(&'t self, depths: Depths) -> Result<ExecutableStacks<'t>, AllocError> {
        ExecutableStacks::reserve(self.directives.allocator(), depths)
    }

    /// Not in shorthand, since something stands before it.
    fn write_at<O: Target>(
        &'t self,
        out: &mut O,
        place: &Place<'_>,
        stacks: &mut ExecutableStacks<'t>,
    ) {
        let OperationDefinition {
            description,
            operation_type,
            name,
            variables,
            directives,
            selection_set,
        } = self;
        write_leading_description(out, place, description.as_ref());
        write_words(out, operation_type.name());
        write_operation_name(out, name.as_ref());
        write_parameters(
            out,
            place,
            &mut stacks.definitions,
            variables,
            some_variables_want_lines(variables),
        );
        write_optional_directives(out, place, &mut stacks.definitions.values, directives);
        write_words(out, " ");
        write_selection_set(out, place, stacks, selection_set);
    }
}

impl fmt::Display for OperationDefinition {
    ghost output = { λ operation.
        Some (default_bytes operation_definition_kind (operation_definition_tree operation)) };

    fn fmt<W: fmt::Write>(&self, f: &mut fmt::Formatter<W>) -> fmt::Result {
        self.serialize().fmt(f)
    }
}
