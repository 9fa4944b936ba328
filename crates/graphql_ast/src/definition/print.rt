//! Definitions are printed, each as its kind says: alone, or as parts of a document, with stacks that are reserved once for
//! all of them.
ghost use Rattle.std.specs.Prelude.{◌≡◌, Some};
ghost use Rattle.graphql_text.specs.code.IllFormed.{IsFirstFlaw};
ghost use Rattle.graphql_text.specs.code.Place.{breaks, mode_of};
ghost use Rattle.graphql_text.specs.code.Writing.{Writes, WritesPart};
ghost use Rattle.graphql_text.specs.kinds.Printing.{IsDefaultPrint, default_bytes};
ghost use Rattle.graphql_text.specs.layout.Layout.{is_front};
ghost use Rattle.graphql_executable.specs.code.ExecutableStacks.{AreAllKept};
ghost use Rattle.graphql_ast.specs.AstStacks.{CanWriteAst, definition_list_depth, has_selections, selection_depth};
ghost use Rattle.graphql_ast.specs.AstTrees.{definition_tree};
ghost use Rattle.graphql_ast.specs.Definitions.{definition_kind};
ghost use Rattle.graphql_ast.specs.lemmas.Definitions.{definition_laws};

use crate::definition::Definition;
use graphql_executable::writers::{ExecutableStacks, write_first_operation_definition};
use graphql_text::engine::{Serialize, Syntax, SyntaxTree};
use graphql_text::ill_formed::IllFormed;
use graphql_text::writers::{Depths, Place, Start, Target, Written};
use std::alloc::AllocError;
use std::fmt;

/// Whether a definition has selections.
pub(crate) fn has_selections(definition: &Definition) -> bool
    ensures { result ≡ has_selections (definition_tree definition.now).name }
{
    matches!(
        definition,
        Definition::OperationDefinition(_) | Definition::FragmentDefinition(_)
    )
}

/// Writes a definition behind something else, and so not in shorthand.
#[tactic(auto, using(crate::proofs::DefinitionFacts::definition_steps, graphql_text::proofs::code::KeptStacks::kept_unused))]
pub(crate) fn write_definition<'a, O: Target>(
    out: &mut O,
    place: &Place<'_>,
    stacks: &mut ExecutableStacks<'a>,
    definition: &'a Definition,
)
    requires { CanWriteAst place.now stacks.old
        (definition_kind.nesting (definition_tree definition.now))
        (definition_list_depth (definition_tree definition.now))
        (selection_depth (definition_tree definition.now)) }
    ensures kept { AreAllKept stacks.old stacks.new }
    ensures written { WritesPart O.wrote out.old out.new place.now
        definition_kind (definition_tree definition.now) }
{
    match definition {
        Definition::OperationDefinition(operation) => operation.write_at(out, place, stacks),
        Definition::FragmentDefinition(fragment) => fragment.write_at(out, place, stacks),
        Definition::DirectiveDefinition(directive) => {
            directive.write_at(out, place, &mut stacks.definitions);
        }
        Definition::SchemaDefinition(schema) => {
            schema.write_at(out, place, &mut stacks.definitions);
        }
        Definition::ScalarTypeDefinition(scalar) => {
            scalar.write_at(out, place, &mut stacks.definitions);
        }
        Definition::ObjectTypeDefinition(object) => {
            object.write_at(out, place, &mut stacks.definitions);
        }
        Definition::InterfaceTypeDefinition(interface) => {
            interface.write_at(out, place, &mut stacks.definitions);
        }
        Definition::UnionTypeDefinition(union_type) => {
            union_type.write_at(out, place, &mut stacks.definitions);
        }
        Definition::EnumTypeDefinition(enum_type) => {
            enum_type.write_at(out, place, &mut stacks.definitions);
        }
        Definition::InputObjectTypeDefinition(input) => {
            input.write_at(out, place, &mut stacks.definitions);
        }
        Definition::SchemaExtension(schema) => {
            schema.write_at(out, place, &mut stacks.definitions);
        }
        Definition::ScalarTypeExtension(scalar) => {
            scalar.write_at(out, place, &mut stacks.definitions);
        }
        Definition::ObjectTypeExtension(object) => {
            object.write_at(out, place, &mut stacks.definitions);
        }
        Definition::InterfaceTypeExtension(interface) => {
            interface.write_at(out, place, &mut stacks.definitions);
        }
        Definition::UnionTypeExtension(union_type) => {
            union_type.write_at(out, place, &mut stacks.definitions);
        }
        Definition::EnumTypeExtension(enum_type) => {
            enum_type.write_at(out, place, &mut stacks.definitions);
        }
        Definition::InputObjectTypeExtension(input) => {
            input.write_at(out, place, &mut stacks.definitions);
        }
    }
}

/// Writes a definition that a print begins with: an operation may stand in shorthand.
pub(crate) fn write_first_definition<'a, O: Target>(
    out: &mut O,
    place: &Place<'_>,
    stacks: &mut ExecutableStacks<'a>,
    definition: &'a Definition,
)
    requires { CanWriteAst place.now stacks.old
        (definition_kind.nesting (definition_tree definition.now))
        (definition_list_depth (definition_tree definition.now))
        (selection_depth (definition_tree definition.now)) }
    ensures kept { AreAllKept stacks.old stacks.new }
    ensures written { Writes O.wrote out.old out.new place.now
        (definition_kind.shape (breaks place.now)
        (is_front (mode_of place.now.prefix) place.now.level)
        (definition_tree definition.now)) }
{
    match definition {
        Definition::OperationDefinition(operation) => {
            write_first_operation_definition(out, place, stacks, operation);
        }
        _ => write_definition(out, place, stacks, definition),
    }
}

impl Definition {
    /// The definition in the default layout, for `print_to`, `to_text` or another layout.
    pub fn serialize(&self) -> Serialize<'_, Definition>
        ensures { IsDefaultPrint self.now result }
    {
        Serialize::new(self)
    }

    /// The first flaw of the operation, the fragment, the definition or the extension.
    #[tactic(auto, using(crate::proofs::DefinitionFacts::definition_steps))]
    pub fn find_ill_formed(&self) -> Option<IllFormed<'_>>
        ensures { IsFirstFlaw (definition_kind.flaws (definition_tree self.now)) result }
    {
        let found = match self {
            Definition::OperationDefinition(operation) => operation.find_ill_formed(),
            Definition::FragmentDefinition(fragment) => fragment.find_ill_formed(),
            Definition::DirectiveDefinition(directive) => directive.find_ill_formed(),
            Definition::SchemaDefinition(schema) => schema.find_ill_formed(),
            Definition::ScalarTypeDefinition(scalar) => scalar.find_ill_formed(),
            Definition::ObjectTypeDefinition(object) => object.find_ill_formed(),
            Definition::InterfaceTypeDefinition(interface) => interface.find_ill_formed(),
            Definition::UnionTypeDefinition(union_type) => union_type.find_ill_formed(),
            Definition::EnumTypeDefinition(enum_type) => enum_type.find_ill_formed(),
            Definition::InputObjectTypeDefinition(input) => input.find_ill_formed(),
            Definition::SchemaExtension(schema) => schema.find_ill_formed(),
            Definition::ScalarTypeExtension(scalar) => scalar.find_ill_formed(),
            Definition::ObjectTypeExtension(object) => object.find_ill_formed(),
            Definition::InterfaceTypeExtension(interface) => interface.find_ill_formed(),
            Definition::UnionTypeExtension(union_type) => union_type.find_ill_formed(),
            Definition::EnumTypeExtension(enum_type) => enum_type.find_ill_formed(),
            Definition::InputObjectTypeExtension(input) => input.find_ill_formed(),
        };
        Some(found?.within(self.location()))
    }

    /// Whether the operation, the fragment, the definition or the extension is well formed.
    #[tactic(auto, using(crate::proofs::DefinitionFacts::definition_steps))]
    pub fn is_well_formed(&self) -> bool
        ensures { result ≡ definition_kind.obeys (definition_tree self.now) }
    {
        match self {
            Definition::OperationDefinition(operation) => operation.is_well_formed(),
            Definition::FragmentDefinition(fragment) => fragment.is_well_formed(),
            Definition::DirectiveDefinition(directive) => directive.is_well_formed(),
            Definition::SchemaDefinition(schema) => schema.is_well_formed(),
            Definition::ScalarTypeDefinition(scalar) => scalar.is_well_formed(),
            Definition::ObjectTypeDefinition(object) => object.is_well_formed(),
            Definition::InterfaceTypeDefinition(interface) => interface.is_well_formed(),
            Definition::UnionTypeDefinition(union_type) => union_type.is_well_formed(),
            Definition::EnumTypeDefinition(enum_type) => enum_type.is_well_formed(),
            Definition::InputObjectTypeDefinition(input) => input.is_well_formed(),
            Definition::SchemaExtension(schema) => schema.is_well_formed(),
            Definition::ScalarTypeExtension(scalar) => scalar.is_well_formed(),
            Definition::ObjectTypeExtension(object) => object.is_well_formed(),
            Definition::InterfaceTypeExtension(interface) => interface.is_well_formed(),
            Definition::UnionTypeExtension(union_type) => union_type.is_well_formed(),
            Definition::EnumTypeExtension(enum_type) => enum_type.is_well_formed(),
            Definition::InputObjectTypeExtension(input) => input.is_well_formed(),
        }
    }
}

impl SyntaxTree for Definition {
    ghost kind = { definition_kind };

    ghost tree = { definition_tree };

    ghost laws = { definition_laws };

    ghost list_depth = { definition_list_depth };

    fn find_ill_formed(&self) -> Option<IllFormed<'_>> {
        Definition::find_ill_formed(self)
    }

    fn is_well_formed(&self) -> bool {
        Definition::is_well_formed(self)
    }

    #[tactic(auto, using(crate::proofs::DefinitionFacts::definition_steps))]
    fn find_depths(&self) -> Option<Depths> {
        match self {
            Definition::OperationDefinition(operation) => operation.find_depths(),
            Definition::FragmentDefinition(fragment) => fragment.find_depths(),
            Definition::DirectiveDefinition(directive) => directive.find_depths(),
            Definition::SchemaDefinition(schema) => schema.find_depths(),
            Definition::ScalarTypeDefinition(scalar) => scalar.find_depths(),
            Definition::ObjectTypeDefinition(object) => object.find_depths(),
            Definition::InterfaceTypeDefinition(interface) => interface.find_depths(),
            Definition::UnionTypeDefinition(union_type) => union_type.find_depths(),
            Definition::EnumTypeDefinition(enum_type) => enum_type.find_depths(),
            Definition::InputObjectTypeDefinition(input) => input.find_depths(),
            Definition::SchemaExtension(schema) => schema.find_depths(),
            Definition::ScalarTypeExtension(scalar) => scalar.find_depths(),
            Definition::ObjectTypeExtension(object) => object.find_depths(),
            Definition::InterfaceTypeExtension(interface) => interface.find_depths(),
            Definition::UnionTypeExtension(union_type) => union_type.find_depths(),
            Definition::EnumTypeExtension(enum_type) => enum_type.find_depths(),
            Definition::InputObjectTypeExtension(input) => input.find_depths(),
        }
    }
}

impl Syntax for Definition {
    #[tactic(auto, using(crate::proofs::DefinitionFacts::definition_steps))]
    fn write<O: Target>(&self, out: &mut O, start: &Start<'_>) -> Result<(), AllocError> {
        match self {
            Definition::OperationDefinition(operation) => operation.write(out, start),
            Definition::FragmentDefinition(fragment) => fragment.write(out, start),
            Definition::DirectiveDefinition(directive) => directive.write(out, start),
            Definition::SchemaDefinition(schema) => schema.write(out, start),
            Definition::ScalarTypeDefinition(scalar) => scalar.write(out, start),
            Definition::ObjectTypeDefinition(object) => object.write(out, start),
            Definition::InterfaceTypeDefinition(interface) => interface.write(out, start),
            Definition::UnionTypeDefinition(union_type) => union_type.write(out, start),
            Definition::EnumTypeDefinition(enum_type) => enum_type.write(out, start),
            Definition::InputObjectTypeDefinition(input) => input.write(out, start),
            Definition::SchemaExtension(schema) => schema.write(out, start),
            Definition::ScalarTypeExtension(scalar) => scalar.write(out, start),
            Definition::ObjectTypeExtension(object) => object.write(out, start),
            Definition::InterfaceTypeExtension(interface) => interface.write(out, start),
            Definition::UnionTypeExtension(union_type) => union_type.write(out, start),
            Definition::EnumTypeExtension(enum_type) => enum_type.write(out, start),
            Definition::InputObjectTypeExtension(input) => input.write(out, start),
        }
    }
}

impl fmt::Display for Definition {
    ghost output = { λ definition.
        Some (default_bytes definition_kind (definition_tree definition)) };

    fn fmt<W: fmt::Write>(&self, f: &mut fmt::Formatter<W>) -> fmt::Result {
        self.serialize().fmt(f)
    }
}
