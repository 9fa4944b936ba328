//! The flaws of definitions and documents.
ghost use Rattle.std.specs.Prelude.{OnOk};
ghost use Rattle.std.specs.List.{flat_map};
ghost use Rattle.graphql_ast.specs.AstTrees.{definition_tree, definition_trees};
ghost use Rattle.graphql_ast.specs.Definitions.{definition_kind};
ghost use Rattle.graphql_flaws.specs.FoundFlaws.{Finds};

use crate::find_flaws::FindFlaws;
use crate::found_flaw::PathStep::{Item, Member};
use crate::search::FlawSearch;
use graphql_ast::ast::{Definition, Document};
use graphql_ast::ill_formed::SideCondition::HasDefinition;
use std::alloc::AllocError;

/// Finds the flaws of what a definition is a node of.
fn push_definition<'a>(
    search: &mut FlawSearch<'a>,
    definition: &'a Definition,
) -> Result<(), AllocError>
    ensures { OnOk result (Finds
        (definition_kind.flaws (definition_tree definition.now)) search.old search.new) }
{
    match definition {
        Definition::OperationDefinition(node) => node.push_flaws(search),
        Definition::FragmentDefinition(node) => node.push_flaws(search),
        Definition::DirectiveDefinition(node) => node.push_flaws(search),
        Definition::SchemaDefinition(node) => node.push_flaws(search),
        Definition::ScalarTypeDefinition(node) => node.push_flaws(search),
        Definition::ObjectTypeDefinition(node) => node.push_flaws(search),
        Definition::InterfaceTypeDefinition(node) => node.push_flaws(search),
        Definition::UnionTypeDefinition(node) => node.push_flaws(search),
        Definition::EnumTypeDefinition(node) => node.push_flaws(search),
        Definition::InputObjectTypeDefinition(node) => node.push_flaws(search),
        Definition::SchemaExtension(node) => node.push_flaws(search),
        Definition::ScalarTypeExtension(node) => node.push_flaws(search),
        Definition::ObjectTypeExtension(node) => node.push_flaws(search),
        Definition::InterfaceTypeExtension(node) => node.push_flaws(search),
        Definition::UnionTypeExtension(node) => node.push_flaws(search),
        Definition::EnumTypeExtension(node) => node.push_flaws(search),
        Definition::InputObjectTypeExtension(node) => node.push_flaws(search),
    }
}

/// Finds the flaws of the definitions of a document.
fn push_definitions<'a>(
    search: &mut FlawSearch<'a>,
    definitions: &'a [Definition],
) -> Result<(), AllocError>
    ensures { OnOk result (Finds
        (flat_map definition_kind.flaws (definition_trees definitions.now))
        search.old search.new) }
{
    for index in 0..definitions.len() {
        let definition = &definitions[index];
        let steps = [Member("definitions"), Item(index)];
        let outer = search.enter(&steps, definition.location())?;
        push_definition(search, definition)?;
        search.leave(outer);
    }
    Ok(())
}

impl FindFlaws for Definition {
    fn push_flaws<'a>(&'a self, search: &mut FlawSearch<'a>) -> Result<(), AllocError> {
        let outer = search.enter(&[], self.location())?;
        push_definition(search, self)?;
        search.leave(outer);
        Ok(())
    }
}

impl FindFlaws for Document {
    fn push_flaws<'a>(&'a self, search: &mut FlawSearch<'a>) -> Result<(), AllocError> {
        let has_definition = !self.definitions.is_empty();
        search.push_unless(has_definition, HasDefinition, None, &[])?;
        push_definitions(search, &self.definitions)
    }
}
