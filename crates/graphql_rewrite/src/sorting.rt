//! Definitions in order of kind and name.
ghost use Rattle.std.specs.Prelude.{◌≡◌, [], IsPermutation, IsSortedBy, OnErr, OnOk};
ghost use Rattle.std.specs.Cmp.Lexicographic.{slice_cmp};
ghost use Rattle.std.specs.List.Sorted.{IsStableBy};
ghost use Rattle.std.specs.Option.{option_map_or};
ghost use Rattle.std.specs.Ordering.{nat_cmp};
ghost use Rattle.graphql_base.specs.Name.{name_text};
ghost use Rattle.graphql_ast.specs.AstTrees.{definition_tree};
ghost use Rattle.graphql_ast.specs.DefinitionQueries.{definition_name};
ghost use Rattle.graphql_rewrite.specs.DefinitionOrder.{comes_before, kind_rank, sort_key};

use graphql_ast::ast::{Definition, Document};
use std::alloc::AllocError;
use std::cmp::Ordering;

/// The rank of its kind.
fn rank(definition: &Definition) -> u8
    ensures { result ≡ kind_rank (definition_tree definition.now).name }
{
    match definition {
        Definition::OperationDefinition(_) => 0,
        Definition::FragmentDefinition(_) => 1,
        Definition::SchemaDefinition(_) => 2,
        Definition::ScalarTypeDefinition(_) => 3,
        Definition::ObjectTypeDefinition(_) => 4,
        Definition::InterfaceTypeDefinition(_) => 5,
        Definition::UnionTypeDefinition(_) => 6,
        Definition::EnumTypeDefinition(_) => 7,
        Definition::InputObjectTypeDefinition(_) => 8,
        Definition::DirectiveDefinition(_) => 9,
        Definition::SchemaExtension(_) => 10,
        Definition::ScalarTypeExtension(_) => 11,
        Definition::ObjectTypeExtension(_) => 12,
        Definition::InterfaceTypeExtension(_) => 13,
        Definition::UnionTypeExtension(_) => 14,
        Definition::EnumTypeExtension(_) => 15,
        Definition::InputObjectTypeExtension(_) => 16,
    }
}

/// Its name, and no bytes where it has none.
fn name(definition: &Definition) -> &str
    ensures { result.now ≡ option_map_or name_text (definition_name definition.now) [] }
{
    match definition.name() {
        Some(name) => name.as_str(),
        None => "",
    }
}

fn compare(one: &Definition, other: &Definition) -> Ordering
    ensures { result ≡ slice_cmp nat_cmp (sort_key one.now) (sort_key other.now) }
{
    match rank(one).cmp(&rank(other)) {
        Ordering::Equal => name(one).cmp(name(other)),
        unequal => unequal,
    }
}

/// Puts the definitions in order, by kind and within a kind by name: operations, fragments, the schema, types, directives,
/// extensions. Those without a name come first, and those of one kind and name stay in order. `AllocError` if an
/// allocation fails: the document is as it was then.
///
/// ```
/// sort_definitions(&mut document)?;
/// ```
pub fn sort_definitions(document: &mut Document) -> Result<(), AllocError>
    ensures permutation { IsPermutation document.old.definitions.items
        document.new.definitions.items }
    ensures sorted { OnOk result (IsSortedBy comes_before document.new.definitions.items) }
    ensures stable { IsStableBy comes_before document.old.definitions.items
        document.new.definitions.items }
    ensures sources { document.new.sources ≡ document.old.sources }
    ensures err { OnErr result
        (document.new.definitions.items ≡ document.old.definitions.items) }
{
    document
        .definitions
        .sort_by(|one, other| compare(one, other))
}
