//! Documents are printed: the writer of definitions in a row, and the `Syntax` of a document.
ghost use Rattle.std.specs.Prelude.{◌≡◌, ◌≤◌, if◌then◌else◌, IfOk, IsOk, Some};
ghost use Rattle.std.specs.List.{flat_map, list_all, list_any, position};
ghost use Rattle.graphql_text.specs.code.IllFormed.{IsFirstFlaw};
ghost use Rattle.graphql_text.specs.parts.Greatest.{greatest};
ghost use Rattle.graphql_text.specs.layout.Layout.{is_front};
ghost use Rattle.graphql_text.specs.layout.Levels.{AreDepths, Fits, HasDepths};
ghost use Rattle.graphql_text.specs.code.Place.{breaks, mode_of};
ghost use Rattle.graphql_text.specs.kinds.Printing.{IsDefaultPrint, default_bytes};
ghost use Rattle.graphql_text.specs.code.Writing.{Writes};
ghost use Rattle.graphql_text.specs.declared.place.Place.{Place};
ghost use Rattle.graphql_ast.specs.AstStacks.{CanWriteAst, definition_list_depth, has_selections, selection_depth};
ghost use Rattle.graphql_ast.specs.DocumentQueries.{is_ill_formed};
ghost use Rattle.graphql_ast.specs.AstTrees.{definition_trees, document_tree};
ghost use Rattle.graphql_ast.specs.Definitions.{definition_kind};
ghost use Rattle.graphql_ast.specs.Documents.{document_kind, document_shape};
ghost use Rattle.graphql_ast.specs.lemmas.Documents.{document_laws};

use crate::definition::Definition;
use crate::definition::print::{has_selections, write_definition, write_first_definition};
use crate::document::Document;
use graphql_executable::writers::ExecutableStacks;
use graphql_text::engine::{Serialize, Syntax, SyntaxTree};
use graphql_text::ill_formed::{IllFormed, SideCondition};
use graphql_text::writers::{
    Depths, Place, Stack, Start, Target, ill_formed_unless, write_blank, write_finish,
    write_first_indent,
};
use graphql_values::writers::Stacks;
use std::alloc::{AllocError, Global};
use std::fmt;

/// Whether each definition is well formed.
fn are_definitions_well_formed(definitions: &[Definition]) -> bool
    ensures { result ≡ list_all definition_kind.obeys (definition_trees definitions.now) }
{
    for definition in definitions {
        if !definition.is_well_formed() {
            return false;
        }
    }
    true
}

/// Where definitions aren't well formed: the first of their flaws.
fn find_ill_formed_definition(definitions: &[Definition]) -> Option<IllFormed<'_>>
    ensures { IsFirstFlaw
        (flat_map definition_kind.flaws (definition_trees definitions.now)) result }
{
    for definition in definitions {
        if let Some(found) = definition.find_ill_formed() {
            return Some(found);
        }
    }
    None
}

/// The depths of definitions: of each the greatest. `None` if the nesting depth is above `usize::MAX`.
fn find_definitions_depths(definitions: &[Definition]) -> Option<Depths>
    ensures { AreDepths result
        (greatest definition_kind.nesting (definition_trees definitions.now))
        (greatest definition_list_depth (definition_trees definitions.now)) }
{
    let mut most = Depths::without_types(0);
    for definition in definitions {
        most = most.max(definition.find_depths()?);
    }
    Some(most)
}

/// How many selection sets may be open at once while definitions of this nesting depth are written: as many, or 0 where
/// no definition has selections. It is a bound, so that no definition is gone through a second time.
fn selection_room(definitions: &[Definition], nesting: usize) -> usize
    requires { greatest definition_kind.nesting (definition_trees definitions.now) ≡ nesting }
    ensures room { result ≡
        (if list_any (λ tree. has_selections tree.name) (definition_trees definitions.now)
        then nesting else 0) }
    ensures enough { greatest selection_depth (definition_trees definitions.now) ≤ result }
{
    for definition in definitions {
        if has_selections(definition) {
            return nesting;
        }
    }
    0
}

/// Writes definitions in a row, and the end of a document; nothing where there are none.
fn write_definitions<'a, O: Target>(
    out: &mut O,
    place: &Place<'_>,
    stacks: &mut ExecutableStacks<'a>,
    definitions: &'a [Definition],
)
    requires { CanWriteAst place.now stacks.old
        (greatest definition_kind.nesting (definition_trees definitions.now))
        (greatest definition_list_depth (definition_trees definitions.now))
        (greatest selection_depth (definition_trees definitions.now)) }
    ensures { Writes O.wrote out.old out.new place.now
        (document_shape (breaks place.now) (is_front (mode_of place.now.prefix) place.now.level)
        (definition_trees definitions.now)) }
{
    let Some((first, rest)) = definitions.split_first() else {
        return;
    };
    write_first_definition(out, place, stacks, first);
    for definition in rest {
        if out.is_stopped() {
            return;
        }
        write_blank(out, place);
        write_definition(out, place, stacks, definition);
    }
    write_finish(out, place);
}

/// The stacks that definitions of these depths are written with. `AllocError` if an allocation fails.
fn reserve_stacks<'t>(
    alloc: Global,
    definitions: &'t [Definition],
    depths: Depths,
) -> Result<ExecutableStacks<'t>, AllocError>
    requires { HasDepths depths
        (greatest definition_kind.nesting (definition_trees definitions.now))
        (greatest definition_list_depth (definition_trees definitions.now)) }
    ensures ready { IfOk result
        (λ stacks. (place : Place) → Fits place.level depths.nesting →
        CanWriteAst place stacks depths.nesting
        (greatest definition_list_depth (definition_trees definitions.now))
        (greatest selection_depth (definition_trees definitions.now))) }
    ensures free { depths.nesting ≡ 0 →
        greatest definition_list_depth (definition_trees definitions.now) ≡ 0 → IsOk result }
{
    Ok(ExecutableStacks {
        definitions: Stacks::reserve(alloc, depths)?,
        selections: Stack::reserve(Some(alloc), selection_room(definitions, depths.nesting))?,
    })
}

impl Document {
    /// The document in the default layout, for `print_to`, `to_text` or another layout.
    pub fn serialize(&self) -> Serialize<'_, Document>
        ensures { IsDefaultPrint self.now result }
    {
        Serialize::new(self)
    }

    /// That there is no definition, or the first flaw of the definitions, in the order of print.
    #[tactic(auto, using(graphql_text::proofs::kinds::FlawsTold::flaw_steps))]
    pub fn find_ill_formed(&self) -> Option<IllFormed<'_>>
        ensures { IsFirstFlaw (document_kind.flaws (document_tree self.now)) result }
    {
        let has_definition = !self.definitions.is_empty();
        let found = ill_formed_unless(has_definition, SideCondition::HasDefinition, None);
        if found.is_some() {
            return found;
        }
        find_ill_formed_definition(&self.definitions)
    }

    /// The index of the definition that the first flaw is in: the first that isn't well formed. `None` also where there
    /// is no definition.
    pub fn find_ill_formed_index(&self) -> Option<usize>
        ensures { result ≡ position is_ill_formed self.now.definitions.items }
    {
        self.definitions
            .iter()
            .position(|definition| !definition.is_well_formed())
    }

    /// Whether there is a definition, and each is well formed.
    pub fn is_well_formed(&self) -> bool
        ensures { result ≡ document_kind.obeys (document_tree self.now) }
    {
        !self.definitions.is_empty() && are_definitions_well_formed(&self.definitions)
    }
}

impl SyntaxTree for Document {
    ghost kind = { document_kind };

    ghost tree = { document_tree };

    ghost laws = { document_laws };

    ghost list_depth = { greatest definition_list_depth };

    fn find_ill_formed(&self) -> Option<IllFormed<'_>> {
        Document::find_ill_formed(self)
    }

    fn is_well_formed(&self) -> bool {
        Document::is_well_formed(self)
    }

    fn find_depths(&self) -> Option<Depths> {
        find_definitions_depths(&self.definitions)
    }
}

impl Syntax for Document {
    fn write<O: Target>(&self, out: &mut O, start: &Start<'_>) -> Result<(), AllocError> {
        let Document {
            sources: _,
            definitions,
        } = self;
        let alloc = *definitions.allocator();
        let mut stacks = reserve_stacks(alloc, definitions, start.depths)?;
        write_first_indent(out, &start.place);
        write_definitions(out, &start.place, &mut stacks, definitions);
        Ok(())
    }
}

impl fmt::Display for Document {
    ghost output = { λ document. Some (default_bytes document_kind (document_tree document)) };

    fn fmt<W: fmt::Write>(&self, f: &mut fmt::Formatter<W>) -> fmt::Result {
        self.serialize().fmt(f)
    }
}
