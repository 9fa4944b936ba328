//! The fragments that are reached from a node.
ghost use Rattle.std.specs.Prelude.{◌≡◌, ◌≤◌, ◌++◌, ◌∷◌, [], IfOk, cond, filter, length, take};
ghost use Rattle.std.specs.List.{list_any};
ghost use Rattle.graphql_text.specs.trees.Leaves.{name_tree, name_trees};
ghost use Rattle.graphql_values.specs.code.Queries.{is_named};
ghost use Rattle.graphql_ast.specs.AstTrees.{definition_tree, definition_trees, document_tree};
ghost use Rattle.graphql_visit.specs.Visits.{nodes_of, one};
ghost use Rattle.graphql_operations.specs.Fragments.{fragments_reached, further, is_fragment_of, is_one_of, reached_from, spreads_of, spreads_within};
ghost use Rattle.graphql_operations.specs.Names.{AreSame, Begins};

use crate::spreads::fragment_spreads;
use graphql_ast::Name;
use graphql_ast::ast::{Definition, Document};
use graphql_visit::Walked;
use std::alloc::{AllocError, Global};

fn has_text(names: &[Name], text: &str) -> bool
    ensures { result ≡ list_any (is_named text.now) names.now }
{
    names.iter().any(|name| name.as_str() == text)
}

fn is_one_of(names: &[Name], name: &Name) -> bool
    ensures { result ≡ is_one_of (name_trees names.now) (name_tree name.now) }
{
    has_text(names, name.as_str())
}

/// Whether it is a fragment of one of these names.
pub(crate) fn is_fragment_of(definition: &Definition, names: &[Name]) -> bool
    ensures { result ≡ is_fragment_of (name_trees names.now) (definition_tree definition.now) }
{
    match definition {
        Definition::FragmentDefinition(node) => is_one_of(names, &node.name),
        _ => false,
    }
}

/// Adds the names that aren't there.
#[tactic(auto, using(crate::proofs::Reached::new_steps))]
fn with_new(names: Vec<Name>, more: Vec<Name>) -> Result<Vec<Name>, AllocError>
    ensures same { IfOk result (λ all. AreSame (name_trees all.items)
        (name_trees names.items ++ name_trees more.items)) }
    ensures begins { IfOk result (λ all. Begins names.items all.items) }
{
    let mut all = names;
    for name in more {
        if !is_one_of(&all, &name) {
            all.push(name)?;
        }
    }
    Ok(all)
}

/// Adds the names that are spread in a definition, if it is a fragment of one of the first names.
fn with_spreads(
    alloc: Global,
    definition: &Definition,
    all: Vec<Name>,
    count: usize,
) -> Result<Vec<Name>, AllocError>
    requires { count ≤ length all.items }
    ensures same { IfOk result (λ more. AreSame (name_trees more.items) (name_trees all.items
        ++ cond (is_fragment_of (name_trees (take count all.items))
        (definition_tree definition.now))
        (spreads_within (definition_tree definition.now)) [])) }
    ensures begins { IfOk result (λ more. Begins all.items more.items) }
{
    if !is_fragment_of(definition, &all[..count]) {
        return Ok(all);
    }
    with_new(all, fragment_spreads(alloc, definition)?)
}

/// The names, and behind them the others that are spread in fragments of these names.
#[tactic(auto, using(crate::proofs::Reached::further_steps))]
fn further(
    alloc: Global,
    definitions: &[Definition],
    names: Vec<Name>,
) -> Result<Vec<Name>, AllocError>
    ensures same { IfOk result (λ all. AreSame (name_trees all.items)
        (further (definition_trees definitions.now) (name_trees names.items))) }
    ensures begins { IfOk result (λ all. Begins names.items all.items) }
{
    let count = names.len();
    let mut all = names;
    for definition in definitions {
        all = with_spreads(alloc, definition, all, count)?;
    }
    Ok(all)
}

/// The names of the fragments that are reached from these.
#[tactic(auto, using(crate::proofs::Reached::reached_steps))]
pub(crate) fn reached_from(
    alloc: Global,
    definitions: &[Definition],
    start: Vec<Name>,
) -> Result<Vec<Name>, AllocError>
    ensures { IfOk result (λ all. AreSame (name_trees all.items)
        (reached_from (definition_trees definitions.now) (name_trees start.items))) }
{
    let mut names = start;
    for _step in 0..definitions.len() {
        let count = names.len();
        names = further(alloc, definitions, names)?;
        if names.len() == count {
            return Ok(names);
        }
    }
    Ok(names)
}

/// Adds a definition.
pub(crate) fn with_definition(
    found: Vec<Definition>,
    definition: &Definition,
) -> Result<Vec<Definition>, AllocError>
    ensures { IfOk result (λ more. more.items ≡ found.items ++ definition.now ∷ []) }
{
    let mut found = found;
    found.push(definition.clone()?)?;
    Ok(found)
}

/// Adds a definition, if it is a fragment of one of these names.
fn with_fragment(
    found: Vec<Definition>,
    definition: &Definition,
    names: &[Name],
) -> Result<Vec<Definition>, AllocError>
    ensures { IfOk result (λ more. more.items ≡ found.items
        ++ cond (is_fragment_of (name_trees names.now) (definition_tree definition.now))
        (definition.now ∷ []) []) }
{
    if is_fragment_of(definition, names) {
        with_definition(found, definition)
    } else {
        Ok(found)
    }
}

/// Adds those of the definitions that are fragments of one of these names.
#[tactic(auto, using(crate::proofs::Reached::kept_steps))]
pub(crate) fn with_fragments(
    found: Vec<Definition>,
    definitions: &[Definition],
    names: &[Name],
) -> Result<Vec<Definition>, AllocError>
    ensures { IfOk result (λ more. definition_trees more.items ≡ definition_trees found.items
        ++ filter (is_fragment_of (name_trees names.now)) (definition_trees definitions.now)) }
{
    let mut all = found;
    for definition in definitions {
        all = with_fragment(all, definition, names)?;
    }
    Ok(all)
}

/// The fragments of a document that are reached from a node: those that are spread in it, those that are spread in these,
/// and so on, in the order of the document. A fragment may reach itself, and a spread of a fragment that isn't there reaches
/// none. `AllocError` if an allocation fails.
///
/// ```
/// fragments_reached(alloc, &document, operation)?
/// ```
#[tactic(auto, using(crate::proofs::Reached::fragments_same))]
pub fn fragments_reached<T: Walked>(
    alloc: Global,
    document: &Document,
    item: &T,
) -> Result<Vec<Definition>, AllocError>
    ensures { IfOk result (λ found. definition_trees found.items
        ≡ fragments_reached (document_tree document.now)
        (nodes_of (one T.visited (T.tree item.now)))) }
{
    let start = fragment_spreads(alloc, item)?;
    let names = reached_from(alloc, &document.definitions, start)?;
    with_fragments(Vec::new(alloc), &document.definitions, &names)
}
