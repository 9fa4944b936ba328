//! Two forms of a recursion of one's own, which are proved to end with no more words: selections are made of selections, and
//! share what is cloned; or each is changed in place, by index, through a call that takes `&mut` of it.
use graphql_ast::Node;
use graphql_ast::ast::{Definition, Document, Field, InlineFragment, Selection};
use std::alloc::{AllocError, Global};

/// The selections without their aliases.
#[cycle(making)]
pub fn without_aliases(alloc: Global, old: &[Selection]) -> Result<Vec<Selection>, AllocError> {
    let mut made = Vec::with_capacity(alloc, old.len())?;
    for selection in old {
        made.push(without_alias(alloc, selection)?)?;
    }
    Ok(made)
}

#[cycle(making)]
fn without_alias(alloc: Global, selection: &Selection) -> Result<Selection, AllocError> {
    match selection {
        Selection::Field(node) => {
            let field = Field {
                alias: None,
                selection_set: without_aliases(alloc, &node.selection_set)?,
                ..(**node).clone()?
            };
            Ok(Selection::Field(node.same_location(alloc, field)?))
        }
        Selection::FragmentSpread(_) => selection.clone(),
        Selection::InlineFragment(node) => {
            let fragment = InlineFragment {
                selection_set: without_aliases(alloc, &node.selection_set)?,
                ..(**node).clone()?
            };
            Ok(Selection::InlineFragment(node.same_location(alloc, fragment)?))
        }
    }
}

/// Takes the aliases away.
#[cycle(in_place)]
fn clear_aliases(selections: &mut [Selection]) -> Result<(), AllocError> {
    for index in 0..selections.len() {
        clear_alias(&mut selections[index])?;
    }
    Ok(())
}

#[cycle(in_place)]
fn clear_alias(selection: &mut Selection) -> Result<(), AllocError> {
    match selection {
        Selection::Field(node) => clear_alias_of_field(node),
        Selection::FragmentSpread(_) => Ok(()),
        Selection::InlineFragment(node) => clear_aliases_of_fragment(node),
    }
}

#[cycle(in_place)]
fn clear_alias_of_field(node: &mut Node<Field>) -> Result<(), AllocError> {
    let field = node.make_mut()?;
    field.alias = None;
    clear_aliases(&mut field.selection_set)
}

#[cycle(in_place)]
fn clear_aliases_of_fragment(node: &mut Node<InlineFragment>) -> Result<(), AllocError> {
    let fragment = node.make_mut()?;
    clear_aliases(&mut fragment.selection_set)
}

fn clear_definition(definition: &mut Definition) -> Result<(), AllocError> {
    match definition {
        Definition::OperationDefinition(node) => {
            let operation = node.make_mut()?;
            clear_aliases(&mut operation.selection_set)
        }
        _ => Ok(()),
    }
}

fn clear_definitions(definitions: &mut [Definition]) -> Result<(), AllocError> {
    for index in 0..definitions.len() {
        clear_definition(&mut definitions[index])?;
    }
    Ok(())
}

/// Takes the aliases of operations away.
pub fn clear_document(document: &mut Document) -> Result<(), AllocError> {
    clear_definitions(&mut document.definitions)
}
