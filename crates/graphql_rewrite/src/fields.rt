//! Fields get another name, and selection sets one field more.
ghost use Rattle.std.specs.Prelude.{◌≡◌, ◌↔◌, Bool, IfOk, IsTrue};
ghost use Rattle.graphql_text.specs.trees.Leaves.{name_tree};
ghost use Rattle.graphql_executable.specs.trees.ExecutableTrees.{selection_tree, selection_trees};
ghost use Rattle.graphql_rewrite.specs.FieldRewritings.{adding_field, has_response, renaming_fields, responds_as};
ghost use Rattle.graphql_rewrite.specs.Outcomes.{outcome};

use crate::rebuild::Rebuild;
use crate::rewriter::{Rebuilt, Rewriter};
use crate::shared_lists::begin;
use graphql_ast::ast::{Argument, Directive, Field, Selection, Value};
use graphql_ast::{Name, Node};
use std::alloc::Global;

/// The rewriter of `rename_fields`: it gives each field of one name another name.
///
/// ```
/// let rename = RenameFields { from: "user", to: &name!(account) };
/// let made = rebuild_document(alloc, &rename, &document)?; // { user { id } } becomes { account { id } }
/// ```
#[derive(Clone, Copy, Debug)]
pub struct RenameFields<'a> {
    /// The name that fields have.
    pub from: &'a str,
    /// The name that they get.
    pub to: &'a Name,
}

impl Rewriter for RenameFields<'_> {
    ghost rewriting = { λ fields. renaming_fields fields.from.now (name_tree fields.to.now) };

    fn value(&self, _alloc: Global, _value: &Value) -> Rebuilt<Value> {
        Ok(None)
    }

    fn arguments(&self, _alloc: Global, _old: &[Node<Argument>]) -> Rebuilt<Vec<Node<Argument>>> {
        Ok(None)
    }

    fn directives(
        &self,
        _alloc: Global,
        _old: &[Node<Directive>],
    ) -> Rebuilt<Vec<Node<Directive>>> {
        Ok(None)
    }

    #[tactic(auto, using(graphql_executable::proofs::layout::SelectionShapes::field_is))]
    fn field(&self, _alloc: Global, field: &Field) -> Rebuilt<Field> {
        if field.name.as_str() != self.from {
            return Ok(None);
        }
        Ok(Some(Field {
            name: self.to.clone()?,
            ..field.clone()?
        }))
    }

    fn selections(&self, _alloc: Global, _old: &[Selection]) -> Rebuilt<Vec<Selection>> {
        Ok(None)
    }
}

/// Gives each field of one name another name, in a document or within any node, and returns `None` where there is none.
/// Aliases stay, and a field without an alias gets none. `AllocError` if an allocation fails.
///
/// ```
/// rename_fields(alloc, &document, "user", &name!(account))? // { user { id } } becomes { account { id } }
/// ```
pub fn rename_fields<T: Rebuild>(alloc: Global, item: &T, from: &str, to: &Name) -> Rebuilt<T>
    ensures tree { IfOk result (λ made. outcome T.tree (T.tree item.now) made
        ≡ T.rewritten (renaming_fields from.now (name_tree to.now)) (T.tree item.now)) }
    ensures kept { IfOk result (λ made. outcome T.kept (T.kept item.now) made ≡ T.kept item.now) }
{
    item.rebuild(alloc, &RenameFields { from, to })
}

/// The rewriter of `add_field_everywhere`: it adds a field to each selection set.
///
/// ```
/// let add = AddField { name: &name!("__typename") };
/// let made = rebuild_document(alloc, &add, &document)?;
/// // { user { id } } becomes { user { id __typename } __typename }
/// ```
#[derive(Clone, Copy, Debug)]
pub struct AddField<'a> {
    /// The name of the field that each set gets.
    pub name: &'a Name,
}

/// Whether it is a field of which the response speaks by that name.
#[tactic(auto, using(crate::proofs::FieldsMade::plain_steps))]
fn responds_as(selection: &Selection, name: &str) -> bool
    ensures { result ≡ responds_as name.now (selection_tree selection.now) }
{
    match selection {
        Selection::Field(field) => field.response_name().as_str() == name,
        _ => false,
    }
}

/// Whether the response speaks of a field of the set by that name.
#[tactic(auto, using(crate::proofs::FieldsMade::has_steps))]
fn has_response(selections: &[Selection], name: &str) -> bool
    ensures { result ≡ has_response name.now (selection_trees selections.now) }
{
    for selection in selections {
        if responds_as(selection, name) {
            return true;
        }
    }
    false
}

impl Rewriter for AddField<'_> {
    ghost rewriting = { λ field. adding_field (name_tree field.name.now) };

    fn value(&self, _alloc: Global, _value: &Value) -> Rebuilt<Value> {
        Ok(None)
    }

    fn arguments(&self, _alloc: Global, _old: &[Node<Argument>]) -> Rebuilt<Vec<Node<Argument>>> {
        Ok(None)
    }

    fn directives(
        &self,
        _alloc: Global,
        _old: &[Node<Directive>],
    ) -> Rebuilt<Vec<Node<Directive>>> {
        Ok(None)
    }

    fn field(&self, _alloc: Global, _field: &Field) -> Rebuilt<Field> {
        Ok(None)
    }

    #[tactic(auto, using(crate::proofs::FieldsMade::added_steps))]
    fn selections(&self, alloc: Global, old: &[Selection]) -> Rebuilt<Vec<Selection>> {
        if has_response(old, self.name.as_str()) {
            return Ok(None);
        }
        let field = Node::new(alloc, Field::new(alloc, self.name.clone()?))?;
        let mut made = begin(alloc, old, old.len(), old.len().saturating_add(1))?;
        made.push(Selection::Field(field))?;
        Ok(Some(made))
    }
}

/// Puts a field of that name, without an alias, arguments, directives and selections, behind the last selection of each
/// selection set, unless the response speaks of one of its fields by that name. It returns `None` where no set gets
/// one. `AllocError` if an allocation fails.
///
/// ```
/// add_field_everywhere(alloc, &document, &name!("__typename"))? // { user { id } } becomes
///                                                             // { user { id __typename } __typename }
/// ```
pub fn add_field_everywhere<T: Rebuild>(alloc: Global, item: &T, name: &Name) -> Rebuilt<T>
    ensures tree { IfOk result (λ made. outcome T.tree (T.tree item.now) made
        ≡ T.rewritten (adding_field (name_tree name.now)) (T.tree item.now)) }
    ensures kept { IfOk result (λ made. outcome T.kept (T.kept item.now) made ≡ T.kept item.now) }
{
    item.rebuild(alloc, &AddField { name })
}
