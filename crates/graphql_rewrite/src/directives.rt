//! Directives of one name are left out.
ghost use Rattle.std.specs.Prelude.{◌≡◌, IfOk};
ghost use Rattle.graphql_values.specs.code.Queries.{has_directive_named};
ghost use Rattle.graphql_rewrite.specs.DirectiveRewritings.{removing_directive};
ghost use Rattle.graphql_rewrite.specs.Outcomes.{outcome};

use crate::rebuild::Rebuild;
use crate::rewriter::{Rebuilt, Rewriter};
use graphql_ast::Node;
use graphql_ast::ast::{Argument, Directive, Field, Selection, Value};
use std::alloc::Global;

/// The rewriter of `remove_directive`: it leaves out each directive of one name.
///
/// ```
/// let remove = RemoveDirective { name: "client" };
/// let made = rebuild_document(alloc, &remove, &document)?; // { user @client { id } } becomes { user { id } }
/// ```
#[derive(Clone, Copy, Debug)]
pub struct RemoveDirective<'a> {
    /// The name of the directives that are left out.
    pub name: &'a str,
}

/// Whether one of the directives has that name.
fn has_directive(directives: &[Node<Directive>], name: &str) -> bool
    ensures { result ≡ has_directive_named name.now directives.now }
{
    directives
        .iter()
        .any(|directive| directive.name.as_str() == name)
}

impl Rewriter for RemoveDirective<'_> {
    ghost rewriting = { λ directive. removing_directive directive.name.now };

    fn value(&self, _alloc: Global, _value: &Value) -> Rebuilt<Value> {
        Ok(None)
    }

    fn arguments(&self, _alloc: Global, _old: &[Node<Argument>]) -> Rebuilt<Vec<Node<Argument>>> {
        Ok(None)
    }

    #[tactic(auto, using(crate::proofs::DirectivesLeft::left_steps))]
    fn directives(&self, alloc: Global, old: &[Node<Directive>]) -> Rebuilt<Vec<Node<Directive>>> {
        if !has_directive(old, self.name) {
            return Ok(None);
        }
        let mut made = Vec::with_capacity(alloc, old.len())?;
        for directive in old {
            if directive.name.as_str() != self.name {
                made.push(directive.clone()?)?;
            }
        }
        Ok(Some(made))
    }

    fn field(&self, _alloc: Global, _field: &Field) -> Rebuilt<Field> {
        Ok(None)
    }

    fn selections(&self, _alloc: Global, _old: &[Selection]) -> Rebuilt<Vec<Selection>> {
        Ok(None)
    }
}

/// Leaves out each directive of that name, in a document or within any node, and returns `None` where there is none. A
/// definition of the directive stays, and so does an extension that adds no more than the directive: it isn't well formed
/// then. `AllocError` if an allocation fails.
///
/// ```
/// remove_directive(alloc, &document, "client")? // { user @client { id } } becomes { user { id } }
/// ```
pub fn remove_directive<T: Rebuild>(alloc: Global, item: &T, name: &str) -> Rebuilt<T>
    ensures tree { IfOk result (λ made. outcome T.tree (T.tree item.now) made
        ≡ T.rewritten (removing_directive name.now) (T.tree item.now)) }
    ensures kept { IfOk result (λ made. outcome T.kept (T.kept item.now) made ≡ T.kept item.now) }
{
    item.rebuild(alloc, &RemoveDirective { name })
}
