//! What is made of the parts of a tree.
ghost use Rattle.std.specs.Prelude.{◌≡◌, IfOk};
ghost use Rattle.graphql_values.specs.trees.DirectiveTrees.{argument_trees, directive_node_trees};
ghost use Rattle.graphql_values.specs.trees.ValueTrees.{value_tree};
ghost use Rattle.graphql_executable.specs.trees.ExecutableTrees.{field_tree, selection_trees};
ghost use Rattle.graphql_rewrite.specs.Outcomes.{outcome};
ghost use Rattle.graphql_rewrite.specs.Rewritings.{Rewriting};

use graphql_ast::Node;
use graphql_ast::ast::{Argument, Directive, Field, Selection, Value};
use std::alloc::{AllocError, Global};

/// What a call returns that makes another value: it, or `None` where the value stays as it is. `AllocError` if an
/// allocation fails.
pub type Rebuilt<T> = Result<Option<T>, AllocError>;

/// What is made of each value, list of arguments, list of directives, field and selection set of a tree.
///
/// Each call is given a part within which all is rewritten already, and returns what takes its place, or `None` where
/// the part stays. `rewriting` says what the calls make, as functions of trees without locations.
///
/// ```
/// impl Rewriter for Tidy {
///     ghost rewriting = { λ _. record unchanged { directives = without_directive (codes "client") } };
///
///     fn directives(&self, alloc: Global, old: &[Node<Directive>]) -> Rebuilt<Vec<Node<Directive>>> {
///         RemoveDirective { name: "client" }.directives(alloc, old)
///     }
///     // `value`, `arguments`, `field` and `selections` return `Ok(None)`: these parts stay
/// }
/// ```
pub trait Rewriter {
    ghost rewriting: { Self → Rewriting };

    /// A value, wherever it stands: of an argument, a default value, an item of a list and a field of an object.
    fn value(&self, alloc: Global, value: &Value) -> Rebuilt<Value>
        ensures { IfOk result (λ made. outcome value_tree (value_tree value.now) made
            ≡ (rewriting self.now).value (value_tree value.now)) };

    /// The arguments of a field or a directive, which may be none.
    fn arguments(&self, alloc: Global, arguments: &[Node<Argument>]) -> Rebuilt<Vec<Node<Argument>>>
        ensures { IfOk result (λ made.
            outcome (λ made. argument_trees made.items) (argument_trees arguments.now) made
            ≡ (rewriting self.now).arguments (argument_trees arguments.now)) };

    /// The directives of a node, which may be none.
    fn directives(
        &self,
        alloc: Global,
        directives: &[Node<Directive>],
    ) -> Rebuilt<Vec<Node<Directive>>>
        ensures { IfOk result (λ made.
            outcome (λ made. directive_node_trees made.items)
            (directive_node_trees directives.now) made
            ≡ (rewriting self.now).directives (directive_node_trees directives.now)) };

    /// A field of a selection set.
    fn field(&self, alloc: Global, field: &Field) -> Rebuilt<Field>
        ensures { IfOk result (λ made. outcome field_tree (field_tree field.now) made
            ≡ (rewriting self.now).field (field_tree field.now)) };

    /// The selections of an operation, a fragment or a field, of which there is one at least.
    fn selections(&self, alloc: Global, selections: &[Selection]) -> Rebuilt<Vec<Selection>>
        ensures { IfOk result (λ made.
            outcome (λ made. selection_trees made.items) (selection_trees selections.now) made
            ≡ (rewriting self.now).selections (selection_trees selections.now)) };
}
