//! Values take the place of variables.
ghost use Rattle.std.specs.Prelude.{◌≡◌, IfOk, List, map, option_copied, option_map};
ghost use Rattle.graphql_base.specs.declared.name.Name.{Name};
ghost use Rattle.graphql_text.specs.lexical.Literals.{NameText};
ghost use Rattle.graphql_text.specs.trees.Leaves.{name_tree};
ghost use Rattle.graphql_values.specs.declared.value.Value.{Value};
ghost use Rattle.graphql_values.specs.kinds.Values.{ValueTree};
ghost use Rattle.graphql_values.specs.trees.ValueTrees.{value_tree};
ghost use Rattle.graphql_rewrite.specs.Outcomes.{outcome};
ghost use Rattle.graphql_rewrite.specs.VariableRewritings.{replacing_variables, value_named};

use crate::rebuild::Rebuild;
use crate::rewriter::{Rebuilt, Rewriter};
use graphql_ast::ast::{Argument, Directive, Field, Selection, Value};
use graphql_ast::{Name, Node};
use std::alloc::Global;

/// The rewriter of `replace_variables`: it puts values in the place of variables.
///
/// ```
/// let values = [(name!(first), value!(in alloc; 10)?)];
/// let replace = ReplaceVariables { values: &values };
/// let made = rebuild_document(alloc, &replace, &document)?; // { items(first: $first) } becomes { items(first: 10) }
/// ```
#[derive(Clone, Copy, Debug)]
pub struct ReplaceVariables<'a> {
    /// The values, each with the name of the variable.
    pub values: &'a [(Name, Value)],
}

/// The first value of that name.
#[tactic(auto, using(crate::proofs::VariablesReplaced::named_steps))]
fn value_of<'a>(values: &'a [(Name, Value)], name: &Name) -> Option<&'a Value>
    ensures { option_map value_tree (option_copied result)
        ≡ value_named (name_tree name.now)
        (map (λ value. (name_tree value.0, value_tree value.1)) values.now) }
{
    for value in values {
        if value.0.as_str() == name.as_str() {
            return Some(&value.1);
        }
    }
    None
}

impl Rewriter for ReplaceVariables<'_> {
    ghost rewriting = { λ variables. replacing_variables
        (map (λ value. (name_tree value.0, value_tree value.1)) variables.values.now) };

    #[tactic(auto, using(crate::proofs::VariablesReplaced::replaced_steps, graphql_values::proofs::comparisons::ValueEquality::clone_tree))]
    fn value(&self, _alloc: Global, value: &Value) -> Rebuilt<Value> {
        match value {
            Value::Variable(name) => match value_of(self.values, name) {
                Some(value) => Ok(Some(value.clone()?)),
                None => Ok(None),
            },
            _ => Ok(None),
        }
    }

    fn arguments(&self, _alloc: Global, _old: &[Node<Argument>]) -> Rebuilt<Vec<Node<Argument>>> {
        Ok(None)
    }

    fn directives(
        &self,
        _alloc: Global,
        _old: &[Node<Directive>],
    ) -> Rebuilt<Vec<Node<Directive>>> {
        Ok(None)
    }

    fn field(&self, _alloc: Global, _field: &Field) -> Rebuilt<Field> {
        Ok(None)
    }

    fn selections(&self, _alloc: Global, _old: &[Selection]) -> Rebuilt<Vec<Selection>> {
        Ok(None)
    }
}

/// Puts the first value of its name in the place of each variable, in a document or within any node, and returns `None`
/// where no variable has a value. Variables without a value stay, and so do definitions of variables. Variables within the
/// values that are put there aren't replaced. `AllocError` if an allocation fails.
///
/// ```
/// let ten = value!(in alloc; 10)?;
/// replace_variables(alloc, &document, &[(name!(n), ten)])? // items(first: $n) becomes items(first: 10)
/// ```
pub fn replace_variables<T: Rebuild>(
    alloc: Global,
    item: &T,
    values: &[(Name, Value)],
) -> Rebuilt<T>
    ensures tree { IfOk result (λ made. outcome T.tree (T.tree item.now) made
        ≡ T.rewritten (replacing_variables
        (map (λ value. (name_tree value.0, value_tree value.1)) values.now))
        (T.tree item.now)) }
    ensures kept { IfOk result (λ made. outcome T.kept (T.kept item.now) made ≡ T.kept item.now) }
{
    item.rebuild(alloc, &ReplaceVariables { values })
}
