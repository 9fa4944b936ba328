//! Operations.
ghost use Rattle.std.specs.Prelude.{◌≡◌, [], None, option_copied};
ghost use Rattle.graphql_executable.specs.code.OperationQueries.{first_variable_definition_named};

pub(crate) mod print;

use crate::selection::Selection;
use crate::variable_definition::VariableDefinition;
use graphql_base::name::Name;
use graphql_base::node::{Node, NodeStr};
use graphql_values::directive_list::DirectiveList;
use graphql_values::operation_type::OperationType;
use std::alloc::Global;

/// An operation (`OperationDefinition`, section 2.3).
///
/// The variables stand in order; of variables with one name each is kept. Equality and hash ignore source locations.
///
/// ```
/// let mut query = OperationDefinition::new(alloc, OperationType::Query);
/// query.name = Some(name!(Me));
/// query.selection_set.push(Selection::field(alloc, Field::new(alloc, name!(id)))?)?;
/// println!(rt; "{}", query.serialize().no_indent())?; // query Me { id }
/// ```
#[derive(Clone, PartialEq, Eq, Hash, Debug, Drop)]
pub struct OperationDefinition {
    /// The string before the operation.
    pub description: Option<NodeStr>,
    /// Whether it is a query, a mutation or a subscription.
    pub operation_type: OperationType,
    /// The name; without one the operation is anonymous.
    pub name: Option<Name>,
    /// What stands in brackets; without variables no brackets are printed.
    pub variables: Vec<Node<VariableDefinition>>,
    /// The directives before the selection set.
    pub directives: DirectiveList,
    /// What is selected. An operation without a selection isn't well formed.
    pub selection_set: Vec<Selection>,
}

impl OperationDefinition {
    /// An anonymous operation without a description, variables, directives and selections. It takes no memory, and
    /// isn't well formed before it has a selection.
    ///
    /// ```
    /// let mut query = OperationDefinition::new(alloc, OperationType::Query);
    /// query.selection_set.push(Selection::field(alloc, Field::new(alloc, name!(id)))?)?; // { id }
    /// ```
    pub fn new(alloc: Global, operation_type: OperationType) -> OperationDefinition
        ensures description { result.description ≡ None }
        ensures operation_type { result.operation_type ≡ operation_type }
        ensures name { result.name ≡ None }
        ensures variables { result.variables.items ≡ [] }
        ensures directives { result.directives.0.items ≡ [] }
        ensures selection_set { result.selection_set.items ≡ [] }
    {
        OperationDefinition {
            description: None,
            operation_type,
            name: None,
            variables: Vec::new(alloc),
            directives: DirectiveList::new(alloc),
            selection_set: Vec::new(alloc),
        }
    }

    /// The first variable of that name, without `$`.
    ///
    /// ```
    /// query.variable_by_name("v") // of query ($v: Int) { id } the definition of v
    /// ```
    pub fn variable_by_name(&self, name: &str) -> Option<&Node<VariableDefinition>>
        ensures { option_copied result
            ≡ first_variable_definition_named name.now self.now.variables.items }
    {
        self.variables
            .iter()
            .find(|node| node.name.as_str() == name)
    }
}
