//! The types of operations.
ghost use Rattle.std.specs.Prelude.{◌≡◌, ◌↔◌, IsTrue};
ghost use Rattle.graphql_base.specs.Name.{IsNewName};
ghost use Rattle.graphql_base.specs.StoredTexts.{StaticForm};
ghost use Rattle.graphql_values.specs.trees.LocationTrees.{default_type_name, operation_type_tree};
ghost use Rattle.graphql_values.specs.kinds.OperationTypes.{operation_type_name};
ghost use Rattle.graphql_values.specs.kinds.OperationTypes as tree;

use graphql_base::name;
use graphql_base::name::NamedType;
use std::fmt::{self, Display, Formatter, Write};

/// The type of an operation (`OperationType`, section 2.3).
///
/// ```
/// OperationType::Mutation.name()              // "mutation"
/// OperationType::Mutation.default_type_name() // the name Mutation
/// ```
#[derive(Clone, Copy, PartialEq, Eq, Hash, Debug)]
pub enum OperationType {
    Query,
    Mutation,
    Subscription,
}

impl OperationType {
    /// The word of the grammar: `query`, `mutation` or `subscription`.
    pub fn name(self) -> &'static str
        ensures { result.now ≡ operation_type_name (operation_type_tree self) }
    {
        match self {
            OperationType::Query => "query",
            OperationType::Mutation => "mutation",
            OperationType::Subscription => "subscription",
        }
    }

    /// The name of the type that such operations begin at where no schema definition says otherwise (section 3.3.1):
    /// `Query`, `Mutation` or `Subscription`. It is static and has no location.
    pub fn default_type_name(self) -> NamedType
        ensures { IsNewName (default_type_name (operation_type_tree self)) StaticForm result }
    {
        match self {
            OperationType::Query => name!(Query),
            OperationType::Mutation => name!(Mutation),
            OperationType::Subscription => name!(Subscription),
        }
    }

    /// Whether it is `query`.
    pub fn is_query(self) -> bool
        ensures { IsTrue result ↔ (operation_type_tree self ≡ tree.Query) }
    {
        matches!(self, OperationType::Query)
    }

    /// Whether it is `mutation`.
    pub fn is_mutation(self) -> bool
        ensures { IsTrue result ↔ (operation_type_tree self ≡ tree.Mutation) }
    {
        matches!(self, OperationType::Mutation)
    }

    /// Whether it is `subscription`.
    pub fn is_subscription(self) -> bool
        ensures { IsTrue result ↔ (operation_type_tree self ≡ tree.Subscription) }
    {
        matches!(self, OperationType::Subscription)
    }
}

impl Display for OperationType {
    ghost use Rattle.std.specs.Prelude.{Some};

    ghost output = { λ operation_type.
        Some (operation_type_name (operation_type_tree operation_type)) };

    fn fmt<W: Write>(&self, f: &mut Formatter<W>) -> fmt::Result {
        f.pad(self.name())
    }
}
