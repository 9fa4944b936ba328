//! Schemas: definitions and extensions.
ghost use Rattle.std.specs.Prelude.{◌≡◌, [], None};

pub(crate) mod print;

use graphql_base::name::NamedType;
use graphql_base::node::{Node, NodeStr};
use graphql_values::directive_list::DirectiveList;
use graphql_values::operation_type::OperationType;
use std::alloc::Global;

/// A definition of a schema (`SchemaDefinition`, section 3.3).
///
/// Equality and hash ignore source locations.
///
/// ```
/// let mut schema = SchemaDefinition::new(alloc);
/// schema.root_operations.push(Node::new(alloc, (OperationType::Query, name!(Query)))?)?;
/// println!(rt; "{}", schema.serialize().no_indent())?; // schema { query: Query }
/// ```
#[derive(Clone, PartialEq, Eq, Hash, Debug, Drop)]
pub struct SchemaDefinition {
    /// The string before `schema`.
    pub description: Option<NodeStr>,
    /// The directives behind `schema`. A variable in their arguments isn't well formed.
    pub directives: DirectiveList,
    /// For each type of operations the object type that they begin at, in order. A definition without one isn't well
    /// formed.
    pub root_operations: Vec<Node<(OperationType, NamedType)>>,
}

impl SchemaDefinition {
    /// A schema without a description, directives and root operations. It allocates no memory, and isn't well formed
    /// before it has a root operation.
    ///
    /// ```
    /// SchemaDefinition { root_operations, ..SchemaDefinition::new(alloc) } // schema { .. }
    /// ```
    pub fn new(alloc: Global) -> SchemaDefinition
        ensures description { result.description ≡ None }
        ensures directives { result.directives.0.items ≡ [] }
        ensures root_operations { result.root_operations.items ≡ [] }
    {
        SchemaDefinition {
            description: None,
            directives: DirectiveList::new(alloc),
            root_operations: Vec::new(alloc),
        }
    }
}

/// An extension of a schema (`SchemaExtension`, section 3.3).
///
/// One that adds nothing isn't well formed: it has a directive or a root operation.
///
/// Equality and hash ignore source locations.
///
/// ```
/// let mut schema = SchemaExtension::new(alloc);
/// schema.root_operations.push(Node::new(alloc, (OperationType::Mutation, name!(Mutation)))?)?;
/// println!(rt; "{}", schema.serialize().no_indent())?; // extend schema { mutation: Mutation }
/// ```
#[derive(Clone, PartialEq, Eq, Hash, Debug, Drop)]
pub struct SchemaExtension {
    /// The directives behind `schema`. A variable in their arguments isn't well formed.
    pub directives: DirectiveList,
    /// For each type of operations the object type that they begin at, in order.
    pub root_operations: Vec<Node<(OperationType, NamedType)>>,
}

impl SchemaExtension {
    /// An extension that adds nothing yet. It allocates no memory, and isn't well formed before it has a directive or a
    /// root operation.
    ///
    /// ```
    /// SchemaExtension { root_operations, ..SchemaExtension::new(alloc) } // extend schema { .. }
    /// ```
    pub fn new(alloc: Global) -> SchemaExtension
        ensures directives { result.directives.0.items ≡ [] }
        ensures root_operations { result.root_operations.items ≡ [] }
    {
        SchemaExtension {
            directives: DirectiveList::new(alloc),
            root_operations: Vec::new(alloc),
        }
    }
}
