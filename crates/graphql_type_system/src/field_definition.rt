//! Definitions of fields, which object types and interface types have.
ghost use Rattle.std.specs.Prelude.{◌≡◌, [], None, option_copied};
ghost use Rattle.graphql_values.specs.code.Queries.{first_input_value_definition_named};

pub(crate) mod print;

use graphql_base::name::Name;
use graphql_base::node::{Node, NodeStr};
use graphql_values::directive_list::DirectiveList;
use graphql_values::input_value_definition::InputValueDefinition;
use graphql_values::types::Type;
use std::alloc::Global;

/// A field of an object type or an interface type (`FieldDefinition`, section 3.6).
///
/// Equality and hash ignore source locations.
///
/// ```
/// let first = InputValueDefinition::new(alloc, name!(first), Node::new(alloc, ty!(Int))?);
/// let mut posts = FieldDefinition::new(alloc, name!(posts), ty!(in alloc; [Post!])?);
/// posts.arguments.push(Node::new(alloc, first)?)?;
/// println!(rt; "{}", posts.serialize().no_indent())?; // posts(first: Int): [Post!]
/// ```
#[derive(Clone, PartialEq, Eq, Hash, Debug, Drop)]
pub struct FieldDefinition {
    /// The string before the name.
    pub description: Option<NodeStr>,
    /// The name of the field.
    pub name: Name,
    /// The arguments that the field takes, in order.
    pub arguments: Vec<Node<InputValueDefinition>>,
    /// The type of the field's value.
    pub ty: Type,
    /// The directives at its end. A variable in their arguments isn't well formed.
    pub directives: DirectiveList,
}

impl FieldDefinition {
    /// A field without a description, arguments and directives. It allocates no memory.
    ///
    /// ```
    /// FieldDefinition::new(alloc, name!(id), ty!(ID!)) // id: ID!
    /// ```
    pub fn new(alloc: Global, name: Name, ty: Type) -> FieldDefinition
        ensures description { result.description ≡ None }
        ensures name { result.name ≡ name }
        ensures arguments { result.arguments.items ≡ [] }
        ensures ty { result.ty ≡ ty }
        ensures directives { result.directives.0.items ≡ [] }
    {
        FieldDefinition {
            description: None,
            name,
            arguments: Vec::new(alloc),
            ty,
            directives: DirectiveList::new(alloc),
        }
    }

    /// The first argument of that name, or `None` if the field has none.
    ///
    /// ```
    /// field.argument_by_name("first")?.default_value
    /// ```
    pub fn argument_by_name(&self, name: &str) -> Option<&Node<InputValueDefinition>>
        ensures { option_copied result
            ≡ first_input_value_definition_named name.now self.now.arguments.items }
    {
        self.arguments
            .iter()
            .find(|node| node.name.as_str() == name)
    }
}
