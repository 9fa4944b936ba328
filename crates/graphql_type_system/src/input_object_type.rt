//! Input object types: definitions and extensions.
ghost use Rattle.std.specs.Prelude.{◌≡◌, [], None, option_copied};
ghost use Rattle.graphql_values.specs.code.Queries.{first_input_value_definition_named};

pub(crate) mod print;

use graphql_base::name::Name;
use graphql_base::node::{Node, NodeStr};
use graphql_values::directive_list::DirectiveList;
use graphql_values::input_value_definition::InputValueDefinition;
use std::alloc::Global;

/// A definition of an input object type (`InputObjectTypeDefinition`, section 3.10).
///
/// Equality and hash ignore source locations.
///
/// ```
/// let mut first = InputValueDefinition::new(alloc, name!(first), Node::new(alloc, ty!(Int))?);
/// first.default_value = Some(Node::new(alloc, value!(in alloc; 10)?)?);
/// let mut page = InputObjectTypeDefinition::new(alloc, name!(Page));
/// page.fields.push(Node::new(alloc, first)?)?;
/// println!(rt; "{}", page.serialize().no_indent())?; // input Page { first: Int = 10 }
/// ```
#[derive(Clone, PartialEq, Eq, Hash, Debug, Drop)]
pub struct InputObjectTypeDefinition {
    /// The string before `input`.
    pub description: Option<NodeStr>,
    /// The name of the type.
    pub name: Name,
    /// The directives behind the name. A variable in their arguments isn't well formed.
    pub directives: DirectiveList,
    /// The fields, in order.
    pub fields: Vec<Node<InputValueDefinition>>,
}

impl InputObjectTypeDefinition {
    /// An input object type without a description, directives and fields. It allocates no memory.
    ///
    /// ```
    /// InputObjectTypeDefinition { fields, ..InputObjectTypeDefinition::new(alloc, name!(Page)) } // input Page { .. }
    /// ```
    pub fn new(alloc: Global, name: Name) -> InputObjectTypeDefinition
        ensures description { result.description ≡ None }
        ensures name { result.name ≡ name }
        ensures directives { result.directives.0.items ≡ [] }
        ensures fields { result.fields.items ≡ [] }
    {
        InputObjectTypeDefinition {
            description: None,
            name,
            directives: DirectiveList::new(alloc),
            fields: Vec::new(alloc),
        }
    }

    /// The first field of that name, or `None` if the type has none.
    ///
    /// ```
    /// page.field_by_name("first")?.default_value
    /// ```
    pub fn field_by_name(&self, name: &str) -> Option<&Node<InputValueDefinition>>
        ensures { option_copied result
            ≡ first_input_value_definition_named name.now self.now.fields.items }
    {
        self.fields.iter().find(|node| node.name.as_str() == name)
    }
}

/// An extension of an input object type (`InputObjectTypeExtension`, section 3.10).
///
/// One that adds nothing isn't well formed: it has a directive or a field.
///
/// Equality and hash ignore source locations.
///
/// ```
/// let after = InputValueDefinition::new(alloc, name!(after), Node::new(alloc, ty!(ID))?);
/// let mut page = InputObjectTypeExtension::new(alloc, name!(Page));
/// page.fields.push(Node::new(alloc, after)?)?;
/// println!(rt; "{}", page.serialize().no_indent())?; // extend input Page { after: ID }
/// ```
#[derive(Clone, PartialEq, Eq, Hash, Debug, Drop)]
pub struct InputObjectTypeExtension {
    /// The name of the type that is extended.
    pub name: Name,
    /// The directives behind the name. A variable in their arguments isn't well formed.
    pub directives: DirectiveList,
    /// The fields, in order.
    pub fields: Vec<Node<InputValueDefinition>>,
}

impl InputObjectTypeExtension {
    /// An extension that adds nothing yet. It allocates no memory, and isn't well formed before it has a directive or a
    /// field.
    ///
    /// ```
    /// InputObjectTypeExtension { fields, ..InputObjectTypeExtension::new(alloc, name!(Page)) } // extend input Page ..
    /// ```
    pub fn new(alloc: Global, name: Name) -> InputObjectTypeExtension
        ensures name { result.name ≡ name }
        ensures directives { result.directives.0.items ≡ [] }
        ensures fields { result.fields.items ≡ [] }
    {
        InputObjectTypeExtension {
            name,
            directives: DirectiveList::new(alloc),
            fields: Vec::new(alloc),
        }
    }

    /// The first field of that name, or `None` if the extension has none.
    ///
    /// ```
    /// page.field_by_name("first")?.default_value
    /// ```
    pub fn field_by_name(&self, name: &str) -> Option<&Node<InputValueDefinition>>
        ensures { option_copied result
            ≡ first_input_value_definition_named name.now self.now.fields.items }
    {
        self.fields.iter().find(|node| node.name.as_str() == name)
    }
}
