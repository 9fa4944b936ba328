//! Fields.
ghost use Rattle.std.specs.Prelude.{◌≡◌, [], None, option_copied};
ghost use Rattle.std.specs.Option.{option_map};
ghost use Rattle.graphql_values.specs.code.Queries.{argument_value, first_argument_named};
ghost use Rattle.graphql_executable.specs.code.SelectionQueries.{response_name};

pub(crate) mod print;

use crate::selection::Selection;
use graphql_base::name::Name;
use graphql_base::node::Node;
use graphql_values::argument::Argument;
use graphql_values::directive_list::DirectiveList;
use graphql_values::value::Value;
use std::alloc::{AllocError, Global};

/// A field (`Field`, section 2.5).
///
/// Equality and hash ignore source locations.
///
/// ```
/// let mut user = Field::new(alloc, name!(user));
/// user.alias = Some(name!(me));
/// user.selection_set.push(Selection::field(alloc, Field::new(alloc, name!(id)))?)?;
/// println!(rt; "{}", user.serialize().no_indent())?; // me: user { id }
/// ```
#[cycle(selection)]
#[derive(PartialEq, Eq, Hash, Debug, Drop)]
pub struct Field {
    /// The name that stands before `:`, by which the response speaks of the field.
    pub alias: Option<Name>,
    /// The name of the field.
    pub name: Name,
    /// The arguments, in order; of arguments with one name each is kept.
    pub arguments: Vec<Node<Argument>>,
    /// The directives behind the arguments.
    pub directives: DirectiveList,
    /// What is selected of the field's value; without a selection no braces are printed.
    pub selection_set: Vec<Selection>,
}

impl Field {
    /// A field without an alias, arguments, directives and selections. It takes no memory.
    ///
    /// ```
    /// Field::new(alloc, name!(id)) // id
    /// Field { alias: Some(name!(key)), ..Field::new(alloc, name!(id)) } // key: id
    /// ```
    pub fn new(alloc: Global, name: Name) -> Field
        ensures alias { result.alias ≡ None }
        ensures name { result.name ≡ name }
        ensures arguments { result.arguments.items ≡ [] }
        ensures directives { result.directives.0.items ≡ [] }
        ensures selection_set { result.selection_set.items ≡ [] }
    {
        Field {
            alias: None,
            name,
            arguments: Vec::new(alloc),
            directives: DirectiveList::new(alloc),
            selection_set: Vec::new(alloc),
        }
    }

    /// The name by which the response speaks of the field: the alias if there is one, else the name.
    pub fn response_name(&self) -> &Name
        ensures { result.now ≡ response_name self.now }
    {
        match &self.alias {
            Some(alias) => alias,
            None => &self.name,
        }
    }

    /// The value of the first argument of that name.
    ///
    /// ```
    /// field.specified_argument_by_name("first") // of items(first: 10) the node of 10
    /// ```
    pub fn specified_argument_by_name(&self, name: &str) -> Option<&Node<Value>>
        ensures { option_copied result
            ≡ option_map argument_value (first_argument_named name.now self.now.arguments.items) }
    {
        let argument = self.specified_argument(name)?;
        Some(&argument.value)
    }

    fn specified_argument(&self, name: &str) -> Option<&Node<Argument>>
        ensures { option_copied result
            ≡ first_argument_named name.now self.now.arguments.items }
    {
        self.arguments
            .iter()
            .find(|node| node.name.as_str() == name)
    }
}

impl Clone for Field {
    ghost use Rattle.graphql_executable.specs.trees.ExecutableTrees.{IsFieldCloneOf};

    ghost is_clone = { IsFieldCloneOf };

    fn clone(&self) -> Result<Field, AllocError> {
        Ok(Field {
            alias: self.alias.clone()?,
            name: self.name.clone()?,
            arguments: self.arguments.clone()?,
            directives: self.directives.clone()?,
            selection_set: self.selection_set.clone()?,
        })
    }
}
