//! The definitions of types that are printed.
ghost use Rattle.std.specs.Prelude.{IsTrue};
ghost use Rattle.graphql_base.specs.Names.{is_name};

use crate::trees::Builder;
use graphql_base::node::{Node, NodeStr};
use graphql_type_system::field_definition::FieldDefinition;
use graphql_type_system::object_type::ObjectTypeDefinition;
use graphql_values::input_value_definition::InputValueDefinition;
use graphql_values::types::Type;
use graphql_values::value::Value;
use std::alloc::AllocError;

type Fields = Vec<Node<FieldDefinition>>;

/// A description that stands on one line as a block string.
const SHORT: &str = "Items of the list, in order.";

/// One of more than 70 bytes, which stands on lines of its own.
const LONG: &str =
    "Items of the list that were changed since a given day, in the order of their last change.";

impl Builder {
    /// `first: Int = ..`
    fn first(&mut self, number: usize) -> Result<Vec<Node<InputValueDefinition>>, AllocError> {
        let ty = Type::Named(self.name("Int")?);
        let default_value = Node::new(self.alloc, self.int(number)?)?;
        let ty = Node::new(self.alloc, ty)?;
        let mut first = InputValueDefinition::new(self.alloc, self.name("first")?, ty);
        first.default_value = Some(default_value);
        let mut arguments = self.list(1)?;
        arguments.push(Node::new(self.alloc, first)?)?;
        Ok(arguments)
    }

    /// A field with a description, an argument with a default value, the type `[Item!]!` and a directive.
    fn push_field_definition(
        &mut self,
        fields: &mut Fields,
        name: &'static str,
        description: &str,
        number: usize,
    ) -> Result<(), AllocError>
        requires { IsTrue (is_name name.now) }
    {
        let description = NodeStr::new_str(self.alloc, description)?;
        let item = Type::NonNullNamed(self.name("Item")?);
        let reason = Value::from_text(self.alloc, "Use `edges` instead.")?;
        let field = FieldDefinition {
            description: Some(description),
            name: self.name(name)?,
            arguments: self.first(number)?,
            ty: item.list(self.alloc)?.non_null(),
            directives: self.directive("deprecated", "reason", reason)?,
        };
        fields.push(Node::new(self.alloc, field)?)?;
        Ok(())
    }

    /// Ten fields.
    fn field_definitions(&mut self, number: usize) -> Result<Fields, AllocError> {
        let mut fields = self.list(10)?;
        self.push_field_definition(&mut fields, "items", SHORT, number)?;
        self.push_field_definition(&mut fields, "openTasks", LONG, number)?;
        self.push_field_definition(&mut fields, "authors", SHORT, number)?;
        self.push_field_definition(&mut fields, "reviewers", LONG, number)?;
        self.push_field_definition(&mut fields, "tags", SHORT, number)?;
        self.push_field_definition(&mut fields, "comments", LONG, number)?;
        self.push_field_definition(&mut fields, "parts", SHORT, number)?;
        self.push_field_definition(&mut fields, "relatedItems", LONG, number)?;
        self.push_field_definition(&mut fields, "milestones", SHORT, number)?;
        self.push_field_definition(&mut fields, "entries", LONG, number)?;
        Ok(fields)
    }

    /// A type with a description, two interfaces, a directive and ten fields.
    pub(crate) fn object_type(
        &mut self,
        number: usize,
    ) -> Result<ObjectTypeDefinition, AllocError> {
        let description = "A collection of items, with all that was said of them.";
        let mut interfaces = self.list(2)?;
        interfaces.push(self.name("Node")?)?;
        interfaces.push(self.name("Entity")?)?;
        let key = Value::from_text(self.alloc, "id")?;
        Ok(ObjectTypeDefinition {
            description: Some(NodeStr::new_str(self.alloc, description)?),
            name: self.name("Collection")?,
            implements_interfaces: interfaces,
            directives: self.directive("key", "fields", key)?,
            fields: self.field_definitions(number)?,
        })
    }

    /// Such types.
    pub fn types(&mut self, count: usize) -> Result<Vec<ObjectTypeDefinition>, AllocError> {
        let mut types = self.list(count)?;
        for number in 0..count {
            types.push(self.object_type(number)?)?;
        }
        Ok(types)
    }
}
