//! The values that are printed, and what all trees are made of.
ghost use Rattle.std.specs.Prelude.{IsTrue};
ghost use Rattle.graphql_base.specs.Names.{is_name};

use graphql_base::name::Name;
use graphql_base::node::Node;
use graphql_values::argument::Argument;
use graphql_values::directive::Directive;
use graphql_values::directive_list::DirectiveList;
use graphql_values::literal::FloatValue;
use graphql_values::value::Value;
use std::alloc::{AllocError, Global};

type Items = Vec<Node<Value>>;

type Fields = Vec<(Name, Node<Value>)>;

/// How the names of a tree keep their texts.
#[derive(Clone, Copy, PartialEq)]
pub enum Naming {
    /// Each in memory of its own.
    Own,
    /// Each in the name itself, if it is short enough.
    Compact,
    /// Each shares its text with all names that are equal to it.
    Shared,
    /// Each over a static text.
    Static,
}

/// What makes the trees.
#[derive(Drop)]
pub struct Builder {
    pub(crate) alloc: Global,
    naming: Naming,
    /// Whether lists reserve room for all that they will hold, and no more.
    exact: bool,
    /// The names that are shared.
    names: Vec<Name>,
}

impl Builder {
    pub fn new(alloc: Global, naming: Naming, exact: bool) -> Builder {
        Builder {
            alloc,
            naming,
            exact,
            names: Vec::new(alloc),
        }
    }

    pub(crate) fn name(&mut self, text: &'static str) -> Result<Name, AllocError>
        requires { IsTrue (is_name text.now) }
    {
        match self.naming {
            Naming::Own => Name::new_unchecked(self.alloc, text),
            Naming::Compact => Name::compact_unchecked(self.alloc, text),
            Naming::Shared => self.shared_name(text),
            Naming::Static => Ok(Name::new_static_unchecked(text)),
        }
    }

    fn shared_name(&mut self, text: &str) -> Result<Name, AllocError>
        requires { IsTrue (is_name text.now) }
    {
        for name in &self.names {
            if name.as_str() == text {
                return name.clone();
            }
        }
        let name = Name::new_unchecked(self.alloc, text)?;
        self.names.push(name.clone()?)?;
        Ok(name)
    }

    /// A list that will hold so many items.
    pub(crate) fn list<T>(&self, count: usize) -> Result<Vec<T>, AllocError> {
        if self.exact {
            Vec::with_capacity(self.alloc, count)
        } else {
            Ok(Vec::new(self.alloc))
        }
    }

    /// Arguments: one, of that name.
    pub(crate) fn argument(
        &mut self,
        name: &'static str,
        value: Value,
    ) -> Result<Vec<Node<Argument>>, AllocError>
        requires { IsTrue (is_name name.now) }
    {
        let mut arguments = self.list(1)?;
        let value = Node::new(self.alloc, value)?;
        arguments.push(Argument::new_node(self.alloc, self.name(name)?, value)?)?;
        Ok(arguments)
    }

    /// Directives: one, of that name, with one argument.
    pub(crate) fn directive(
        &mut self,
        name: &'static str,
        argument: &'static str,
        value: Value,
    ) -> Result<DirectiveList, AllocError>
        requires name { IsTrue (is_name name.now) }
        requires argument { IsTrue (is_name argument.now) }
    {
        let mut directive = Directive::new(self.alloc, self.name(name)?);
        directive.arguments = self.argument(argument, value)?;
        let mut directives = self.list(1)?;
        directives.push(Node::new(self.alloc, directive)?)?;
        Ok(DirectiveList(directives))
    }

    fn push(&self, items: &mut Items, value: Value) -> Result<(), AllocError> {
        items.push(Node::new(self.alloc, value)?)?;
        Ok(())
    }

    fn push_field(
        &mut self,
        fields: &mut Fields,
        name: &'static str,
        value: Value,
    ) -> Result<(), AllocError>
        requires { IsTrue (is_name name.now) }
    {
        fields.push((self.name(name)?, Node::new(self.alloc, value)?))?;
        Ok(())
    }

    /// The digits of a number.
    pub(crate) fn int(&self, number: usize) -> Result<Value, AllocError> {
        Value::from_i32(self.alloc, (number % 1_000_000) as i32)
    }

    /// Three numbers from one on.
    fn row(&self, from: usize) -> Result<Value, AllocError> {
        let mut items = self.list(3)?;
        for number in from..from.saturating_add(3) {
            self.push(&mut items, self.int(number)?)?;
        }
        Ok(Value::List(items))
    }

    /// A matrix of two rows.
    fn matrix(&self) -> Result<Value, AllocError> {
        let mut rows = self.list(2)?;
        self.push(&mut rows, self.row(1)?)?;
        self.push(&mut rows, self.row(4)?)?;
        Ok(Value::List(rows))
    }

    /// Two strings and an enum value.
    fn tags(&mut self) -> Result<Value, AllocError> {
        let mut tags = self.list(3)?;
        self.push(&mut tags, Value::from_text(self.alloc, "alpha")?)?;
        self.push(&mut tags, Value::from_text(self.alloc, "beta")?)?;
        let gamma = self.name("GAMMA")?;
        self.push(&mut tags, Value::Enum(gamma))?;
        Ok(Value::List(tags))
    }

    /// An object with a float, an int, and a string with characters to escape.
    fn position(&mut self, number: usize) -> Result<Value, AllocError> {
        let mut fields = self.list(3)?;
        let x = FloatValue::new_parsed(self.alloc, "1.5")?;
        self.push_field(&mut fields, "x", Value::Float(x))?;
        let y = self.int(number.wrapping_mul(7))?;
        self.push_field(&mut fields, "y", y)?;
        let label = Value::from_text(self.alloc, "say \"hi\"")?;
        self.push_field(&mut fields, "label", label)?;
        Ok(Value::Object(fields))
    }

    /// The fields of an object up to its flag.
    fn push_first(&mut self, fields: &mut Fields, number: usize) -> Result<(), AllocError> {
        let id = self.int(number)?;
        self.push_field(fields, "id", id)?;
        let kind = self.name("EXAMPLE_KIND")?;
        self.push_field(fields, "kind", Value::Enum(kind))?;
        let title = format!(in self.alloc; "item number {number}")?;
        self.push_field(fields, "name", Value::String(title))?;
        self.push_field(fields, "active", Value::Boolean(number % 2 == 0))
    }

    /// The lists and the object of an object.
    fn push_groups(&mut self, fields: &mut Fields, number: usize) -> Result<(), AllocError> {
        let tags = self.tags()?;
        self.push_field(fields, "tags", tags)?;
        let position = self.position(number)?;
        self.push_field(fields, "position", position)?;
        let matrix = self.matrix()?;
        self.push_field(fields, "matrix", matrix)
    }

    /// The fields of an object from its variable on.
    fn push_last(&mut self, fields: &mut Fields) -> Result<(), AllocError> {
        let variable = self.name("v")?;
        self.push_field(fields, "ref", Value::Variable(variable))?;
        self.push_field(fields, "none", Value::Null)?;
        let note = self.plain_text()?;
        self.push_field(fields, "note", note)
    }

    /// A string of 80 bytes, of which none is escaped.
    fn plain_text(&self) -> Result<Value, AllocError> {
        Value::from_text(
            self.alloc,
            "A note of some length, which has neither quotes nor escapes in it; it ends here.",
        )
    }

    /// An object with ten fields.
    fn object(&mut self, number: usize) -> Result<Value, AllocError> {
        let mut fields = self.list(10)?;
        self.push_first(&mut fields, number)?;
        self.push_groups(&mut fields, number)?;
        self.push_last(&mut fields)?;
        Ok(Value::Object(fields))
    }

    /// A list of such objects.
    pub fn objects(&mut self, count: usize) -> Result<Value, AllocError> {
        let mut items = self.list(count)?;
        for number in 0..count {
            let object = self.object(number)?;
            self.push(&mut items, object)?;
        }
        Ok(Value::List(items))
    }

    /// A list of plain strings.
    pub fn texts(&self, count: usize) -> Result<Value, AllocError> {
        let mut items = self.list(count)?;
        for _ in 0..count {
            self.push(&mut items, self.plain_text()?)?;
        }
        Ok(Value::List(items))
    }

    /// A list of strings of 80 bytes, of which each second is escaped. They end with a line feed, so none can be a block string.
    pub fn escapes(&self, count: usize) -> Result<Value, AllocError> {
        let mut items = self.list(count)?;
        let text = "a\n".repeat(self.alloc, 40)?;
        for _ in 0..count {
            self.push(&mut items, Value::from_text(self.alloc, text.as_str())?)?;
        }
        Ok(Value::List(items))
    }

    /// As many lists, each the one item of the one around it.
    pub fn nested(&self, count: usize) -> Result<Value, AllocError> {
        let mut value = Value::Null;
        for _ in 0..count {
            let mut items = self.list(1)?;
            self.push(&mut items, value)?;
            value = Value::List(items);
        }
        Ok(value)
    }
}
