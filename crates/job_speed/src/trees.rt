//! Trees that are built by constructors and pushes.

use crate::numbers::Numbers;
use crate::texts::{NameOf, Texts};
use anyhow::Result;
use graphql_ast::ast::{
    Argument, Directive, DirectiveList, Document, EnumTypeDefinition, EnumValueDefinition, Field,
    FieldDefinition, FragmentSpread, InlineFragment, InputObjectTypeDefinition,
    InputValueDefinition, ObjectTypeDefinition, OperationDefinition, OperationType, Selection,
    Type, UnionTypeDefinition, Value, VariableDefinition,
};
use graphql_ast::node::NodeStr;
use graphql_ast::{Name, Node, name};
use std::alloc::Global;

/// What makes the trees.
#[derive(Drop)]
pub struct Builder<'t> {
    alloc: Global,
    texts: &'t Texts,
    pub numbers: Numbers,
}

impl<'t> Builder<'t> {
    pub fn new(alloc: Global, texts: &'t Texts, seed: u64) -> Builder<'t> {
        Builder {
            alloc,
            texts,
            numbers: Numbers::new(seed),
        }
    }

    /// A name: in memory of its own once in three times, else in place if it is short.
    fn name(&mut self, of: NameOf) -> Result<Name> {
        let texts = self.texts;
        let text = texts.name(&mut self.numbers, of);
        if self.numbers.once_in(3) {
            Ok(Name::new(self.alloc, text)?)
        } else {
            Ok(Name::compact(self.alloc, text)?)
        }
    }

    fn text(&mut self) -> Result<Value> {
        let texts = self.texts;
        let text = texts.description(&mut self.numbers);
        Ok(Value::from_text(self.alloc, text)?)
    }

    /// A description, which is there once in so many times.
    fn description(&mut self, times: usize) -> Result<Option<NodeStr>> {
        if self.numbers.once_in(times) {
            let texts = self.texts;
            let text = texts.description(&mut self.numbers);
            Ok(Some(NodeStr::new_str(self.alloc, text)?))
        } else {
            Ok(None)
        }
    }

    /// `T`, `T!` or `[T!]!`
    fn type_reference(&mut self) -> Result<Type> {
        let name = self.name(NameOf::Type)?;
        match self.numbers.below(5) {
            0 | 1 => Ok(Type::Named(name)),
            2 | 3 => Ok(Type::NonNullNamed(name)),
            _ => Ok(Type::NonNullNamed(name).list(self.alloc)?.non_null()),
        }
    }

    fn int(&mut self) -> Result<Value> {
        let number = self.numbers.below(1_000_000);
        Ok(Value::from_i32(self.alloc, i32::try_from(number).unwrap_or(0))?)
    }

    /// A value that is neither list nor object, and is constant.
    fn leaf(&mut self) -> Result<Value> {
        match self.numbers.below(4) {
            0 => self.text(),
            1 => Ok(Value::Enum(self.name(NameOf::EnumValue)?)),
            2 => Ok(Value::Boolean(self.numbers.once_in(2))),
            _ => self.int(),
        }
    }

    fn list(&mut self) -> Result<Value> {
        let mut items = Vec::new(self.alloc);
        for _ in 0..self.numbers.below(5) {
            items.push(Node::new(self.alloc, self.leaf()?)?)?;
        }
        Ok(Value::List(items))
    }

    fn object(&mut self) -> Result<Value> {
        let mut fields = Vec::new(self.alloc);
        for _ in 0..self.numbers.below(4).wrapping_add(1) {
            let name = self.name(NameOf::Field)?;
            let value = if self.numbers.once_in(3) {
                self.list()?
            } else {
                self.leaf()?
            };
            fields.push((name, Node::new(self.alloc, value)?))?;
        }
        Ok(Value::Object(fields))
    }

    /// The value of an argument.
    fn argument_value(&mut self) -> Result<Value> {
        match self.numbers.below(8) {
            0 | 1 | 2 => Ok(Value::Variable(self.name(NameOf::Field)?)),
            3 => self.object(),
            4 => self.list(),
            _ => self.leaf(),
        }
    }

    fn argument(&mut self, value: Value) -> Result<Node<Argument>> {
        let name = self.name(NameOf::Field)?;
        let value = Node::new(self.alloc, value)?;
        Ok(Argument::new_node(self.alloc, name, value)?)
    }

    fn arguments(&mut self, most: usize) -> Result<Vec<Node<Argument>>> {
        let mut arguments = Vec::new(self.alloc);
        for _ in 0..self.numbers.below(most) {
            let value = self.argument_value()?;
            arguments.push(self.argument(value)?)?;
        }
        Ok(arguments)
    }

    /// Directives: one with one argument, once in so many times. A constant one is of the type system.
    fn directives(&mut self, times: usize, is_constant: bool) -> Result<DirectiveList> {
        let mut list = DirectiveList::new(self.alloc);
        if self.numbers.once_in(times) {
            let mut directive = Directive::new(self.alloc, self.name(NameOf::Field)?);
            let value = if is_constant {
                self.leaf()?
            } else {
                self.argument_value()?
            };
            directive.arguments.push(self.argument(value)?)?;
            list.0.push(Node::new(self.alloc, directive)?)?;
        }
        Ok(list)
    }

    /// An argument of a field, or an input field.
    fn input_value(&mut self, times: usize) -> Result<Node<InputValueDefinition>> {
        let description = self.description(times)?;
        let name = self.name(NameOf::Field)?;
        let ty = self.type_reference()?;
        let mut input = InputValueDefinition::new(self.alloc, name, Node::new(self.alloc, ty)?);
        input.description = description;
        if self.numbers.once_in(3) {
            let value = self.leaf()?;
            input.default_value = Some(Node::new(self.alloc, value)?);
        }
        Ok(Node::new(self.alloc, input)?)
    }

    fn field_definition(&mut self) -> Result<Node<FieldDefinition>> {
        let description = self.description(1)?;
        let name = self.name(NameOf::Field)?;
        let ty = self.type_reference()?;
        let mut field = FieldDefinition::new(self.alloc, name, ty);
        field.description = description;
        if self.numbers.once_in(3) {
            for _ in 0..self.numbers.below(4).wrapping_add(1) {
                field.arguments.push(self.input_value(2)?)?;
            }
        }
        field.directives = self.directives(10, true)?;
        Ok(Node::new(self.alloc, field)?)
    }

    fn object_type(&mut self) -> Result<ObjectTypeDefinition> {
        let description = self.description(1)?;
        let name = self.name(NameOf::Type)?;
        let mut object = ObjectTypeDefinition::new(self.alloc, name);
        object.description = description;
        for _ in 0..self.numbers.below(3) {
            object.implements_interfaces.push(self.name(NameOf::Type)?)?;
        }
        object.directives = self.directives(10, true)?;
        for _ in 0..self.numbers.below(14).wrapping_add(3) {
            object.fields.push(self.field_definition()?)?;
        }
        Ok(object)
    }

    fn input_object_type(&mut self) -> Result<InputObjectTypeDefinition> {
        let description = self.description(1)?;
        let name = self.name(NameOf::Type)?;
        let mut object = InputObjectTypeDefinition::new(self.alloc, name);
        object.description = description;
        for _ in 0..self.numbers.below(10).wrapping_add(2) {
            object.fields.push(self.input_value(1)?)?;
        }
        Ok(object)
    }

    fn enum_type(&mut self) -> Result<EnumTypeDefinition> {
        let description = self.description(1)?;
        let name = self.name(NameOf::Type)?;
        let mut definition = EnumTypeDefinition::new(self.alloc, name);
        definition.description = description;
        for _ in 0..self.numbers.below(20).wrapping_add(2) {
            let name = self.name(NameOf::EnumValue)?;
            let mut value = EnumValueDefinition::new(self.alloc, name);
            value.description = self.description(2)?;
            definition.values.push(Node::new(self.alloc, value)?)?;
        }
        Ok(definition)
    }

    fn union_type(&mut self) -> Result<UnionTypeDefinition> {
        let description = self.description(1)?;
        let name = self.name(NameOf::Type)?;
        let mut union = UnionTypeDefinition::new(self.alloc, name);
        union.description = description;
        for _ in 0..self.numbers.below(6).wrapping_add(2) {
            union.members.push(self.name(NameOf::Type)?)?;
        }
        Ok(union)
    }

    /// A schema of so many definitions, most of them of object types.
    pub fn schema(&mut self, count: usize) -> Result<Document> {
        let mut document = Document::new(self.alloc);
        for _ in 0..count {
            match self.numbers.below(20) {
                0 => document.push(self.alloc, self.union_type()?)?,
                1 | 2 => document.push(self.alloc, self.enum_type()?)?,
                3 | 4 | 5 => document.push(self.alloc, self.input_object_type()?)?,
                _ => document.push(self.alloc, self.object_type()?)?,
            }
        }
        Ok(document)
    }

    /// A field without selections.
    fn field(&mut self, most_arguments: usize) -> Result<Field> {
        let name = self.name(NameOf::Field)?;
        let mut field = Field::new(self.alloc, name);
        if self.numbers.once_in(6) {
            field.alias = Some(self.name(NameOf::Field)?);
        }
        field.arguments = self.arguments(most_arguments)?;
        field.directives = self.directives(10, false)?;
        Ok(field)
    }

    fn spread(&mut self) -> Result<Selection> {
        let spread = FragmentSpread {
            fragment_name: self.name(NameOf::Type)?,
            directives: self.directives(10, false)?,
        };
        Ok(Selection::fragment_spread(self.alloc, spread)?)
    }

    /// Fields without selections, and spreads.
    fn leaf_set(&mut self) -> Result<Vec<Selection>> {
        let mut selections = Vec::new(self.alloc);
        for _ in 0..self.numbers.below(6).wrapping_add(1) {
            let selection = if self.numbers.once_in(8) {
                self.spread()?
            } else {
                let most = if self.numbers.once_in(4) { 3 } else { 0 };
                Selection::field(self.alloc, self.field(most)?)?
            };
            selections.push(selection)?;
        }
        Ok(selections)
    }

    /// A field with selections, or an inline fragment.
    fn inner_selection(&mut self) -> Result<Selection> {
        if self.numbers.once_in(5) {
            let mut fragment = InlineFragment::new(self.alloc);
            fragment.type_condition = Some(self.name(NameOf::Type)?);
            fragment.directives = self.directives(10, false)?;
            fragment.selection_set = self.leaf_set()?;
            Ok(Selection::inline_fragment(self.alloc, fragment)?)
        } else {
            let mut field = self.field(3)?;
            field.selection_set = self.leaf_set()?;
            Ok(Selection::field(self.alloc, field)?)
        }
    }

    fn inner_set(&mut self) -> Result<Vec<Selection>> {
        let mut selections = Vec::new(self.alloc);
        for _ in 0..self.numbers.below(4).wrapping_add(1) {
            let selection = if self.numbers.once_in(2) {
                self.inner_selection()?
            } else {
                Selection::field(self.alloc, self.field(2)?)?
            };
            selections.push(selection)?;
        }
        Ok(selections)
    }

    fn variable(&mut self) -> Result<Node<VariableDefinition>> {
        let name = self.name(NameOf::Field)?;
        let ty = self.type_reference()?;
        let mut variable = VariableDefinition::new(self.alloc, name, Node::new(self.alloc, ty)?);
        if self.numbers.once_in(4) {
            let value = self.leaf()?;
            variable.default_value = Some(Node::new(self.alloc, value)?);
        }
        Ok(Node::new(self.alloc, variable)?)
    }

    /// An operation of three or four levels.
    pub fn operation(&mut self) -> Result<OperationDefinition> {
        let kind = if self.numbers.once_in(5) {
            OperationType::Mutation
        } else {
            OperationType::Query
        };
        let mut operation = OperationDefinition::new(self.alloc, kind);
        operation.name = Some(self.name(NameOf::Type)?);
        for _ in 0..self.numbers.below(5) {
            operation.variables.push(self.variable()?)?;
        }
        for _ in 0..self.numbers.below(3).wrapping_add(1) {
            let mut field = self.field(4)?;
            field.selection_set = self.inner_set()?;
            operation
                .selection_set
                .push(Selection::field(self.alloc, field)?)?;
        }
        Ok(operation)
    }

    /// Puts a flaw into an operation.
    pub fn spoil(&mut self, operation: &mut OperationDefinition) -> Result<()> {
        match self.numbers.below(3) {
            0 => operation.selection_set.clear(),
            1 => {
                let spread = FragmentSpread::new(self.alloc, name!("on"));
                operation
                    .selection_set
                    .push(Selection::fragment_spread(self.alloc, spread)?)?;
            }
            _ => {
                let name = self.name(NameOf::Field)?;
                let ty = Node::new(self.alloc, self.type_reference()?)?;
                let mut variable = VariableDefinition::new(self.alloc, name, ty);
                let value = Value::Enum(name!("true"));
                variable.default_value = Some(Node::new(self.alloc, value)?);
                operation.variables.push(Node::new(self.alloc, variable)?)?;
            }
        }
        Ok(())
    }
}
