//! Schemas in AST JSON, as graphql-js writes them: each node has its kind first and its location last.

use crate::numbers::Numbers;
use crate::texts::{NameOf, Texts};
use itoa::Buffer;
use std::alloc::{AllocError, Global};

/// A text of AST JSON, and the offset of the source text that it has come to.
#[derive(Drop)]
pub struct SchemaJson<'t> {
    texts: &'t Texts,
    text: String,
    numbers: Numbers,
    at: u64,
}

impl SchemaJson<'_> {
    /// The text of a document of so many definitions.
    pub fn document(
        alloc: Global,
        texts: &Texts,
        seed: u64,
        count: usize,
    ) -> Result<String, AllocError> {
        let mut json = SchemaJson {
            texts,
            text: String::new(alloc),
            numbers: Numbers::new(seed),
            at: 0,
        };
        json.push("{\"kind\":\"Document\",\"definitions\":[")?;
        for index in 0..count {
            json.separate(index)?;
            json.definition()?;
        }
        json.push("]")?;
        json.end(0)?;
        Ok(json.text)
    }

    fn push(&mut self, piece: &str) -> Result<(), AllocError> {
        self.text.push_str(piece)
    }

    fn push_number(&mut self, number: u64) -> Result<(), AllocError> {
        let mut buffer = Buffer::new();
        self.text.push_str(buffer.format(number))
    }

    /// The comma before the item of this index.
    fn separate(&mut self, index: usize) -> Result<(), AllocError> {
        if index > 0 {
            self.push(",")?;
        }
        Ok(())
    }

    /// The location and the end of a node that began at this offset.
    fn end(&mut self, start: u64) -> Result<(), AllocError> {
        self.push(",\"loc\":{\"start\":")?;
        self.push_number(start)?;
        self.push(",\"end\":")?;
        self.push_number(self.at)?;
        self.push("}}")
    }

    fn pass(&mut self, bytes: usize) {
        self.at = self.at.wrapping_add(bytes as u64);
    }

    /// A node of the kind `Name`.
    fn name(&mut self, of: NameOf) -> Result<(), AllocError> {
        self.push("{\"kind\":\"Name\",\"value\":\"")?;
        let start = self.at;
        let texts = self.texts;
        let name = texts.name(&mut self.numbers, of);
        self.push(name)?;
        self.pass(name.len());
        self.push("\"")?;
        self.end(start)?;
        self.pass(1);
        Ok(())
    }

    /// A node of the kind `NamedType`.
    fn named_type(&mut self) -> Result<(), AllocError> {
        let start = self.at;
        self.push("{\"kind\":\"NamedType\",\"name\":")?;
        self.name(NameOf::Type)?;
        self.end(start)
    }

    /// `T!`
    fn required_type(&mut self) -> Result<(), AllocError> {
        let start = self.at;
        self.push("{\"kind\":\"NonNullType\",\"type\":")?;
        self.named_type()?;
        self.end(start)
    }

    /// `T`, `T!` or `[T!]!`
    fn type_reference(&mut self) -> Result<(), AllocError> {
        match self.numbers.below(5) {
            0 | 1 => self.named_type(),
            2 | 3 => self.required_type(),
            _ => {
                let start = self.at;
                self.push("{\"kind\":\"NonNullType\",\"type\":{\"kind\":\"ListType\",\"type\":")?;
                self.required_type()?;
                self.end(start)?;
                self.end(start)
            }
        }
    }

    /// A node of the kind `StringValue`.
    fn string(&mut self, is_block: bool) -> Result<(), AllocError> {
        let start = self.at;
        self.push("{\"kind\":\"StringValue\",\"value\":\"")?;
        let texts = self.texts;
        let description = texts.description(&mut self.numbers);
        self.push(description)?;
        self.pass(description.len());
        self.push(if is_block {
            "\",\"block\":true"
        } else {
            "\",\"block\":false"
        })?;
        self.end(start)
    }

    /// The member `description`, which is there once in so many times.
    fn description(&mut self, times: usize) -> Result<(), AllocError> {
        if self.numbers.once_in(times) {
            self.push(",\"description\":")?;
            self.string(true)?;
        }
        Ok(())
    }

    /// The members `description` and `name`.
    fn described_name(&mut self, times: usize, of: NameOf) -> Result<(), AllocError> {
        self.description(times)?;
        self.push(",\"name\":")?;
        self.name(of)
    }

    /// The member `directives`: one in a few nodes, `@deprecated(reason: "..")`.
    fn directives(&mut self) -> Result<(), AllocError> {
        if !self.numbers.once_in(10) {
            return self.push(",\"directives\":[]");
        }
        let start = self.at;
        self.push(",\"directives\":[{\"kind\":\"Directive\",\"name\":")?;
        self.name(NameOf::Field)?;
        self.push(",\"arguments\":[{\"kind\":\"Argument\",\"name\":")?;
        self.name(NameOf::Field)?;
        self.push(",\"value\":")?;
        self.string(false)?;
        self.end(start)?;
        self.push("]")?;
        self.end(start)?;
        self.push("]")
    }

    /// The member `defaultValue`, in one of three nodes.
    fn default_value(&mut self) -> Result<(), AllocError> {
        if !self.numbers.once_in(3) {
            return Ok(());
        }
        let start = self.at;
        self.push(",\"defaultValue\":{\"kind\":\"IntValue\",\"value\":\"")?;
        let number = self.numbers.below(1000);
        self.push_number(number as u64)?;
        self.push("\"")?;
        self.end(start)
    }

    /// An argument or an input field.
    fn input_value(&mut self, times: usize) -> Result<(), AllocError> {
        let start = self.at;
        self.push("{\"kind\":\"InputValueDefinition\"")?;
        self.described_name(times, NameOf::Field)?;
        self.push(",\"type\":")?;
        self.type_reference()?;
        self.default_value()?;
        self.directives()?;
        self.end(start)
    }

    /// Arguments, of which most fields have none.
    fn arguments(&mut self) -> Result<(), AllocError> {
        self.push(",\"arguments\":[")?;
        if self.numbers.once_in(3) {
            for index in 0..self.numbers.below(4).wrapping_add(1) {
                self.separate(index)?;
                self.input_value(2)?;
            }
        }
        self.push("]")
    }

    fn field(&mut self) -> Result<(), AllocError> {
        let start = self.at;
        self.push("{\"kind\":\"FieldDefinition\"")?;
        self.described_name(1, NameOf::Field)?;
        self.arguments()?;
        self.push(",\"type\":")?;
        self.type_reference()?;
        self.directives()?;
        self.end(start)
    }

    fn enum_value(&mut self) -> Result<(), AllocError> {
        let start = self.at;
        self.push("{\"kind\":\"EnumValueDefinition\"")?;
        self.described_name(2, NameOf::EnumValue)?;
        self.directives()?;
        self.end(start)
    }

    /// A list of named types: interfaces, or members of a union.
    fn named_types(&mut self, count: usize) -> Result<(), AllocError> {
        self.push("[")?;
        for index in 0..count {
            self.separate(index)?;
            self.named_type()?;
        }
        self.push("]")
    }

    /// The interfaces, directives and fields of an object type or an interface type.
    fn implementing_body(&mut self) -> Result<(), AllocError> {
        self.push(",\"interfaces\":")?;
        let interfaces = self.numbers.below(3);
        self.named_types(interfaces)?;
        self.directives()?;
        self.push(",\"fields\":[")?;
        for index in 0..self.numbers.below(14).wrapping_add(3) {
            self.separate(index)?;
            self.field()?;
        }
        self.push("]")
    }

    fn enum_body(&mut self) -> Result<(), AllocError> {
        self.directives()?;
        self.push(",\"values\":[")?;
        for index in 0..self.numbers.below(20).wrapping_add(2) {
            self.separate(index)?;
            self.enum_value()?;
        }
        self.push("]")
    }

    fn input_object_body(&mut self) -> Result<(), AllocError> {
        self.directives()?;
        self.push(",\"fields\":[")?;
        for index in 0..self.numbers.below(10).wrapping_add(2) {
            self.separate(index)?;
            self.input_value(1)?;
        }
        self.push("]")
    }

    fn union_body(&mut self) -> Result<(), AllocError> {
        self.directives()?;
        self.push(",\"types\":")?;
        let members = self.numbers.below(6).wrapping_add(2);
        self.named_types(members)
    }

    /// A definition or an extension of a type, most often of an object type.
    fn definition(&mut self) -> Result<(), AllocError> {
        let start = self.at;
        match self.numbers.below(20) {
            0 => {
                self.push("{\"kind\":\"ScalarTypeDefinition\"")?;
                self.described_name(1, NameOf::Type)?;
                self.directives()?;
            }
            1 => {
                self.push("{\"kind\":\"UnionTypeDefinition\"")?;
                self.described_name(1, NameOf::Type)?;
                self.union_body()?;
            }
            2 | 3 => {
                self.push("{\"kind\":\"EnumTypeDefinition\"")?;
                self.described_name(1, NameOf::Type)?;
                self.enum_body()?;
            }
            4 | 5 | 6 => {
                self.push("{\"kind\":\"InputObjectTypeDefinition\"")?;
                self.described_name(1, NameOf::Type)?;
                self.input_object_body()?;
            }
            7 => {
                self.push("{\"kind\":\"InterfaceTypeDefinition\"")?;
                self.described_name(1, NameOf::Type)?;
                self.implementing_body()?;
            }
            8 => {
                self.push("{\"kind\":\"ObjectTypeExtension\",\"name\":")?;
                self.name(NameOf::Type)?;
                self.implementing_body()?;
            }
            _ => {
                self.push("{\"kind\":\"ObjectTypeDefinition\"")?;
                self.described_name(1, NameOf::Type)?;
                self.implementing_body()?;
            }
        }
        self.end(start)
    }
}
