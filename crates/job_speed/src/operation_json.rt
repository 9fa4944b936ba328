//! Operations in AST JSON with members in alphabetical order, as maps of Python, Go and Rust write them, and with members
//! that no node has.

use crate::numbers::Numbers;
use crate::texts::{NameOf, Texts, push_escapes};
use itoa::Buffer;
use std::alloc::{AllocError, Global};

/// A text of AST JSON, and the offset of the source text that it has come to.
#[derive(Drop)]
pub struct OperationJson<'t> {
    texts: &'t Texts,
    text: String,
    numbers: Numbers,
    at: u64,
    has_unknown: bool,
}

impl<'t> OperationJson<'t> {
    /// The beginning of a document, with unknown members or without.
    pub fn new(alloc: Global, texts: &'t Texts, seed: u64, has_unknown: bool) -> OperationJson<'t> {
        OperationJson {
            texts,
            text: String::new(alloc),
            numbers: Numbers::new(seed),
            at: 0,
            has_unknown,
        }
    }

    /// The text of a document of so many operations and as many fragments.
    pub fn document(mut self, count: usize) -> Result<String, AllocError> {
        self.push("{\"definitions\":[")?;
        for index in 0..count {
            self.separate(index)?;
            self.operation()?;
            self.push(",")?;
            self.fragment()?;
        }
        self.push("]")?;
        self.kind("Document", 0)?;
        self.push("}")?;
        Ok(self.text)
    }

    fn push(&mut self, piece: &str) -> Result<(), AllocError> {
        self.text.push_str(piece)
    }

    fn push_number(&mut self, number: u64) -> Result<(), AllocError> {
        let mut buffer = Buffer::new();
        self.text.push_str(buffer.format(number))
    }

    /// The comma before the item of this index.
    fn separate(&mut self, index: usize) -> Result<(), AllocError> {
        if index > 0 {
            self.push(",")?;
        }
        Ok(())
    }

    /// The members `kind` and `loc`, behind those that come before them in the alphabet. Where there are unknown members,
    /// some nodes have one before `kind`, `extra`.
    fn kind(&mut self, kind: &str, start: u64) -> Result<(), AllocError> {
        if self.numbers.once_in(8) && self.has_unknown {
            self.push(",\"extra\":{\"line\":[1,2.5e3,null],\"source\":{\"path\":\"a.graphql\"}}")?;
        }
        self.push(",")?;
        self.bare_kind(kind, start)
    }

    fn bare_kind(&mut self, kind: &str, start: u64) -> Result<(), AllocError> {
        self.push("\"kind\":\"")?;
        self.push(kind)?;
        self.push("\",\"loc\":{\"end\":")?;
        self.push_number(self.at)?;
        self.push(",\"start\":")?;
        self.push_number(start)?;
        self.push("}")
    }

    fn push_name(&mut self, of: NameOf) -> Result<(), AllocError> {
        let texts = self.texts;
        let name = texts.name(&mut self.numbers, of);
        self.push(name)
    }

    /// A node of the kind `Name`.
    fn name(&mut self, of: NameOf) -> Result<(), AllocError> {
        let start = self.at;
        let length = self.numbers.below(20).wrapping_add(2);
        self.at = self.at.wrapping_add(length as u64);
        self.push("{")?;
        self.bare_kind("Name", start)?;
        self.push(",\"value\":\"")?;
        self.push_name(of)?;
        self.push("\"}")
    }

    fn variable(&mut self) -> Result<(), AllocError> {
        let start = self.at;
        self.push("{")?;
        self.bare_kind("Variable", start)?;
        self.push(",\"name\":")?;
        self.name(NameOf::Field)?;
        self.push("}")
    }

    fn named_type(&mut self) -> Result<(), AllocError> {
        let start = self.at;
        self.push("{")?;
        self.bare_kind("NamedType", start)?;
        self.push(",\"name\":")?;
        self.name(NameOf::Type)?;
        self.push("}")
    }

    fn string(&mut self) -> Result<(), AllocError> {
        let start = self.at;
        self.push("{\"block\":false,")?;
        self.bare_kind("StringValue", start)?;
        self.push(",\"value\":\"")?;
        if self.numbers.once_in(4) {
            let count = self.numbers.below(100);
            push_escapes(&mut self.text, &mut self.numbers, count)?;
        } else {
            let texts = self.texts;
            let description = texts.description(&mut self.numbers);
            self.push(description)?;
        }
        self.push("\"}")
    }

    fn int(&mut self) -> Result<(), AllocError> {
        let start = self.at;
        self.push("{")?;
        self.bare_kind("IntValue", start)?;
        self.push(",\"value\":\"")?;
        let number = self.numbers.below(1_000_000);
        self.push_number(number as u64)?;
        self.push("\"}")
    }

    /// A value that is neither list nor object.
    fn leaf(&mut self) -> Result<(), AllocError> {
        let start = self.at;
        match self.numbers.below(6) {
            0 | 1 => self.variable(),
            2 => self.string(),
            3 => {
                self.push("{")?;
                self.bare_kind("EnumValue", start)?;
                self.push(",\"value\":\"")?;
                self.push_name(NameOf::EnumValue)?;
                self.push("\"}")
            }
            4 => {
                self.push("{")?;
                self.bare_kind("BooleanValue", start)?;
                self.push(",\"value\":true}")
            }
            _ => self.int(),
        }
    }

    /// An object of values, some of which are lists of values.
    fn object(&mut self) -> Result<(), AllocError> {
        let start = self.at;
        self.push("{\"fields\":[")?;
        for index in 0..self.numbers.below(4).wrapping_add(1) {
            self.separate(index)?;
            self.push("{")?;
            self.bare_kind("ObjectField", start)?;
            self.push(",\"name\":")?;
            self.name(NameOf::Field)?;
            self.push(",\"value\":")?;
            self.list_or_leaf()?;
            self.push("}")?;
        }
        self.push("]")?;
        self.kind("ObjectValue", start)?;
        self.push("}")
    }

    fn list_or_leaf(&mut self) -> Result<(), AllocError> {
        if !self.numbers.once_in(3) {
            return self.leaf();
        }
        let start = self.at;
        self.push("{")?;
        self.bare_kind("ListValue", start)?;
        self.push(",\"values\":[")?;
        for index in 0..self.numbers.below(5) {
            self.separate(index)?;
            self.leaf()?;
        }
        self.push("]}")
    }

    fn value(&mut self) -> Result<(), AllocError> {
        if self.numbers.once_in(5) {
            self.object()
        } else {
            self.leaf()
        }
    }

    fn arguments(&mut self, most: usize) -> Result<(), AllocError> {
        self.push("\"arguments\":[")?;
        for index in 0..self.numbers.below(most) {
            self.separate(index)?;
            let start = self.at;
            self.push("{")?;
            self.bare_kind("Argument", start)?;
            self.push(",\"name\":")?;
            self.name(NameOf::Field)?;
            self.push(",\"value\":")?;
            self.value()?;
            self.push("}")?;
        }
        self.push("]")
    }

    fn directives(&mut self) -> Result<(), AllocError> {
        if !self.numbers.once_in(6) {
            return self.push("\"directives\":[]");
        }
        let start = self.at;
        self.push("\"directives\":[{")?;
        self.arguments(3)?;
        self.kind("Directive", start)?;
        self.push(",\"name\":")?;
        self.name(NameOf::Field)?;
        self.push("}]")
    }

    /// What a field has before its selection set.
    fn field_head(&mut self, most_arguments: usize) -> Result<(), AllocError> {
        let start = self.at;
        self.push("{")?;
        if self.numbers.once_in(6) {
            self.push("\"alias\":")?;
            self.name(NameOf::Field)?;
            self.push(",")?;
        }
        self.arguments(most_arguments)?;
        self.push(",")?;
        self.directives()?;
        self.kind("Field", start)?;
        self.push(",\"name\":")?;
        self.name(NameOf::Field)
    }

    fn leaf_field(&mut self) -> Result<(), AllocError> {
        let arguments = if self.numbers.once_in(4) { 3 } else { 0 };
        self.field_head(arguments)?;
        self.push("}")
    }

    fn spread(&mut self) -> Result<(), AllocError> {
        let start = self.at;
        self.push("{")?;
        self.directives()?;
        self.kind("FragmentSpread", start)?;
        self.push(",\"name\":")?;
        self.name(NameOf::Type)?;
        self.push("}")
    }

    /// A selection set of fields that have none, and of spreads.
    fn leaf_set(&mut self) -> Result<(), AllocError> {
        let start = self.at;
        self.push("{")?;
        self.bare_kind("SelectionSet", start)?;
        self.push(",\"selections\":[")?;
        for index in 0..self.numbers.below(7).wrapping_add(1) {
            self.separate(index)?;
            if self.numbers.once_in(8) {
                self.spread()?;
            } else {
                self.leaf_field()?;
            }
        }
        self.push("]}")
    }

    /// A field with selections, or an inline fragment.
    fn inner_selection(&mut self) -> Result<(), AllocError> {
        if self.numbers.once_in(5) {
            let start = self.at;
            self.push("{")?;
            self.directives()?;
            self.kind("InlineFragment", start)?;
            self.push(",\"selectionSet\":")?;
            self.leaf_set()?;
            self.push(",\"typeCondition\":")?;
            self.named_type()?;
        } else {
            self.field_head(4)?;
            self.push(",\"selectionSet\":")?;
            self.leaf_set()?;
        }
        self.push("}")
    }

    /// A selection set of selections of any kind.
    fn inner_set(&mut self) -> Result<(), AllocError> {
        let start = self.at;
        self.push("{")?;
        self.bare_kind("SelectionSet", start)?;
        self.push(",\"selections\":[")?;
        for index in 0..self.numbers.below(6).wrapping_add(1) {
            self.separate(index)?;
            if self.numbers.once_in(2) {
                self.inner_selection()?;
            } else {
                self.leaf_field()?;
            }
        }
        self.push("]}")
    }

    /// Three levels of fields.
    fn outer_set(&mut self) -> Result<(), AllocError> {
        let start = self.at;
        self.push("{")?;
        self.bare_kind("SelectionSet", start)?;
        self.push(",\"selections\":[")?;
        for index in 0..self.numbers.below(3).wrapping_add(1) {
            self.separate(index)?;
            self.field_head(4)?;
            self.push(",\"selectionSet\":")?;
            self.inner_set()?;
            self.push("}")?;
        }
        self.push("]}")
    }

    fn variable_definitions(&mut self) -> Result<(), AllocError> {
        self.push(",\"variableDefinitions\":[")?;
        for index in 0..self.numbers.below(5) {
            let start = self.at;
            self.separate(index)?;
            self.push("{\"directives\":[]")?;
            self.kind("VariableDefinition", start)?;
            self.push(",\"type\":")?;
            self.named_type()?;
            self.push(",\"variable\":")?;
            self.variable()?;
            self.push("}")?;
        }
        self.push("]")
    }

    fn operation(&mut self) -> Result<(), AllocError> {
        let start = self.at;
        self.push("{")?;
        self.directives()?;
        self.kind("OperationDefinition", start)?;
        self.push(",\"name\":")?;
        self.name(NameOf::Type)?;
        self.push(",\"operation\":\"query\",\"selectionSet\":")?;
        self.outer_set()?;
        self.variable_definitions()?;
        self.push("}")
    }

    fn fragment(&mut self) -> Result<(), AllocError> {
        let start = self.at;
        self.push("{")?;
        self.directives()?;
        self.kind("FragmentDefinition", start)?;
        self.push(",\"name\":")?;
        self.name(NameOf::Type)?;
        self.push(",\"selectionSet\":")?;
        self.inner_set()?;
        self.push(",\"typeCondition\":")?;
        self.named_type()?;
        self.push("}")
    }
}
