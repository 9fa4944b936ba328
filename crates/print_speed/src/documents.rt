//! The documents that are printed.

use crate::trees::Builder;
use graphql_ast::ast::{Definition, Document};
use graphql_base::node::Node;
use std::alloc::AllocError;

/// Which definitions a document has.
#[derive(Clone, Copy)]
pub enum Contents {
    Types,
    Queries,
    /// A type and a query by turns.
    Both,
}

impl Builder {
    fn type_definition(&mut self, number: usize) -> Result<Definition, AllocError> {
        let object_type = self.object_type(number)?;
        Ok(Definition::ObjectTypeDefinition(Node::new(self.alloc, object_type)?))
    }

    fn query_definition(&mut self, number: usize) -> Result<Definition, AllocError> {
        let operation = self.operation(number)?;
        Ok(Definition::OperationDefinition(Node::new(self.alloc, operation)?))
    }

    fn definition(&mut self, contents: Contents, place: usize) -> Result<Definition, AllocError> {
        match contents {
            Contents::Types => self.type_definition(place),
            Contents::Queries => self.query_definition(place),
            Contents::Both if place % 2 == 0 => self.type_definition(place / 2),
            Contents::Both => self.query_definition(place / 2),
        }
    }

    /// A document of so many definitions.
    pub fn document(&mut self, contents: Contents, count: usize) -> Result<Document, AllocError> {
        let mut document = Document::new(self.alloc);
        document.definitions = self.list(count)?;
        for place in 0..count {
            let definition = self.definition(contents, place)?;
            document.definitions.push(definition)?;
        }
        Ok(document)
    }
}
