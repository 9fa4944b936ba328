//! The nodes of a document, in order.
ghost use Rattle.std.specs.Prelude.{⊤};

use crate::kind_name::kind_name;
use graphql_ast::ast::Document;
use graphql_visit::{NodeRef, Reader, read_document};
use std::alloc::{AllocError, Global};

/// The names of the nodes so far, each before a space.
#[derive(Drop)]
struct Names {
    text: String,
}

impl Reader for Names {
    type Error = AllocError;

    ghost reads = { λ node old result new. ⊤ };

    fn read(&mut self, node: NodeRef<'_>) -> Result<(), AllocError> {
        self.text.push_str(kind_name(node))?;
        self.text.push(' ')
    }
}

pub fn in_order(alloc: Global, document: &Document) -> Result<String, AllocError> {
    let mut names = Names {
        text: String::new(alloc),
    };
    read_document(document, &mut names)?;
    Ok(names.text)
}
