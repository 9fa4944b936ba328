//! The calls before nodes and behind them, in order.
ghost use Rattle.std.specs.Prelude.{⊤};

use crate::kind_name::kind_name;
use graphql_ast::ast::Document;
use graphql_visit::{Ended, Flow, NodeRef, Visitor, walk_document};
use std::alloc::{AllocError, Global};
use std::ops::ControlFlow;

/// The calls so far, each before a space.
#[derive(Drop)]
struct Calls<'s> {
    text: String,
    /// The name of the kind of nodes that are passed over.
    skipped: &'s str,
}

impl Calls<'_> {
    fn push(&mut self, mark: char, name: &str) -> Result<(), AllocError> {
        self.text.push(mark)?;
        self.text.push_str(name)?;
        self.text.push(' ')
    }
}

impl Visitor for Calls<'_> {
    type Error = AllocError;

    ghost enters = { λ node old result new. ⊤ };

    ghost leaves = { λ node old result new. ⊤ };

    fn enter(&mut self, node: NodeRef<'_>) -> Result<Flow, AllocError> {
        let name = kind_name(node);
        self.push('+', name)?;
        if name == self.skipped {
            Ok(Flow::Skip)
        } else {
            Ok(Flow::Continue)
        }
    }

    fn leave(&mut self, node: NodeRef<'_>) -> Result<ControlFlow<()>, AllocError> {
        self.push('-', kind_name(node))?;
        Ok(ControlFlow::Continue(()))
    }
}

/// The calls of a walk that passes over what is within nodes of this kind.
pub fn made(alloc: Global, document: &Document, skipped: &str) -> Result<String, AllocError> {
    let mut calls = Calls {
        text: String::new(alloc),
        skipped,
    };
    match walk_document(document, &mut calls) {
        Err(Ended::Failed(error)) => Err(error),
        _ => Ok(calls.text),
    }
}
