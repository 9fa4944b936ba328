//! Why no document was read, and how it is reported.
ghost use Rattle.std.specs.Prelude.{◌≡◌};
ghost use Rattle.graphql_printing.specs.Refusals.{IsIllFormedOrMemory, IsNoTreeOrMemory, IsNotJsonOrMemory, outcome_of};

use crate::outcome::Outcome;
use std::alloc::AllocError;
use std::fmt::Display;
use std::io::{self, Write};

/// Why no document was read, with what is said of it.
#[derive(Drop)]
pub(crate) enum Refusal {
    NotRead(io::Error),
    NotJson(String),
    NoTree(String),
    IllFormed(Vec<String>),
    Memory,
}

impl Refusal {
    /// That the bytes are no JSON.
    pub(crate) fn not_json(message: Result<String, AllocError>) -> Refusal
        ensures { IsNotJsonOrMemory result }
    {
        match message {
            Ok(message) => Refusal::NotJson(message),
            Err(_) => Refusal::Memory,
        }
    }

    /// That the JSON is of no document.
    pub(crate) fn no_tree(message: Result<String, AllocError>) -> Refusal
        ensures { IsNoTreeOrMemory result }
    {
        match message {
            Ok(message) => Refusal::NoTree(message),
            Err(_) => Refusal::Memory,
        }
    }

    /// That the document isn't well formed.
    pub(crate) fn ill_formed(messages: Result<Vec<String>, AllocError>) -> Refusal
        ensures { IsIllFormedOrMemory result }
    {
        match messages {
            Ok(messages) => Refusal::IllFormed(messages),
            Err(_) => Refusal::Memory,
        }
    }

    /// How a run ends that ends so.
    fn outcome(&self) -> Outcome
        ensures { result ≡ outcome_of self.now }
    {
        match self {
            Refusal::NotRead(_) => Outcome::NotRead,
            Refusal::NotJson(_) => Outcome::NotJson,
            Refusal::NoTree(_) => Outcome::NoTree,
            Refusal::IllFormed(_) => Outcome::IllFormed,
            Refusal::Memory => Outcome::Memory,
        }
    }

    /// Reports it of the file of this name, a line for each thing that is wrong. A refused write changes nothing.
    pub(crate) fn report<E: Write>(&self, name: &str, err: &mut E) -> Outcome
        ensures { result ≡ outcome_of self.now }
    {
        match self {
            Refusal::NotRead(error) => tell(name, error, err),
            Refusal::NotJson(message) | Refusal::NoTree(message) => tell(name, message, err),
            Refusal::IllFormed(messages) => {
                for message in messages {
                    tell(name, message, err);
                }
            }
            Refusal::Memory => tell(name, "out of memory", err),
        }
        self.outcome()
    }
}

/// Writes a line on a file.
pub(crate) fn tell<D: Display + Drop, E: Write>(name: &str, what: D, err: &mut E) {
    let _ = writeln!(err, "graphql_print: {name}: {what}");
}
