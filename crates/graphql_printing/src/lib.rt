//! The program `graphql_print` over any reader and any writers: documents in AST JSON, printed as GraphQL.
//!
//! - `Options`: what is asked for, with the layout of the print; `Request`: the same, and the file that is read.
//! - `read_words`: the request that the words of a command line make; `report_words`: what is said of words that make none.
//! - `run_print`: a run. `Outcome`: how it ended, and the exit status of a run that ends so.
#![tactic(auto)]

mod ast_json;
mod command;
mod flaws;
mod flush;
mod input;
mod options;
mod outcome;
mod print;
mod refusal;
mod run;
mod words;

pub use crate::options::{Lines, Options, Task};
pub use crate::outcome::Outcome;
pub use crate::run::run_print;
pub use crate::words::{Request, WordsError, read_words, report_words};
