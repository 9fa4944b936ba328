//! GraphQL's lexical grammar, as a relation between a text and its tokens, and the layouts of a printer.
//!
//! A text is a list of Unicode scalar values. The definitions stand in `specs/`.
//!
//! - `engine`: kinds of trees that are printed, and their prints.
//! - `ill_formed`: why a tree isn't well formed.
//! - `sink`: what takes the bytes of a print.
//! - `writers`: what the kinds of the crates above are written with.
//! - `laws`: laws of the definitions, as contracts of functions that do nothing.
#![tactic(auto)]

mod block_string;
mod breaks;
mod buffer;
mod depths;
pub mod engine;
pub mod ill_formed;
pub mod laws;
mod node_lists;
mod padded;
mod place;
mod quoted_string;
mod ready_breaks;
pub mod sink;
mod stack;
mod string;
mod target;
mod text;
pub mod writers;
mod written;
