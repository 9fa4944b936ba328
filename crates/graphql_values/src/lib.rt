//! GraphQL's values, types, arguments and directives.
//!
//! - `value`, `literal`: values, and the numbers in them.
//! - `value_macro`: the macro `value!`, and what it calls.
//! - `types`: type references, and the macro `ty!`.
//! - `argument`, `directive`, `directive_list`: directives, lists of them, and their arguments by name.
//! - `input_value_definition`, `directive_definition`, `directive_location`: definitions of input values and of
//!   directives, and where directives may stand.
//! - `operation_type`: the types of operations.
//! - `writers`: what the kinds of the crates above are checked and written with.
//! - `laws`: laws of these kinds, as contracts of functions that do nothing.
#![tactic(auto)]

pub mod argument;
mod constness;
mod default_value;
pub mod directive;
pub mod directive_definition;
pub mod directive_list;
pub mod directive_location;
pub mod input_value_definition;
pub mod laws;
pub mod literal;
mod number_syntax;
mod numeral;
pub mod operation_type;
mod parameters;
mod stacks;
pub mod types;
pub mod value;
pub mod value_macro;
pub mod writers;
