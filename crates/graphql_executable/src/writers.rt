//! What the kinds of the crates above are written with.

pub use crate::operation_definition::print::write_first_operation_definition;
pub use crate::stacks::ExecutableStacks;
