//! What holds of definitions and documents as they are printed and read, compared and cloned.
//!
//! The contract of each function is the law; `thirty_kinds_are_read_back`, which has one clause a kind, calls the laws of
//! the crates below. `base`, `text`, `values`, `executable` and `type_system` are the laws of those crates.

mod comparisons;
mod edges;
mod readings;
mod thirty_kinds;

pub use crate::laws::comparisons::{clones_are_the_same, source_files_compare_by_text};
pub use crate::laws::edges::{edge_readings, edge_refusals};
pub use crate::laws::readings::{
    definitions_are_read, refused_definitions, refused_documents, worked_layouts, worked_readings,
};
pub use crate::laws::thirty_kinds::thirty_kinds_are_read_back;
pub use graphql_base::laws as base;
pub use graphql_executable::laws as executable;
pub use graphql_text::laws as text;
pub use graphql_type_system::laws as type_system;
pub use graphql_values::laws as values;
