//! What the kinds of the crates above are written with, checked by, and made ready for.

pub use crate::argument::print::{
    are_arguments_well_formed, find_arguments_nesting, find_ill_formed_argument, write_arguments,
};
pub use crate::constness::Constness;
pub use crate::default_value::{
    find_default_value_nesting, find_ill_formed_default_value, is_default_value_well_formed,
    write_default_value,
};
pub use crate::directive_list::print::{
    are_directives_well_formed, find_directives_nesting, find_ill_formed_directive,
};
pub use crate::input_value_definition::print::some_want_lines;
pub use crate::parameters::write_parameters;
pub use crate::stacks::Stacks;
pub use crate::types::print::{find_list_depth, write_type};
pub use crate::value::print::ValueEntry;
pub use crate::value::well_formed::is_enum_name;
