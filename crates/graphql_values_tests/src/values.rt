//! Values, types, arguments, directives and definitions.
mod argument_by_name;
mod clones;
mod compared;
mod directive_definition;
mod directive_list;
mod growths;
mod ill_formed;
mod literal;
mod made;
mod prints;
mod refusals;
mod sizes;
mod types;
mod value;
mod value_macro;
mod words;
