//! Worked examples of values, types, arguments, directives and definitions, through public calls alone.
#![tactic(auto)]

#[cfg(test)]
mod checks;
#[cfg(test)]
mod samples;
#[cfg(test)]
mod values;
