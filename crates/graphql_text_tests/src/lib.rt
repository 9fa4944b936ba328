//! Worked examples of strings, writers and sinks, and of prints of values into sinks, through public calls alone.
#![tactic(auto)]

#[cfg(test)]
mod buffered;
#[cfg(test)]
mod checks;
#[cfg(test)]
mod errors;
#[cfg(test)]
mod faults;
#[cfg(test)]
mod page;
#[cfg(test)]
mod pieces;
#[cfg(test)]
mod refusals;
#[cfg(test)]
mod samples;
#[cfg(test)]
mod sinks;
#[cfg(test)]
mod stacks;
#[cfg(test)]
mod strings;
#[cfg(test)]
mod writers;
