//! Calls over AST JSON through public functions alone: with ample memory, with buffers that are too short, and where memory
//! is refused. The bindings have the cases of the golden program, through the C interface.
#![tactic(auto)]

#[cfg(test)]
mod answers;
#[cfg(test)]
mod checks;
#[cfg(test)]
mod refusals;
#[cfg(test)]
mod samples;
