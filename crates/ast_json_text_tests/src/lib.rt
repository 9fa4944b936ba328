//! Trees as the text of their AST JSON, through public calls alone: with ample memory, and where memory is refused.
#![tactic(auto)]

#[cfg(test)]
mod each_kind;
#[cfg(test)]
mod outside;
#[cfg(test)]
mod refusals;
#[cfg(test)]
mod sinks;
#[cfg(test)]
mod strings;
