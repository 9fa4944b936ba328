//! Trees from AST JSON and as it, through public calls alone: with ample memory, and where memory is refused.
#![tactic(auto)]

#[cfg(test)]
mod calls;
#[cfg(test)]
mod checks;
#[cfg(test)]
mod direct;
#[cfg(test)]
mod each_kind;
#[cfg(test)]
mod errors;
#[cfg(test)]
mod flawed_trees;
#[cfg(test)]
mod flaws_found;
#[cfg(test)]
mod ill_formed_samples;
#[cfg(test)]
mod large;
#[cfg(test)]
mod offsets;
#[cfg(test)]
mod outside;
#[cfg(test)]
mod parsed;
#[cfg(test)]
mod refusals;
#[cfg(test)]
mod samples;
#[cfg(test)]
mod start_search;
#[cfg(test)]
mod trees;
#[cfg(test)]
mod well_formed;
