//! Runs of `graphql_print` over readers and writers in memory.
#![tactic(auto)]

#[cfg(test)]
mod failures;
#[cfg(test)]
mod fakes;
#[cfg(test)]
mod refusals;
#[cfg(test)]
mod runs;
#[cfg(test)]
mod samples;
#[cfg(test)]
mod wrong_words;
