//! Walks through public calls alone: that stop, that fail, and where memory is refused. The order of nodes is compared by
//! the program `walk_orders`.
#![tactic(auto)]

#[cfg(test)]
mod counts;
#[cfg(test)]
mod hostile;
#[cfg(test)]
mod refusals;
#[cfg(test)]
mod samples;
#[cfg(test)]
mod stops;
#[cfg(test)]
mod variables;
