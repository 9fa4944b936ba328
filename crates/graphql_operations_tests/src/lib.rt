//! Operations and the fragments that they reach, through public calls alone. What is separated of random documents is compared
//! by the program `rewrites`.
#![tactic(auto)]

#[cfg(test)]
mod operations;
#[cfg(test)]
mod reached;
#[cfg(test)]
mod refusals;
#[cfg(test)]
mod samples;
