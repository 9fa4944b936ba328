//! Worked examples of definitions and extensions of the type system, and of their prints, through public calls alone.
#![tactic(auto)]

#[cfg(test)]
mod checks;
#[cfg(test)]
mod compared;
#[cfg(test)]
mod hostile;
#[cfg(test)]
mod ill_formed;
#[cfg(test)]
mod prints;
#[cfg(test)]
mod queries;
#[cfg(test)]
mod refusals;
#[cfg(test)]
mod samples;
