//! Worked examples of operations, fragments, selections and variable definitions, through public calls alone.
#![tactic(auto)]

#[cfg(test)]
mod checks;
#[cfg(test)]
mod checks_refuse;
#[cfg(test)]
mod hostile;
#[cfg(test)]
mod ill_formed;
#[cfg(test)]
mod prints;
#[cfg(test)]
mod queries;
#[cfg(test)]
mod refusals;
#[cfg(test)]
mod samples;
