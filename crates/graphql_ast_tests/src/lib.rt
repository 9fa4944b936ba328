//! Worked examples of definitions and documents, through public calls alone.
#![tactic(auto)]

#[cfg(test)]
mod calls;
#[cfg(test)]
mod checks;
#[cfg(test)]
mod deep;
#[cfg(test)]
mod documents;
#[cfg(test)]
mod each_kind;
#[cfg(test)]
mod growths;
#[cfg(test)]
mod hostile;
#[cfg(test)]
mod ill_formed;
#[cfg(test)]
mod kinds;
#[cfg(test)]
mod lines_and_columns;
#[cfg(test)]
mod look_ups;
#[cfg(test)]
mod passed_on;
#[cfg(test)]
mod prints;
#[cfg(test)]
mod queries;
#[cfg(test)]
mod refusals;
#[cfg(test)]
mod samples;
#[cfg(test)]
mod sinks;
