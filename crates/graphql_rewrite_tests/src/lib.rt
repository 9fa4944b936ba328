//! Rewriting through public calls alone: what is made of a document, what stays, and where memory is refused. What the ready
//! rewriters make of random documents is compared by the program `rewrites`.
#![tactic(auto)]

#[cfg(test)]
mod each_kind;
#[cfg(test)]
mod growths;
#[cfg(test)]
mod hostile;
#[cfg(test)]
mod in_place;
#[cfg(test)]
mod made;
#[cfg(test)]
mod refusals;
#[cfg(test)]
mod samples;
#[cfg(test)]
mod whole;
