//! Flaws that are found, through public calls alone.
#![tactic(auto)]

#[cfg(test)]
mod checks;
#[cfg(test)]
mod kinds;
#[cfg(test)]
mod notation;
#[cfg(test)]
mod refusals;
#[cfg(test)]
mod several;
