//! Source locations that are taken out, through public calls alone.
#![tactic(auto)]

#[cfg(test)]
mod checks;
#[cfg(test)]
mod each_kind;
#[cfg(test)]
mod nested;
#[cfg(test)]
mod plain;
#[cfg(test)]
mod refusals;
