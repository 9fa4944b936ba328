//! Makes the trees of the cases in its groups, each a file that an argument names, of their AST JSON, prints them, and
//! compares each print with the text that stands in the case; or reads JSON, and compares what that gives with what the
//! case wants.
//!
//! The texts were made by an independent model of the layout rules, not by this printer.
#![tactic(auto)]

mod asked;
mod built;
mod case;
mod checks;
mod difference;
mod kinds;
mod sink;

use crate::case::read_case;
use crate::kinds::difference;
use anyhow::{Context, Result, bail};
use std::alloc::Global;
use std::collections::BTreeSet;
use std::process::ExitCode;
use std::{env, fs};

/// The end of the name of a group's file.
const FILE_END: &str = ".jsonl";

/// How many cases there are, and how many of them differ.
#[derive(Clone, Copy)]
struct Count {
    cases: u64,
    different: u64,
}

/// The names of all cases so far.
type Names = BTreeSet<String>;

/// The text of what the case on a line of a group finds other than it wants, if it does.
fn failure(alloc: Global, names: &mut Names, group: &str, line: &str) -> Result<Option<String>> {
    let case = read_case(alloc, line)?;
    let name = case.name.clone()?;
    if !case.is_of_group(group) {
        bail!("{:?} is no name in the group {group}", name.as_str());
    }
    let found = difference(alloc, &case).context(format_args!("{name}"))?;
    if !names.insert(case.name)? {
        bail!("{name}: a second case has this name");
    }
    match found {
        Some(difference) => Ok(Some(format!(in alloc; "{name}: {difference}")?)),
        None => Ok(None),
    }
}

/// Compares the cases in a file, prints what differs, and counts.
fn count_group(rt: &HostRuntime, names: &mut Names, file: &str) -> Result<Count> {
    let alloc = rt.alloc();
    let Some(group) = file.strip_suffix(FILE_END) else {
        bail!("{file:?} is no file of a group");
    };
    let text = fs::read_to_string(rt, file).context(format_args!("{file}"))?;
    let mut count = Count {
        cases: 0,
        different: 0,
    };
    for line in text.as_str().lines() {
        count.cases = count.cases.saturating_add(1);
        let failure = failure(alloc, names, group, line).context(format_args!(
            "{file}, line {}",
            count.cases
        ))?;
        if let Some(failure) = failure {
            count.different = count.different.saturating_add(1);
            println!(rt; "{failure}")?;
        }
    }
    println!(rt;
        "{group}: {} cases, {} differ",
        count.cases, count.different
    )?;
    Ok(count)
}

fn main(rt: HostRuntime) -> Result<ExitCode> {
    let mut names = Names::new(rt.alloc());
    let mut whole = Count {
        cases: 0,
        different: 0,
    };
    for file in env::args(&rt)?.skip(1) {
        let count = count_group(&rt, &mut names, file.as_str())?;
        whole.cases = whole.cases.saturating_add(count.cases);
        whole.different = whole.different.saturating_add(count.different);
    }
    println!(rt; "{} cases, {} differ", whole.cases, whole.different)?;
    Ok(if whole.different == 0 {
        ExitCode::SUCCESS
    } else {
        ExitCode::FAILURE
    })
}
