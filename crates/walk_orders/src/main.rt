//! Walks over the document of each case in the files that the arguments name, and compares the nodes that come, and their
//! order, with those that the case wants. `visit` of graphql-js told these (`tools/walk_orders.js`).
#![tactic(auto)]

mod calls;
mod case;
mod kind_name;
mod nodes;

use crate::case::{Case, read_case};
use anyhow::{Context, Result};
use graphql_ast::ast::Document;
use graphql_ast::span::FileId;
use graphql_ast_json::AstJson;
use graphql_visit::used_variables;
use std::alloc::Global;
use std::process::ExitCode;
use std::{env, fs};

/// The variables that a document uses, each before a space.
fn variables(alloc: Global, document: &Document) -> Result<String> {
    let mut names = String::new(alloc);
    for name in &used_variables(alloc, document)? {
        names.push_str(name.as_str())?;
        names.push(' ')?;
    }
    Ok(names)
}

/// What is found other than the case wants, if something is.
fn difference(alloc: Global, case: &Case) -> Result<Option<String>> {
    let document = Document::from_ast_json(alloc, &case.document, FileId::new(1))?;
    let found = [
        ("nodes", &case.nodes, nodes::in_order(alloc, &document)?),
        ("calls", &case.calls, calls::made(alloc, &document, "")?),
        (
            "skipped",
            &case.skipped,
            calls::made(alloc, &document, "Field")?,
        ),
        ("variables", &case.variables, variables(alloc, &document)?),
    ];
    for (what, wanted, found) in &found {
        if found != *wanted {
            return Ok(Some(format!(in alloc; "{what}: {found}")?));
        }
    }
    Ok(None)
}

/// Compares the cases in a file, prints what differs, and counts.
fn differing(rt: &HostRuntime, file: &str) -> Result<u64> {
    let alloc = rt.alloc();
    let text = fs::read_to_string(rt, file).context(format_args!("{file}"))?;
    let (mut cases, mut different) = (0u64, 0u64);
    for line in text.as_str().lines() {
        cases = cases.saturating_add(1);
        let case = read_case(alloc, line)?;
        let found = difference(alloc, &case).context(format_args!("{file}, line {cases}"))?;
        if let Some(difference) = found {
            different = different.saturating_add(1);
            println!(rt; "{file}, line {cases}: {difference}")?;
        }
    }
    println!(rt; "{file}: {cases} documents, {different} differ")?;
    Ok(different)
}

fn main(rt: HostRuntime) -> Result<ExitCode> {
    let mut different = 0u64;
    for file in env::args(&rt)?.skip(1) {
        different = different.saturating_add(differing(&rt, file.as_str())?);
    }
    Ok(if different == 0 {
        ExitCode::SUCCESS
    } else {
        ExitCode::FAILURE
    })
}
