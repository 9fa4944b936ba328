//! Rewrites the document of each case in the files that the arguments name, and compares what comes with what the case
//! wants. The same rewriters over `visit` of graphql-js made that (`tools/rewrites.js`).
#![tactic(auto)]

mod case;

use crate::case::{Case, read_case};
use anyhow::{Context, Result};
use graphql_ast::ast::Document;
use graphql_ast::span::FileId;
use graphql_ast::{name, value};
use graphql_ast_json::AstJson;
use graphql_locations::strip_locations;
use graphql_operations::{fragments_reached, separate_operations};
use graphql_rewrite::{
    Rebuilt, add_field_everywhere, concat, remove_directive, rename_fields, replace_variables,
    sort_definitions,
};
use serde_json::Value as Json;
use std::alloc::Global;
use std::process::ExitCode;
use std::{env, fs};

fn replaced(alloc: Global, document: &Document) -> Rebuilt<Document> {
    let values = [
        (name!(a), value!(in alloc; 1)?),
        (name!(b), value!(in alloc; [$a])?),
    ];
    replace_variables(alloc, document, &values)
}

/// Whether what was made is what is wanted: nothing where the document is wanted as it is, and else another document.
fn is_wanted(
    alloc: Global,
    document: &Document,
    made: Option<Document>,
    wanted: &Json,
) -> Result<bool> {
    let wanted = Document::from_ast_json(alloc, wanted, FileId::new(1))?;
    Ok(match made {
        Some(made) => made == wanted && made != *document,
        None => *document == wanted,
    })
}

/// The document with its definitions in order.
fn sorted(document: &Document) -> Result<Document> {
    let mut sorted = document.clone()?;
    sort_definitions(&mut sorted)?;
    Ok(sorted)
}

/// The document, and behind it the same in order.
fn joined(alloc: Global, document: &Document) -> Result<Document> {
    let documents = vec![in alloc; document.clone()?, sorted(document)?]?;
    Ok(concat(alloc, documents)?)
}

/// Whether the fragments that an operation reaches are those that stand beside it in its own document.
fn is_reached(alloc: Global, document: &Document, alone: &Document) -> Result<bool> {
    for definition in &alone.definitions {
        if definition.as_operation_definition().is_some() {
            let found = fragments_reached(alloc, document, definition)?;
            return Ok(found.len().saturating_add(1) == alone.definitions.len());
        }
    }
    Ok(false)
}

/// Whether the operations are separated as the case wants.
fn are_separated(alloc: Global, case: &Case) -> Result<bool> {
    let document = Document::from_ast_json(alloc, &case.executable, FileId::new(1))?;
    let documents = separate_operations(alloc, &document)?;
    if documents.len() != case.separated.len() {
        return Ok(false);
    }
    for (alone, wanted) in documents.iter().zip(case.separated.iter()) {
        let wanted = Document::from_ast_json(alloc, wanted, FileId::new(1))?;
        if *alone != wanted || !is_reached(alloc, &document, alone)? {
            return Ok(false);
        }
    }
    Ok(true)
}

/// Whether the document with a location at each node is written as the document, once they are taken out, and not before.
fn is_stripped(alloc: Global, document: &Document, located: &Json) -> Result<bool> {
    let located = Document::from_ast_json(alloc, located, FileId::new(1))?;
    let made = strip_locations(alloc, &located)?;
    let wanted = document.to_ast_json(alloc)?.to_string(alloc)?;
    let placed = located.to_ast_json(alloc)?.to_string(alloc)?;
    let plain = made.to_ast_json(alloc)?.to_string(alloc)?;
    let is_placed = placed != wanted || document.definitions.is_empty();
    Ok(made == *document && plain == wanted && is_placed)
}

/// The rewriter that made something else than the case wants, if one did.
fn difference(alloc: Global, case: &Case) -> Result<Option<&'static str>> {
    let document = Document::from_ast_json(alloc, &case.document, FileId::new(1))?;
    let made = [
        (
            "renamed",
            &case.renamed,
            rename_fields(alloc, &document, "a", &name!(z))?,
        ),
        (
            "added",
            &case.added,
            add_field_everywhere(alloc, &document, &name!("__typename"))?,
        ),
        (
            "removed",
            &case.removed,
            remove_directive(alloc, &document, "a")?,
        ),
        ("replaced", &case.replaced, replaced(alloc, &document)?),
    ];
    for (what, wanted, made) in made {
        if !is_wanted(alloc, &document, made, wanted)? {
            return Ok(Some(what));
        }
    }
    let whole = [
        ("sorted", &case.sorted, sorted(&document)?),
        ("joined", &case.joined, joined(alloc, &document)?),
    ];
    for (what, wanted, made) in whole {
        if made != Document::from_ast_json(alloc, wanted, FileId::new(1))? {
            return Ok(Some(what));
        }
    }
    if !is_stripped(alloc, &document, &case.located)? {
        return Ok(Some("located"));
    }
    Ok(if are_separated(alloc, case)? {
        None
    } else {
        Some("separated")
    })
}

/// Compares the cases in a file, prints what differs, and counts.
fn differing(rt: &HostRuntime, file: &str) -> Result<u64> {
    let alloc = rt.alloc();
    let text = fs::read_to_string(rt, file).context(format_args!("{file}"))?;
    let (mut cases, mut different) = (0u64, 0u64);
    for line in text.as_str().lines() {
        cases = cases.saturating_add(1);
        let case = read_case(alloc, line)?;
        let found = difference(alloc, &case).context(format_args!("{file}, line {cases}"))?;
        if let Some(what) = found {
            different = different.saturating_add(1);
            println!(rt; "{file}, line {cases}: {what}")?;
        }
    }
    println!(rt; "{file}: {cases} documents, {different} differ")?;
    Ok(different)
}

fn main(rt: HostRuntime) -> Result<ExitCode> {
    let mut different = 0u64;
    for file in env::args(&rt)?.skip(1) {
        different = different.saturating_add(differing(&rt, file.as_str())?);
    }
    Ok(if different == 0 {
        ExitCode::SUCCESS
    } else {
        ExitCode::FAILURE
    })
}
