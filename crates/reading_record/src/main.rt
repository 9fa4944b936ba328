//! Prints what the readings of AST JSON tell of each text in the files that are named, and what the calls answer of it.
//!
//! The texts were made of documents, values and types: members left out, put in, twice, in another order and of another value, lists
//! with more items and with none, and characters and bytes changed. The file `stdout` is what this program told when AST JSON was
//! read from values of `serde_json` alone, so that a reader that tells something else of one of the texts is found.
#![tactic(auto)]

mod calls;
mod digest;
mod escapes;

use crate::calls::{of_all_calls, of_call};
use crate::digest::digest;
use crate::escapes::bytes_of;
use anyhow::Result;
use graphql_ast::ast::{DirectiveList, Document, Type, Value as Tree};
use graphql_ast::span::FileId;
use graphql_ast_json::{
    AstJson, AstJsonError, NodeReader, Unknown, WellFormedError, from_ast_json_str,
    from_well_formed_ast_json_str, read_well_formed_ast_json,
};
use serde_json::Value;
use std::alloc::Global;
use std::env::Env;
use std::{env, fs};

/// How most documents begin.
const DOCUMENT: &str = r#"{"kind":"Document""#;

/// More bytes than a print of one of the texts has.
const ROOM: usize = 20_000;

/// What a reading tells: the digest of the tree's JSON, or the error.
fn told<T: AstJson + Drop>(alloc: Global, read: Result<T, AstJsonError>) -> Result<String> {
    Ok(match read {
        Ok(tree) => {
            let json = tree.to_ast_json(alloc)?.to_string(alloc)?;
            format!(in alloc; "read {}", digest(json.as_bytes()))?
        }
        Err(error) => format!(in alloc; "{error}")?,
    })
}

/// The same of a reading of well-formed trees alone.
fn told_well_formed<T: AstJson + Drop>(
    alloc: Global,
    read: Result<T, WellFormedError>,
) -> Result<String> {
    match read {
        Ok(tree) => told(alloc, Ok(tree)),
        Err(error) => Ok(format!(in alloc; "{error}")?),
    }
}

/// What both readings tell, the second only if that is something else.
fn joined(alloc: Global, read: &str, well_formed: &str) -> Result<String> {
    Ok(if read == well_formed {
        String::from_str(alloc, read)?
    } else {
        format!(in alloc; "{read}; {well_formed}")?
    })
}

/// What both readings tell of a text.
fn of_text(alloc: Global, text: &str) -> Result<String> {
    let source = FileId::new(1);
    let read = told::<Document>(alloc, from_ast_json_str(alloc, text, source))?;
    let well_formed = from_well_formed_ast_json_str::<Document>(alloc, text, source);
    joined(alloc, &read, &told_well_formed(alloc, well_formed)?)
}

/// The same of a text that is read as a value.
fn of_value_text(alloc: Global, text: &str) -> Result<String> {
    let source = FileId::new(1);
    let read = told::<Tree>(alloc, from_ast_json_str(alloc, text, source))?;
    let well_formed = from_well_formed_ast_json_str::<Tree>(alloc, text, source);
    joined(alloc, &read, &told_well_formed(alloc, well_formed)?)
}

/// What is told of a text that is read as a type, each of which is well formed.
fn of_type_text(alloc: Global, text: &str) -> Result<String> {
    told::<Type>(alloc, from_ast_json_str(alloc, text, FileId::new(1)))
}

/// What is told of a text that is read as a list of directives.
fn of_directives_text(alloc: Global, text: &str) -> Result<String> {
    told::<DirectiveList>(alloc, from_ast_json_str(alloc, text, FileId::new(1)))
}

/// What both readings tell of a value of `serde_json`.
fn of_value(alloc: Global, json: &Value, unknown: Unknown) -> Result<String> {
    let source = FileId::new(1);
    let reader = NodeReader {
        alloc,
        json,
        source,
        unknown,
    };
    let read = told(alloc, Document::read_ast_json(reader))?;
    let well_formed = read_well_formed_ast_json::<Document>(reader);
    joined(alloc, &read, &told_well_formed(alloc, well_formed)?)
}

/// Prints what is told of a text that is read as a tree of other kinds, unless that is told of it as a document too.
fn print_others(rt: &HostRuntime, text: &str, told: &str) -> Result<()> {
    let alloc = rt.alloc();
    for (name, other) in [
        ("a value", of_value_text(alloc, text)?),
        ("a type", of_type_text(alloc, text)?),
        ("directives", of_directives_text(alloc, text)?),
    ] {
        if other.as_str() != told {
            println!(rt; "  as {name}: {other}")?;
        }
    }
    Ok(())
}

/// Prints what is told of a text. What is told of the value that it is of is printed only if that is something else, and what is told of
/// it as another tree only if it doesn't begin as a document does.
fn print_told(rt: &HostRuntime, text: &str) -> Result<()> {
    let alloc = rt.alloc();
    let told = of_text(alloc, text)?;
    println!(rt; "{told}")?;
    if let Ok(json) = Value::from_str(alloc, text) {
        for (name, unknown) in [
            ("value", Unknown::Refuse),
            ("passed over", Unknown::PassOver),
        ] {
            let of_value = of_value(alloc, &json, unknown)?;
            if of_value != told {
                println!(rt; "  {name}: {of_value}")?;
            }
        }
    }
    if !text.starts_with(DOCUMENT) {
        print_others(rt, text, &told)?;
    }
    Ok(())
}

/// Prints what is told of a line, by the help of a buffer.
fn print_line(rt: &HostRuntime, line: &str, room: &mut [u8]) -> Result<()> {
    let alloc = rt.alloc();
    let json = bytes_of(alloc, line)?;
    match str::from_utf8(&json) {
        Ok(text) => print_told(rt, text)?,
        Err(_) => println!(rt; "no text")?,
    }
    let refused = of_call(alloc, &json, false, room)?;
    let passed_over = of_call(alloc, &json, true, room)?;
    println!(rt; "  calls: {refused}, {passed_over}")?;
    let all = of_all_calls(alloc, &json, room)?;
    println!(rt; "  all calls: {all}")?;
    Ok(())
}

fn main(rt: HostRuntime) -> Result<()> {
    let mut room = vec![in rt.alloc(); 0u8; ROOM]?;
    for file in env::args(&rt)?.skip(1) {
        let texts = fs::read_to_string(&rt, file)?;
        for line in texts.as_str().lines() {
            print_line(&rt, line, &mut room)?;
        }
    }
    Ok(())
}
