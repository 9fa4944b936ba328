//! `nested_json LEVELS [FORM [ACTION]]` has so many nodes in one another read, rewritten, printed and more, and tells that it was done.
//! What is made is made from the inside out and, but for what is dropped, never dropped, so that of all that the program does the call
//! that is asked for recurs alone: the most levels that it ends well with are those that the stack has room for.
//!
//! FORM is a value of `serde_json` that is read,
//!
//! - `fields`: fields with selections;
//! - `inline_fragments`: inline fragments;
//! - `list_types`: list types;
//! - `non_null_list_types`: non-null list types;
//! - `lists`: lists of values;
//! - `objects`: objects of values;
//! - `flaw`: lists of values, around a reserved enum value that is looked for;
//!
//! or a tree that is rewritten,
//!
//! - `renamed_fields`: fields, which get another name;
//! - `replaced_variables`: lists around a variable that a value takes the place of;
//!
//! or one with which ACTION is done (`print`, `check`, `compare`, `hash`, `clone`, `drop`, `write` as JSON, `write_text`, and `read_back` of what was written),
//!
//! - `made_lists`, `made_objects`: values;
//! - `made_selection`, `made_field`, `made_fragment`, `made_definition`, `made_document`: selection sets in one another, in each of these;
//! - `made_variable_types`, `made_argument_types`, `made_field_types`: list types of these;
//! - `made_wide_set`: a set of so many fields, which don't nest.
//!
//! Without an action all are done, and without a form with each.
#![tactic(auto)]

mod forms;
mod made;
mod rewriting;

use crate::forms::Form;
use crate::made::{Action, Made};
use crate::rewriting::Rewritten;
use anyhow::{Result, bail};
use graphql_ast::ast::{Selection, Type, Value};
use graphql_ast::span::FileId;
use graphql_ast_json::{AstJson, NodeReader, Unknown, WellFormedError, read_well_formed_ast_json};
use serde_json::Value as Json;
use std::alloc::Global;
use std::env;
use std::mem::forget;

const FORMS: [(&str, Form); 7] = [
    ("fields", Form::Fields),
    ("inline_fragments", Form::InlineFragments),
    ("list_types", Form::ListTypes),
    ("non_null_list_types", Form::NonNullListTypes),
    ("lists", Form::Lists),
    ("objects", Form::Objects),
    ("flaw", Form::Flaw),
];

const REWRITTEN: [(&str, Rewritten); 2] = [
    ("renamed_fields", Rewritten::Fields),
    ("replaced_variables", Rewritten::Lists),
];

const MADE: [(&str, Made); 11] = [
    ("made_lists", Made::Lists),
    ("made_objects", Made::Objects),
    ("made_selection", Made::Selection),
    ("made_field", Made::Field),
    ("made_fragment", Made::Fragment),
    ("made_definition", Made::Definition),
    ("made_document", Made::Document),
    ("made_variable_types", Made::VariableTypes),
    ("made_argument_types", Made::ArgumentTypes),
    ("made_field_types", Made::FieldTypes),
    ("made_wide_set", Made::WideSet),
];

const ACTIONS: [(&str, Action); 9] = [
    ("print", Action::Print),
    ("check", Action::Check),
    ("compare", Action::Compare),
    ("hash", Action::Hash),
    ("clone", Action::Clone),
    ("drop", Action::Drop),
    ("write", Action::Write),
    ("write_text", Action::WriteText),
    ("read_back", Action::ReadBack),
];

/// Reads a tree of this kind, and keeps it.
fn read<T: AstJson + Drop>(alloc: Global, json: &Json) -> Result<()> {
    forget(T::from_ast_json(alloc, json, FileId::new(1))?);
    Ok(())
}

/// Reads a value that isn't well formed.
fn find_flaw(alloc: Global, json: &Json) -> Result<()> {
    let node = NodeReader {
        alloc,
        json,
        source: FileId::new(1),
        unknown: Unknown::Refuse,
    };
    match read_well_formed_ast_json::<Value>(node) {
        Ok(_) => bail!("a flaw was not found"),
        Err(WellFormedError::NotRead(error)) => bail!("{error}"),
        Err(WellFormedError::IllFormed { .. }) => Ok(()),
    }
}

fn read_form(alloc: Global, form: Form, json: &Json) -> Result<()> {
    match form {
        Form::Fields | Form::InlineFragments => read::<Selection>(alloc, json),
        Form::ListTypes | Form::NonNullListTypes => read::<Type>(alloc, json),
        Form::Lists | Form::Objects => read::<Value>(alloc, json),
        Form::Flaw => find_flaw(alloc, json),
    }
}

/// Reads what stands so many levels deep in one another, and tells it.
fn tell(rt: &HostRuntime, name: &str, form: Form, levels: u32) -> Result<()> {
    let alloc = rt.alloc();
    let json = form.nested(alloc, levels)?;
    let read = read_form(alloc, form, &json);
    forget(json);
    read?;
    println!(rt; "{name}: {levels} levels")?;
    Ok(())
}

/// Whether a word is wanted: it is the one that was given, or none was.
fn is_wanted(given: &Option<String>, word: &str) -> bool {
    match given {
        Some(given) => given.as_str() == word,
        None => true,
    }
}

/// Does each action that is wanted with a tree that is made, and tells it.
fn act(rt: &HostRuntime, form: (&str, Made), levels: u32, wanted: &Option<String>) -> Result<()> {
    let (name, made) = form;
    for (word, action) in ACTIONS {
        if is_wanted(wanted, word) {
            let told = made.act(rt.alloc(), levels, action)?;
            if told > 0 {
                println!(rt; "{name} {word}: {levels} levels, {told} bytes")?;
            } else {
                println!(rt; "{name} {word}: {levels} levels")?;
            }
        }
    }
    Ok(())
}

fn main(rt: HostRuntime) -> Result<()> {
    let mut arguments = env::args(&rt)?.skip(1);
    let levels = match arguments.next() {
        Some(word) => word.as_str().parse::<u32>()?,
        None => bail!("usage: nested_json LEVELS [FORM [ACTION]]"),
    };
    let wanted = arguments.next();
    let action = arguments.next();
    for (name, form) in FORMS {
        if is_wanted(&wanted, name) {
            tell(&rt, name, form, levels)?;
        }
    }
    for (name, rewritten) in REWRITTEN {
        if is_wanted(&wanted, name) {
            rewritten.rewrite(rt.alloc(), levels)?;
            println!(rt; "{name}: {levels} levels")?;
        }
    }
    for form in MADE {
        if is_wanted(&wanted, form.0) {
            act(&rt, form, levels, &action)?;
        }
    }
    Ok(())
}
