//! What a case asks of trees of a type.
use crate::case::{Case, JsonCase, PrintCase};
use crate::checks::{Check, first_failed};
use crate::difference::Difference;
use anyhow::{Context, Result, bail};
use ast_json_text::{WriteAstJson, to_ast_json_text};
use graphql_ast::serialize::Syntax;
use graphql_ast::span::FileId;
use graphql_ast_json::{AstJsonError, JsonNode, NodeReader, Unknown, parse_json};
use json::Scratch;
use serde_json::Value as Json;
use std::alloc::Global;
use std::fmt::Display;

/// Of a type whose trees are printed, and read.
pub fn tree<T: WriteAstJson + Syntax + Display + PartialEq + Drop>(
    alloc: Global,
    case: &Case,
) -> Result<Option<Difference>> {
    match (&case.print, &case.json) {
        (Some(print), None) => printed::<T>(alloc, print),
        (None, Some(json)) => read::<T>(alloc, json),
        _ => bail!("wanted either `print` or `json`"),
    }
}

/// Of a type that a variant of another has, as a field, which is a selection too: the tree is then printed as that.
pub fn variant<
    T: WriteAstJson + Syntax + Display + PartialEq + Drop,
    Whole: WriteAstJson + Syntax + Display + PartialEq + Drop,
>(alloc: Global, case: &Case) -> Result<Option<Difference>> {
    match (&case.print, tree::<T>(alloc, case)?) {
        (Some(print), None) => printed::<Whole>(alloc, print),
        (_, found) => Ok(found),
    }
}

/// Of a type whose trees are read, and not printed by themselves.
pub fn part<T: WriteAstJson + Drop>(alloc: Global, case: &Case) -> Result<Option<Difference>> {
    match (&case.print, &case.json) {
        (None, Some(json)) => read::<T>(alloc, json),
        _ => bail!("wanted `json`, since such trees aren't printed"),
    }
}

/// Of a tree that was built, as deep as the case says.
pub fn built<T: Syntax + Display>(
    alloc: Global,
    case: &Case,
    tree: &T,
) -> Result<Option<Difference>> {
    let print = case.print.as_ref().context("wanted `print`")?;
    Ok(first_failed(alloc, print, tree)?)
}

/// How deep the tree of a case is, which is told in the place of the tree: in this member, alone.
pub fn depth(case: &Case, member: &str) -> Result<u64> {
    let print = case.print.as_ref().context("wanted `print`")?;
    let depth = print.tree.get(member).and_then(Json::as_u64);
    Ok(depth.context("wanted how deep the tree is")?)
}

/// The first check that the tree of a print doesn't pass, if there is one.
fn printed<T: WriteAstJson + Syntax + Display + PartialEq + Drop>(
    alloc: Global,
    case: &PrintCase,
) -> Result<Option<Difference>> {
    let source = FileId::new(1);
    let tree = T::from_ast_json(alloc, &case.tree, source)?;
    let json = tree.to_ast_json(alloc)?;
    if T::from_ast_json(alloc, &json, source)? != tree {
        let wanted = case.tree.to_string(alloc)?;
        let found = json.to_string(alloc)?;
        return Ok(Some(Difference::new(alloc, Check::AstJson, wanted.as_str(), found.as_str())?));
    }
    if let Some(difference) = text_differs(alloc, &tree, &json)? {
        return Ok(Some(difference));
    }
    Ok(first_failed(alloc, case, &tree)?)
}

/// Where the text that a tree is written as isn't that of the value that it is written as.
fn text_differs<T: WriteAstJson>(
    alloc: Global,
    tree: &T,
    json: &Json,
) -> Result<Option<Difference>> {
    let wanted = json.to_string(alloc)?;
    let found = to_ast_json_text(alloc, tree)?;
    if found == wanted {
        return Ok(None);
    }
    let found = found.as_str();
    Ok(Some(Difference::new(alloc, Check::AstJsonText, wanted.as_str(), found)?))
}

/// Where JSON isn't read, and written again, as the case wants: as it was parsed from its text, or as a value of `serde_json`.
fn read<T: WriteAstJson + Drop>(alloc: Global, case: &JsonCase) -> Result<Option<Difference>> {
    let source = FileId::new(1);
    let unknown = if case.pass_over {
        Unknown::PassOver
    } else {
        Unknown::Refuse
    };
    let text = case.json.to_string(alloc)?;
    let mut scratch = Scratch::new(alloc);
    let parsed = parse_json(alloc, text.as_str(), &mut scratch)?;
    let parsed = parsed.context("wanted JSON that is parsed")?;
    let node = JsonNode::parsed(alloc, &parsed, source, unknown);
    if let Some(difference) = differs(alloc, case, T::read_json(node))? {
        return Ok(Some(difference));
    }
    let node = NodeReader {
        alloc,
        json: &case.json,
        source,
        unknown,
    };
    differs(alloc, case, T::read_ast_json(node))
}

/// Where what was read, or why nothing was, isn't as the case wants.
fn differs<T: WriteAstJson + Drop>(
    alloc: Global,
    case: &JsonCase,
    read: std::result::Result<T, AstJsonError>,
) -> Result<Option<Difference>> {
    let written = case.written.as_ref().unwrap_or(&case.json);
    let (found, is_wanted) = match read {
        Ok(tree) => {
            let json = tree.to_ast_json(alloc)?;
            if let Some(difference) = text_differs(alloc, &tree, &json)? {
                return Ok(Some(difference));
            }
            let is_wanted = case.error.is_none() && json == *written;
            (json.to_string(alloc)?, is_wanted)
        }
        Err(error) => {
            let said = format!(in alloc; "{error}")?;
            let is_wanted = matches!(&case.error, Some(wanted) if *wanted == said);
            (said, is_wanted)
        }
    };
    if is_wanted {
        return Ok(None);
    }
    let json = written.to_string(alloc)?;
    let wanted = case.error.as_ref().unwrap_or(&json);
    Ok(Some(Difference::new(alloc, Check::AstJson, wanted.as_str(), found.as_str())?))
}
