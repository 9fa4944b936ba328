//! Reads a document in AST JSON from standard input, adds `__typename` to each selection set, and prints it.
#![tactic(auto)]

use anyhow::Result;
use graphql_ast::ast::Document;
use graphql_ast::name;
use graphql_ast::span::FileId;
use graphql_ast_json::from_well_formed_ast_json_str;
use graphql_rewrite::add_field_everywhere;
use std::io;

fn main(rt: HostRuntime) -> Result<()> {
    let alloc = rt.alloc();
    let text = io::read_to_string(alloc, rt.stdin())?;
    let document: Document = from_well_formed_ast_json_str(alloc, text.as_str(), FileId::new(1))?;
    match add_field_everywhere(alloc, &document, &name!("__typename"))? {
        Some(made) => print!(rt; "{made}")?,
        None => print!(rt; "{document}")?,
    }
    Ok(())
}
