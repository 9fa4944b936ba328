//! A query is built and printed, in the default layout and on one line.
#![tactic(auto)]

use anyhow::Result;
use graphql_ast::ast::{Argument, Field, OperationDefinition, OperationType, Selection};
use graphql_ast::node::Node;
use graphql_ast::{name, value};

fn main(rt: HostRuntime) -> Result<()> {
    let alloc = rt.alloc();
    let id = Node::new(alloc, value!(in alloc; 4)?)?;
    let mut user = Field::new(alloc, name!(user));
    user.arguments
        .push(Argument::new_node(alloc, name!(id), id)?)?;
    user.selection_set
        .push(Selection::field(alloc, Field::new(alloc, name!(name)))?)?;
    let mut query = OperationDefinition::new(alloc, OperationType::Query);
    query.selection_set.push(Selection::field(alloc, user)?)?;
    println!(rt; "{query}")?;
    println!(rt; "{}", query.serialize().no_indent())?;
    Ok(())
}
