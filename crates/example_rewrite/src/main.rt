//! A rewriter of one's own: in one pass each field `user` becomes `account`, each selection set asks for `__typename`, and
//! each `@client` goes. Its contract says that nothing else changes. Then aliases go, by a recursion of one's own.
#![tactic(auto)]

mod recursion;

ghost use Rattle.std.specs.Prelude.{codes};
ghost use Rattle.graphql_ast.specs.Leaves.{name_tree};
ghost use Rattle.graphql_rewrite.specs.DirectiveRewritings.{without_directive};
ghost use Rattle.graphql_rewrite.specs.FieldRewritings.{renamed_field, with_field_once};
ghost use Rattle.graphql_rewrite.specs.Rewritings.{unchanged};

use crate::recursion::{clear_document, without_aliases};
use anyhow::Result;
use graphql_ast::ast::{
    Argument, Directive, DirectiveList, Document, Field, OperationDefinition, OperationType,
    Selection, Value, VariableDefinition,
};
use graphql_ast::{Name, Node, name, ty, value};
use graphql_rewrite::{
    AddField, Rebuilt, RemoveDirective, RenameFields, Rewriter, rebuild_document,
};
use std::alloc::{AllocError, Global};

/// What is made of fields, sets and directives.
#[derive(Drop)]
struct Tidy {
    account: Name,
    type_name: Name,
}

impl Rewriter for Tidy {
    ghost rewriting = { λ tidy. record unchanged {
      directives = without_directive (codes "client");
      field = renamed_field (codes "user") (name_tree tidy.account);
      selections = with_field_once (name_tree tidy.type_name);
    } };

    fn value(&self, _alloc: Global, _old: &Value) -> Rebuilt<Value> {
        Ok(None)
    }

    fn arguments(&self, _alloc: Global, _old: &[Node<Argument>]) -> Rebuilt<Vec<Node<Argument>>> {
        Ok(None)
    }

    fn directives(&self, alloc: Global, old: &[Node<Directive>]) -> Rebuilt<Vec<Node<Directive>>> {
        RemoveDirective { name: "client" }.directives(alloc, old)
    }

    fn field(&self, alloc: Global, old: &Field) -> Rebuilt<Field> {
        let rename = RenameFields {
            from: "user",
            to: &self.account,
        };
        rename.field(alloc, old)
    }

    fn selections(&self, alloc: Global, old: &[Selection]) -> Rebuilt<Vec<Selection>> {
        let add = AddField {
            name: &self.type_name,
        };
        add.selections(alloc, old)
    }
}

/// `id: $id`
fn id(alloc: Global) -> Result<Node<Argument>, AllocError> {
    let variable = Node::new(alloc, value!(in alloc; $id)?)?;
    Argument::new_node(alloc, name!(id), variable)
}

/// `me: user(id: $id) @client { name }`
fn user(alloc: Global) -> Result<Selection, AllocError> {
    let mut user = Field {
        alias: Some(name!(me)),
        ..Field::new(alloc, name!(user))
    };
    user.arguments.push(id(alloc)?)?;
    user.directives = DirectiveList::of(alloc, Directive::new(alloc, name!(client)))?;
    let name = Selection::field(alloc, Field::new(alloc, name!(name)))?;
    user.selection_set.push(name)?;
    Selection::field(alloc, user)
}

/// `query($id: ID!) { me: user(id: $id) @client { name } }`
fn query(alloc: Global) -> Result<Document, AllocError> {
    let id = VariableDefinition::new(alloc, name!(id), Node::new(alloc, ty!(ID!))?);
    let query = OperationDefinition {
        variables: vec![in alloc; Node::new(alloc, id)?]?,
        selection_set: vec![in alloc; user(alloc)?]?,
        ..OperationDefinition::new(alloc, OperationType::Query)
    };
    let mut document = Document::new(alloc);
    document.push(alloc, query)?;
    Ok(document)
}

fn main(rt: HostRuntime) -> Result<()> {
    let alloc = rt.alloc();
    let document = query(alloc)?;
    let tidy = Tidy {
        account: name!(account),
        type_name: name!("__typename"),
    };
    print!(rt; "{document}")?;
    match rebuild_document(alloc, &tidy, &document)? {
        Some(made) => print!(rt; "{made}")?,
        None => println!(rt; "nothing to change")?,
    }
    let mut second = document.clone()?;
    clear_document(&mut second)?;
    print!(rt; "{second}")?;
    let user = user(alloc)?;
    let made = without_aliases(alloc, vec![in alloc; user]?.as_slice())?;
    if let Some(Selection::Field(field)) = made.first() {
        println!(rt; "{field}")?;
    }
    Ok(())
}
