//! Builds a schema and a query, asks for one field more through a node that two documents share, and prints all three.
#![tactic(auto)]

ghost use Rattle.std.specs.Prelude.{◌≡◌, OnOk};
ghost use Rattle.graphql_ast.specs.Node.{node_location, node_value};

use anyhow::Result;
use graphql_ast::ast::{
    Argument, Definition, Document, Field, FieldDefinition, InputValueDefinition,
    ObjectTypeDefinition, OperationDefinition, OperationType, Selection, Value, VariableDefinition,
};
use graphql_ast::node::NodeStr;
use graphql_ast::{Node, name, ty};
use std::alloc::{AllocError, Global};

/// `type Query { product(id: ID!): Product }`
fn query_type(alloc: Global) -> Result<ObjectTypeDefinition, AllocError> {
    let id = InputValueDefinition::new(alloc, name!(id), Node::new(alloc, ty!(ID!))?);
    let product = FieldDefinition {
        arguments: vec![in alloc; Node::new(alloc, id)?]?,
        ..FieldDefinition::new(alloc, name!(product), ty!(Product))
    };
    Ok(ObjectTypeDefinition {
        fields: vec![in alloc; Node::new(alloc, product)?]?,
        ..ObjectTypeDefinition::new(alloc, name!(Query))
    })
}

/// `type Product { name: String! prices: [Int!]! }`, described.
fn product_type(alloc: Global) -> Result<ObjectTypeDefinition, AllocError> {
    let name = FieldDefinition::new(alloc, name!(name), ty!(String!));
    let prices = FieldDefinition::new(alloc, name!(prices), ty!(in alloc; [Int!]!)?);
    Ok(ObjectTypeDefinition {
        description: Some(NodeStr::new_str(alloc, "What the shop sells")?),
        fields: vec![in alloc; Node::new(alloc, name)?, Node::new(alloc, prices)?]?,
        ..ObjectTypeDefinition::new(alloc, name!(Product))
    })
}

fn schema(alloc: Global) -> Result<Document, AllocError> {
    let mut document = Document::new(alloc);
    document.push(alloc, query_type(alloc)?)?;
    document.push(alloc, product_type(alloc)?)?;
    Ok(document)
}

/// The document of `query Shop($id: ID!) { product(id: $id) { name prices } }`.
fn shop(alloc: Global) -> Result<Document, AllocError> {
    let id = Node::new(alloc, Value::Variable(name!(id)))?;
    let product = Field {
        arguments: vec![in alloc; Argument::new_node(alloc, name!(id), id)?]?,
        selection_set: vec![in alloc;
            Selection::field(alloc, Field::new(alloc, name!(name)))?,
            Selection::field(alloc, Field::new(alloc, name!(prices)))?,
        ]?,
        ..Field::new(alloc, name!(product))
    };
    let id = VariableDefinition::new(alloc, name!(id), Node::new(alloc, ty!(ID!))?);
    let query = OperationDefinition {
        name: Some(name!(Shop)),
        variables: vec![in alloc; Node::new(alloc, id)?]?,
        selection_set: vec![in alloc; Selection::field(alloc, product)?]?,
        ..OperationDefinition::new(alloc, OperationType::Query)
    };
    let mut document = Document::new(alloc);
    document.push(alloc, query)?;
    Ok(document)
}

/// Asks for the name of the field's type too, after what is selected of it. Who shares the field sees nothing of that.
fn select_type_name(alloc: Global, field: &mut Node<Field>) -> Result<(), AllocError>
    ensures name { OnOk result ((node_value field.new).name ≡ (node_value field.old).name) }
    ensures location { node_location field.new ≡ node_location field.old }
{
    let type_name = Selection::field(alloc, Field::new(alloc, name!("__typename")))?;
    field.make_mut()?.selection_set.push(type_name)?;
    Ok(())
}

/// Asks for the name of the type in each field of the query of which something is selected.
fn select_in_each(alloc: Global, query: &mut Node<OperationDefinition>) -> Result<(), AllocError> {
    for selection in &mut query.make_mut()?.selection_set {
        if let Selection::Field(field) = selection {
            if !field.selection_set.is_empty() {
                select_type_name(alloc, field)?;
            }
        }
    }
    Ok(())
}

/// A copy of the document whose operations ask for the names of types.
fn with_type_names(alloc: Global, document: &Document) -> Result<Document, AllocError> {
    let mut copy = document.clone()?;
    for definition in &mut copy.definitions {
        if let Definition::OperationDefinition(operation) = definition {
            select_in_each(alloc, operation)?;
        }
    }
    Ok(copy)
}

fn main(rt: HostRuntime) -> Result<()> {
    let alloc = rt.alloc();
    println!(rt; "{}", schema(alloc)?)?;
    let asked = shop(alloc)?;
    let sent = with_type_names(alloc, &asked)?;
    print!(rt; "{asked}\n{sent}")?;
    Ok(())
}
