//! Trees in one another, and wide ones, and what is done with them.

use crate::rewriting::{fields, lists};
use anyhow::{Result, bail};
use ast_json_text::{WriteAstJson, to_ast_json_text};
use graphql_ast::ast::{
    Definition, Document, Field, FieldDefinition, FragmentDefinition, InputValueDefinition,
    OperationDefinition, OperationType, Selection, Type, Value, VariableDefinition,
};
use graphql_ast::serialize::{Serialize, Syntax};
use graphql_ast::span::FileId;
use graphql_ast::{Node, name, ty};
use graphql_ast_json::AstJson;
use std::alloc::{AllocError, Global};
use std::hash::{DefaultHasher, Hash, Hasher};
use std::mem::forget;

/// What is made.
#[derive(Clone, Copy)]
pub enum Made {
    Lists,
    Objects,
    Selection,
    Field,
    Fragment,
    Definition,
    Document,
    VariableTypes,
    ArgumentTypes,
    FieldTypes,
    WideSet,
}

/// What is done with a tree. It is dropped by `Drop` alone, and else kept.
#[derive(Clone, Copy)]
pub enum Action {
    Print,
    Check,
    Compare,
    Hash,
    Clone,
    Drop,
    Write,
    WriteText,
    ReadBack,
}

/// So many objects in one another.
fn objects(alloc: Global, levels: u32) -> Result<Value, AllocError> {
    let mut value = Value::Null;
    for _ in 0..levels {
        let node = Node::new(alloc, value)?;
        value = Value::Object(vec![in alloc; (name!(k), node)]?);
    }
    Ok(value)
}

/// The name in so many lists.
fn list_types(alloc: Global, levels: u32) -> Result<Type, AllocError> {
    let mut ty = ty!(Int);
    for _ in 0..levels {
        ty = ty.list(alloc)?;
    }
    Ok(ty)
}

/// So many selection sets in one another.
fn operation(alloc: Global, levels: u32) -> Result<OperationDefinition, AllocError> {
    let mut query = OperationDefinition::new(alloc, OperationType::Query);
    query.selection_set.push(fields(alloc, levels)?)?;
    Ok(query)
}

/// Their field, by itself.
fn field(alloc: Global, levels: u32) -> Result<Field, AllocError> {
    let mut field = Field::new(alloc, name!(f));
    field.selection_set.push(fields(alloc, levels)?)?;
    Ok(field)
}

fn fragment(alloc: Global, levels: u32) -> Result<FragmentDefinition, AllocError> {
    let mut fragment = FragmentDefinition::new(alloc, name!(F), name!(T));
    fragment.selection_set.push(fields(alloc, levels)?)?;
    Ok(fragment)
}

fn definition(alloc: Global, levels: u32) -> Result<Definition, AllocError> {
    let operation = Node::new(alloc, operation(alloc, levels)?)?;
    Ok(Definition::from(operation))
}

fn document(alloc: Global, levels: u32) -> Result<Document, AllocError> {
    let mut document = Document::new(alloc);
    document.push(alloc, operation(alloc, levels)?)?;
    Ok(document)
}

fn variable(alloc: Global, levels: u32) -> Result<VariableDefinition, AllocError> {
    let ty = Node::new(alloc, list_types(alloc, levels)?)?;
    Ok(VariableDefinition::new(alloc, name!(v), ty))
}

fn argument(alloc: Global, levels: u32) -> Result<InputValueDefinition, AllocError> {
    let ty = Node::new(alloc, list_types(alloc, levels)?)?;
    Ok(InputValueDefinition::new(alloc, name!(x), ty))
}

fn field_definition(alloc: Global, levels: u32) -> Result<FieldDefinition, AllocError> {
    Ok(FieldDefinition::new(alloc, name!(f), list_types(alloc, levels)?))
}

/// So many fields in one set.
fn wide_set(alloc: Global, count: u32) -> Result<OperationDefinition, AllocError> {
    let mut query = OperationDefinition::new(alloc, OperationType::Query);
    for _ in 0..count {
        let field = Selection::field(alloc, Field::new(alloc, name!(a)))?;
        query.selection_set.push(field)?;
    }
    Ok(query)
}

fn hash_of<T: Hash>(tree: &T) -> u64 {
    let mut hasher = DefaultHasher::new();
    tree.hash(&mut hasher);
    hasher.finish()
}

/// The tree of the JSON that a tree is written as.
fn read_back<T: AstJson>(alloc: Global, tree: &T) -> Result<T> {
    let json = tree.to_ast_json(alloc)?;
    let read = T::from_ast_json(alloc, &json, FileId::new(1));
    forget(json);
    Ok(read?)
}

/// Does it with the first of two equal trees that share nothing. It tells a number: of a print how many bytes it has, else 0.
fn act<T: Syntax + WriteAstJson + Clone + PartialEq + Hash + Drop>(
    alloc: Global,
    action: Action,
    made: (Result<T, AllocError>, Result<T, AllocError>),
) -> Result<usize> {
    let (tree, other) = (made.0?, made.1?);
    let mut told = 0;
    let holds = match action {
        Action::Print => {
            let text = Serialize::new(&tree).no_indent().to_text(alloc)?;
            told = text.len();
            true
        }
        Action::Check => tree.is_well_formed(),
        Action::Compare => tree == other,
        Action::Hash => hash_of(&tree) == hash_of(&other),
        Action::Clone => {
            forget(tree.clone()?);
            true
        }
        Action::Drop => {
            forget(other);
            return Ok(0);
        }
        Action::Write => {
            forget(tree.to_ast_json(alloc)?);
            true
        }
        Action::WriteText => {
            forget(to_ast_json_text(alloc, &tree)?);
            true
        }
        Action::ReadBack => {
            let read = read_back(alloc, &tree)?;
            let is_same = read == tree;
            forget(read);
            is_same
        }
    };
    forget(tree);
    forget(other);
    if !holds {
        bail!("two equal trees are told apart, or a well-formed one isn't well formed");
    }
    Ok(told)
}

/// Does it with two trees that this makes.
macro_rules! act_on {
    ($make:ident, $alloc:ident, $levels:ident, $action:ident) => {
        act($alloc, $action, ($make($alloc, $levels), $make($alloc, $levels)))
    };
}

impl Made {
    /// Makes it twice, so many levels deep, and does this with it.
    pub fn act(self, alloc: Global, levels: u32, action: Action) -> Result<usize> {
        match self {
            Made::Lists => act_on!(lists, alloc, levels, action),
            Made::Objects => act_on!(objects, alloc, levels, action),
            Made::Selection => act_on!(fields, alloc, levels, action),
            Made::Field => act_on!(field, alloc, levels, action),
            Made::Fragment => act_on!(fragment, alloc, levels, action),
            Made::Definition => act_on!(definition, alloc, levels, action),
            Made::Document => act_on!(document, alloc, levels, action),
            Made::VariableTypes => act_on!(variable, alloc, levels, action),
            Made::ArgumentTypes => act_on!(argument, alloc, levels, action),
            Made::FieldTypes => act_on!(field_definition, alloc, levels, action),
            Made::WideSet => act_on!(wide_set, alloc, levels, action),
        }
    }
}
