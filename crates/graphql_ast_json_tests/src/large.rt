//! Trees that are large, from AST JSON and as it: long lists and long texts, and 300 nodes in one another, of each form that has
//! them. A text of JSON nests less deep.
use crate::checks::check_equal;
use graphql_ast::ast::{
    Argument, Definition, Directive, Document, Field, FieldDefinition, FragmentDefinition,
    InlineFragment, InputValueDefinition, OperationDefinition, OperationType, Selection, Type,
    Value, VariableDefinition,
};
use graphql_ast::node::Node;
use graphql_ast::{name, ty};
use graphql_ast_json::{AstJson, from_ast_json_str};
use graphql_base::span::FileId;
use std::alloc::{AllocError, Global};
use std::process::Abort;

const LEVELS: usize = 300;

/// A text that stands so many times between two others, with a comma between two.
fn repeated(
    rt: &impl Abort,
    alloc: Global,
    ends: (&str, &str),
    item: &str,
    count: usize,
) -> String {
    let mut text = String::from_str(alloc, ends.0).expect(rt, "memory");
    for index in 0..count {
        text.push_str(if index == 0 { "" } else { "," })
            .expect(rt, "memory");
        text.push_str(item).expect(rt, "memory");
    }
    text.push_str(ends.1).expect(rt, "memory");
    text
}

/// A tree that is read of a text, and again of the JSON that it is written as.
fn check_read<T: AstJson + PartialEq + Drop>(rt: &impl Abort, alloc: Global, text: &str) -> T {
    let Ok(tree) = from_ast_json_str::<T>(alloc, text, FileId::new(1)) else {
        panic!(rt; "a tree");
    };
    check_written(rt, alloc, &tree);
    tree
}

/// What a tree is written as is read as the tree.
fn check_written<T: AstJson + PartialEq + Drop>(rt: &impl Abort, alloc: Global, tree: &T) {
    let json = tree.to_ast_json(alloc).expect(rt, "memory");
    match T::from_ast_json(alloc, &json, FileId::new(1)) {
        Ok(again) => assert!(rt; again == *tree),
        Err(error) => panic!(rt; "{error}"),
    }
}

const FIELD: &str = r#"{"kind":"Field","name":{"kind":"Name","value":"a"}}"#;

const OPERATION: (&str, &str) = (
    r#"{"kind":"OperationDefinition","operation":"query",
    "selectionSet":{"kind":"SelectionSet","selections":["#,
    "]}}",
);

const SCALAR: &str = r#"{"kind":"ScalarTypeDefinition","name":{"kind":"Name","value":"A"}}"#;

/// So many lists, in which an object stands in each.
fn lists(alloc: Global) -> Result<Node<Value>, AllocError> {
    let mut node = Node::new(alloc, Value::Null)?;
    for _ in 0..LEVELS / 2 {
        node = Node::new(alloc, Value::Object(vec![in alloc; (name!(k), node)]?))?;
        node = Node::new(alloc, Value::List(vec![in alloc; node]?))?;
    }
    Ok(node)
}

fn list_types(alloc: Global) -> Result<Type, AllocError> {
    let mut ty = ty!(Int);
    for _ in 0..LEVELS {
        ty = ty.list(alloc)?.non_null();
    }
    Ok(ty)
}

/// A field with an inline fragment of these selections.
fn set_around(alloc: Global, set: Vec<Selection>) -> Result<Vec<Selection>, AllocError> {
    let mut fragment = InlineFragment::new(alloc);
    fragment.selection_set = set;
    let mut field = Field::new(alloc, name!(a));
    field.selection_set = vec![in alloc; Selection::inline_fragment(alloc, fragment)?]?;
    Ok(vec![in alloc; Selection::field(alloc, field)?]?)
}

/// Fields, in each of which an inline fragment stands.
fn sets(alloc: Global) -> Result<Vec<Selection>, AllocError> {
    let mut set = vec![in alloc; Selection::field(alloc, Field::new(alloc, name!(a)))?]?;
    for _ in 0..LEVELS / 2 {
        set = set_around(alloc, set)?;
    }
    Ok(set)
}

fn directive(alloc: Global) -> Result<Directive, AllocError> {
    let argument = Argument::new_node(alloc, name!(x), lists(alloc)?)?;
    let mut directive = Directive::new(alloc, name!(d));
    directive.arguments.push(argument)?;
    Ok(directive)
}

/// The list types are those of a variable with lists as a default value.
fn variable(alloc: Global) -> Result<VariableDefinition, AllocError> {
    let ty = Node::new(alloc, list_types(alloc)?)?;
    Ok(VariableDefinition {
        default_value: Some(lists(alloc)?),
        ..VariableDefinition::new(alloc, name!(v), ty)
    })
}

fn input(alloc: Global) -> Result<InputValueDefinition, AllocError> {
    let ty = Node::new(alloc, list_types(alloc)?)?;
    Ok(InputValueDefinition::new(alloc, name!(x), ty))
}

fn fragment(alloc: Global) -> Result<FragmentDefinition, AllocError> {
    let mut fragment = FragmentDefinition::new(alloc, name!(F), name!(T));
    fragment.selection_set = sets(alloc)?;
    fragment
        .directives
        .0
        .push(Node::new(alloc, directive(alloc)?)?)?;
    Ok(fragment)
}

fn operation(alloc: Global) -> Result<OperationDefinition, AllocError> {
    let mut query = OperationDefinition::new(alloc, OperationType::Query);
    query.variables.push(Node::new(alloc, variable(alloc)?)?)?;
    query.selection_set = sets(alloc)?;
    Ok(query)
}

fn field_definition(alloc: Global) -> Result<FieldDefinition, AllocError> {
    Ok(FieldDefinition::new(alloc, name!(f), list_types(alloc)?))
}

fn deep_document(alloc: Global) -> Result<Document, AllocError> {
    let mut document = Document::new(alloc);
    document.push(alloc, operation(alloc)?)?;
    document.push(alloc, fragment(alloc)?)?;
    Ok(document)
}

fn selection(alloc: Global) -> Result<Selection, AllocError> {
    let mut field = Field::new(alloc, name!(f));
    field.selection_set = sets(alloc)?;
    Selection::field(alloc, field)
}

fn definition(alloc: Global) -> Result<Definition, AllocError> {
    Ok(Definition::from(Node::new(alloc, operation(alloc)?)?))
}

/// A tree that was made: what it is written as is read as it.
fn check_made<T: AstJson + PartialEq + Drop>(
    rt: &impl Abort,
    alloc: Global,
    made: Result<T, AllocError>,
) {
    let tree = made.expect(rt, "memory");
    check_written(rt, alloc, &tree);
}

fn check_long_list(rt: &impl Abort, alloc: Global) {
    let ends = (r#"{"kind":"ListValue","values":["#, "]}");
    let text = repeated(rt, alloc, ends, r#"{"kind":"NullValue"}"#, 5000);
    let list = check_read::<Value>(rt, alloc, text.as_str());
    check_equal(rt, list.as_list().map(|items| items.len()), Some(5000));
}

fn check_long_operation(rt: &impl Abort, alloc: Global) {
    let text = repeated(rt, alloc, OPERATION, FIELD, 5000);
    let query = check_read::<OperationDefinition>(rt, alloc, text.as_str());
    check_equal(rt, query.selection_set.len(), 5000);
}

fn check_long_document(rt: &impl Abort, alloc: Global) {
    let ends = (r#"{"kind":"Document","definitions":["#, "]}");
    let text = repeated(rt, alloc, ends, SCALAR, 17_000);
    check_equal(rt, text.len() > 1 << 20, true);
    let document = check_read::<Document>(rt, alloc, text.as_str());
    check_equal(rt, document.definitions.len(), 17_000);
}

fn check_long_string(rt: &impl Abort, alloc: Global) {
    let letters = "x".repeat(alloc, (1 << 20) + 1).expect(rt, "memory");
    let text = format!(in alloc; "{{\"kind\":\"StringValue\",\"value\":\"{letters}\"}}");
    let string = check_read::<Value>(rt, alloc, text.expect(rt, "memory").as_str());
    check_equal(rt, string.as_str(), Some(letters.as_str()));
}

fn check_deep_values(rt: &impl Abort, alloc: Global) {
    check_made(rt, alloc, lists(alloc));
    check_made(rt, alloc, directive(alloc));
    check_made(rt, alloc, list_types(alloc));
    check_made(rt, alloc, variable(alloc));
    check_made(rt, alloc, input(alloc));
    check_made(rt, alloc, field_definition(alloc));
}

fn check_deep_selections(rt: &impl Abort, alloc: Global) {
    check_made(rt, alloc, selection(alloc));
    check_made(rt, alloc, fragment(alloc));
    check_made(rt, alloc, operation(alloc));
    check_made(rt, alloc, definition(alloc));
    check_made(rt, alloc, deep_document(alloc));
}

/// Long lists and texts, and deep trees. The document is of a text above 1 MiB, and so is the string.
#[test]
fn large_trees_are_read_and_written(rt: HostRuntime) {
    let alloc = rt.alloc();
    check_long_list(&rt, alloc);
    check_long_operation(&rt, alloc);
    check_long_document(&rt, alloc);
    check_long_string(&rt, alloc);
    check_deep_values(&rt, alloc);
    check_deep_selections(&rt, alloc);
}
