//! Queries of values.
use crate::checks::check_equal;
use graphql_base::name;
use graphql_base::node::Node;
use graphql_base::span::{FileId, SourceSpan};
use graphql_values::value::Value;
use std::alloc::{AllocError, Global};
use std::process::Abort;

/// 1 at a place.
fn placed(alloc: Global, file: u64) -> Result<Node<Value>, AllocError> {
    let one = Value::from_i32(alloc, 1)?;
    Node::new_at(alloc, one, SourceSpan::new(FileId::new(file), 3, 4))
}

/// The list of 1 at a place, and of a variable.
pub(super) fn list(alloc: Global, file: u64) -> Result<Value, AllocError> {
    let items = vec![in alloc;
        placed(alloc, file)?,
        Node::new(alloc, Value::Variable(name!(v)))?,
    ]?;
    Ok(Value::List(items))
}

/// `{a: [1, $v], a: null}`, where `null` is an enum value, and 1 stands at a place.
pub(super) fn object(alloc: Global, file: u64) -> Result<Value, AllocError> {
    let fields = vec![in alloc;
        (name!(a), Node::new(alloc, list(alloc, file)?)?),
        (name!(a), Node::new(alloc, Value::Enum(name!("null")))?),
    ]?;
    Ok(Value::Object(fields))
}

fn check_words(rt: &impl Abort) {
    check_equal(rt, Value::from(()).is_null(), true);
    check_equal(rt, Value::from(true).to_bool(), Some(true));
    let name = Value::Enum(name!(A));
    check_equal(rt, name.as_enum().is_some(), true);
    check_equal(rt, name.as_variable().is_none(), true);
}

fn check_string(rt: &impl Abort, alloc: Global) {
    let value = Value::from_text(alloc, "é\n").expect(rt, "memory");
    check_equal(rt, value.as_str(), Some("é\n"));
    let text = String::from_str(alloc, "é\n").expect(rt, "memory");
    check_equal(rt, value == Value::from(text), true);
}

fn check_number(rt: &impl Abort, alloc: Global) {
    let number = Value::from_i32(alloc, -5).expect(rt, "memory");
    check_equal(rt, number.to_i32(), Some(-5));
}

fn check_object(rt: &impl Abort, alloc: Global) {
    let value = object(alloc, 1).expect(rt, "memory");
    let field = value.as_object().and_then(|fields| fields.first());
    let items = field.and_then(|field| field.1.as_list());
    check_equal(rt, items.map(|items| items.len()), Some(2));
}

#[test]
fn queries(rt: HostRuntime) {
    check_words(&rt);
    check_string(&rt, rt.alloc());
    check_number(&rt, rt.alloc());
    check_object(&rt, rt.alloc());
}
