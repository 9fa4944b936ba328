//! Prints at their edges.
use crate::checks::{check_case, check_displayed, check_equal};
use crate::samples::object;
use graphql_base::name;
use graphql_base::node::{Node, NodeStr};
use graphql_checks::sinks::Narrow;
use graphql_text::engine::PrintError;
use graphql_type_system::field_definition::FieldDefinition;
use graphql_type_system::object_type::ObjectTypeDefinition;
use graphql_type_system::scalar_type::ScalarTypeDefinition;
use graphql_values::ty;
use std::alloc::{AllocError, Global};
use std::process::Abort;

fn described_scalar(alloc: Global, description: &str) -> Result<ScalarTypeDefinition, AllocError> {
    Ok(ScalarTypeDefinition {
        description: Some(NodeStr::new_str(alloc, description)?),
        ..ScalarTypeDefinition::new(alloc, name!(A))
    })
}

#[test]
fn descriptions(rt: HostRuntime) {
    for (description, wanted) in [
        ("", "\"\"\nscalar A"),
        ("say \"hi\"", "\"\"\"\nsay \"hi\"\n\"\"\"\nscalar A"),
        ("C:\\", "\"\"\"\nC:\\\n\"\"\"\nscalar A"),
        ("a\r\nb", "\"a\\r\\nb\"\nscalar A"),
        ("a\n\nb", "\"\"\"\na\n\nb\n\"\"\"\nscalar A"),
    ] {
        let scalar = described_scalar(rt.alloc(), description).expect(&rt, "memory");
        check_displayed(&rt, rt.alloc(), &scalar, wanted);
    }
}

/// A type of so many fields.
fn object_of(alloc: Global, count: usize) -> Result<ObjectTypeDefinition, AllocError> {
    let mut fields = Vec::new(alloc);
    for _ in 0..count {
        let field = FieldDefinition::new(alloc, name!(f), ty!(Int));
        fields.push(Node::new(alloc, field)?)?;
    }
    Ok(ObjectTypeDefinition {
        fields,
        ..ObjectTypeDefinition::new(alloc, name!(T))
    })
}

fn check_levels(rt: &impl Abort, alloc: Global) {
    let object = object_of(alloc, 1).expect(rt, "memory");
    let print = object.serialize().no_indent();
    let last = print.initial_indent_level(usize::MAX - 1).to_text(alloc);
    let text = last.expect(rt, "memory");
    check_equal(rt, text.as_str(), "type T { f: Int }");
    let above = print.initial_indent_level(usize::MAX).to_text(alloc);
    check_equal(rt, above.err(), Some(PrintError::LevelOverflow));
}

fn check_wide(rt: &impl Abort, alloc: Global) {
    let wide = object_of(alloc, 10_000).expect(rt, "memory");
    let text = wide.serialize().no_indent().to_text(alloc);
    check_equal(rt, text.expect(rt, "memory").len(), 70_010);
    let same = wide.clone().expect(rt, "memory");
    check_equal(rt, same == wide, true);
}

/// The last level that there is, and ten thousand fields.
#[test]
fn levels_at_the_edge(rt: HostRuntime) {
    check_levels(&rt, rt.alloc());
    check_wide(&rt, rt.alloc());
}

fn check_fault(rt: &impl Abort, alloc: Global, object: &ObjectTypeDefinition, room: usize) {
    let mut sink = Narrow::with_room(alloc, room);
    let answer = object.serialize().no_indent().print_to(&mut sink);
    check_case(rt, room, answer, Err(PrintError::Sink));
    check_case(rt, room, sink.faults, 1);
}

#[test]
fn a_sink_that_faults_after_each_byte(rt: HostRuntime) {
    let object = object(rt.alloc()).expect(&rt, "memory");
    for room in 0..63 {
        check_fault(&rt, rt.alloc(), &object, room);
    }
    let mut sink = Narrow::with_room(rt.alloc(), 63);
    let answer = object.serialize().no_indent().print_to(&mut sink);
    check_equal(&rt, answer, Ok(()));
}
