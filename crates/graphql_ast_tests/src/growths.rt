//! How often calls ask for memory. A test `NAME_built` makes what the calls are given, and `NAME_called` makes it and calls.
//! Where a request of a call is refused, the test fails, and says which call it was, and how often that asks. With
//! `tools/refused_growths.py` each is refused in turn: each of these messages has to come as often as it says, and
//! `NAME_called` has to ask so much more often than `NAME_built`.
ghost use Rattle.std.specs.Prelude.{◌≡◌, None};

use crate::checks::check_case;
use graphql_ast::ast::{Document, Serialize, Value};
use graphql_ast::serialize::{PrintError, Syntax};
use graphql_ast::sink::{SinkFault, TextSink};
use std::alloc::{AllocError, Global};
use std::process::Abort;
use worked_trees::definitions::definition;
use worked_trees::executable::{
    field, field_selection, fragment_definition, fragment_spread, inline_fragment,
    inline_selection, operation_definition, spread_selection, variable_definition,
};
use worked_trees::type_extensions::{
    enum_type_extension, input_object_type_extension, interface_type_extension,
    object_type_extension, scalar_type_extension, schema_extension, union_type_extension,
};
use worked_trees::types::{
    enum_type_definition, enum_value_definition, field_definition, input_object_type_definition,
    interface_type_definition, object_type_definition, scalar_type_definition, schema_definition,
    union_type_definition,
};
use worked_trees::values::{
    directive, directive_definition, directive_list, input_value_definition, value,
};

/// Takes all bytes, and asks for no memory.
#[derive(Drop)]
struct Open {
    taken: usize,
}

impl TextSink for Open {
    ghost taken = { λ sink. None };

    ghost fault_count = { λ sink. 0 };

    fn put(&mut self, bytes: &[u8]) -> Result<usize, SinkFault> {
        self.taken = self.taken.saturating_add(bytes.len());
        Ok(bytes.len())
    }

    fn faults(&self) -> u64 {
        0
    }
}

/// What is made of a tree: nothing, or a print at the greatest level, which overflows, and one at level 0.
#[derive(Clone, Copy, PartialEq, Eq, Debug, Drop)]
enum Calls {
    Nothing,
    Prints,
}

/// A tree is well formed, unless it is the empty document, and has groups where a print of it asks for memory. To find
/// this asks for none.
fn check_built<T: Syntax>(rt: &impl Abort, tree: &T, has_groups: bool, takes: &str) {
    let is_empty_document = takes == "an empty document takes 0";
    check_case(rt, &takes, tree.is_well_formed(), !is_empty_document);
    let nesting = tree.find_depths().map(|depths| depths.nesting);
    assert!(rt;
        nesting.is_some_and(|nesting| (nesting > 0) == has_groups),
        "{takes}"
    );
}

/// A print at the greatest level, which overflows where a tree has groups, and one at level 0.
fn check_prints<T: Syntax>(rt: &impl Abort, tree: &T, has_groups: bool, takes: &str) {
    let flat = Serialize::new(tree).no_indent();
    let mut sink = Open { taken: 0 };
    let above = flat.initial_indent_level(usize::MAX).print_to(&mut sink);
    let wanted = if has_groups {
        Err(PrintError::LevelOverflow)
    } else {
        Ok(())
    };
    assert_eq!(rt; above, wanted, "a print that overflows takes 0");
    assert!(rt; sink.taken == 0 || !has_groups);
    check_case(rt, &takes, flat.print_to(&mut sink), Ok(()));
}

fn check<T: Syntax + Drop>(
    rt: &impl Abort,
    calls: Calls,
    made: Result<T, AllocError>,
    takes: &str,
) {
    let Ok(tree) = made else {
        return;
    };
    let has_groups = !takes.ends_with("takes 0");
    check_built(rt, &tree, has_groups, takes);
    if calls == Calls::Prints {
        check_prints(rt, &tree, has_groups, takes);
    }
}

fn check_values(rt: &impl Abort, calls: Calls, alloc: Global) {
    check(rt, calls, value(alloc), "a value takes 1");
    check(rt, calls, directive(alloc), "a directive takes 1");
    let made = directive_list(alloc);
    check(rt, calls, made, "a list of directives takes 1");
    let made = input_value_definition(alloc);
    check(rt, calls, made, "an input value takes 2");
    let made = directive_definition(alloc);
    check(rt, calls, made, "a directive definition takes 2");
}

fn check_executable(rt: &impl Abort, calls: Calls, alloc: Global) {
    check(rt, calls, variable_definition(alloc), "a variable takes 2");
    let made = fragment_spread(alloc);
    check(rt, calls, made, "a fragment spread takes 1");
    let made = spread_selection(alloc);
    check(rt, calls, made, "a selected spread takes 2");
    let made = inline_fragment(alloc);
    check(rt, calls, made, "an inline fragment takes 2");
    let made = inline_selection(alloc);
    check(rt, calls, made, "a selected inline fragment takes 2");
}

fn check_fields_and_definitions(rt: &impl Abort, calls: Calls, alloc: Global) {
    check(rt, calls, field(alloc), "a field takes 2");
    let made = field_selection(alloc);
    check(rt, calls, made, "a selected field takes 2");
    let made = operation_definition(alloc);
    check(rt, calls, made, "an operation takes 3");
    check(rt, calls, fragment_definition(alloc), "a fragment takes 2");
}

fn check_types(rt: &impl Abort, calls: Calls, alloc: Global) {
    let made = field_definition(alloc);
    check(rt, calls, made, "a field definition takes 2");
    let made = enum_value_definition(alloc);
    check(rt, calls, made, "an enum value definition takes 1");
    check(rt, calls, schema_definition(alloc), "a schema takes 1");
    let made = scalar_type_definition(alloc);
    check(rt, calls, made, "a scalar type takes 1");
    let made = object_type_definition(alloc);
    check(rt, calls, made, "an object type takes 2");
    let made = interface_type_definition(alloc);
    check(rt, calls, made, "an interface type takes 2");
}

fn check_types_of_members(rt: &impl Abort, calls: Calls, alloc: Global) {
    let made = union_type_definition(alloc);
    check(rt, calls, made, "a union type takes 1");
    let made = enum_type_definition(alloc);
    check(rt, calls, made, "an enum type takes 1");
    let made = input_object_type_definition(alloc);
    check(rt, calls, made, "an input object type takes 2");
}

fn check_type_extensions(rt: &impl Abort, calls: Calls, alloc: Global) {
    let made = schema_extension(alloc);
    check(rt, calls, made, "an extended schema takes 1");
    let made = scalar_type_extension(alloc);
    check(rt, calls, made, "an extended scalar type takes 1");
    let made = object_type_extension(alloc);
    check(rt, calls, made, "an extended object type takes 2");
    let made = interface_type_extension(alloc);
    check(rt, calls, made, "an extended interface type takes 2");
}

fn check_extensions_of_members(rt: &impl Abort, calls: Calls, alloc: Global) {
    let made = union_type_extension(alloc);
    check(rt, calls, made, "an extended union type takes 1");
    let made = enum_type_extension(alloc);
    check(rt, calls, made, "an extended enum type takes 1");
    let made = input_object_type_extension(alloc);
    check(rt, calls, made, "an extended input object type takes 2");
}

fn check_documents(rt: &impl Abort, calls: Calls, alloc: Global) {
    let operation = "the definition of an operation takes 3";
    check(rt, calls, definition(alloc, 0), operation);
    let extension = "the definition of an extension takes 1";
    check(rt, calls, definition(alloc, 11), extension);
    check(rt, calls, document(alloc), "a document takes 3");
    let made = Ok(Document::new(alloc));
    check(rt, calls, made, "an empty document takes 0");
    check(rt, calls, Ok(Value::Null), "null takes 0");
}

/// The document of an operation.
fn document(alloc: Global) -> Result<Document, AllocError> {
    let mut document = Document::new(alloc);
    document.push_node(definition(alloc, 0)?)?;
    Ok(document)
}

fn check_all(rt: &impl Abort, calls: Calls, alloc: Global) {
    check_values(rt, calls, alloc);
    check_executable(rt, calls, alloc);
    check_fields_and_definitions(rt, calls, alloc);
    check_types(rt, calls, alloc);
    check_types_of_members(rt, calls, alloc);
    check_type_extensions(rt, calls, alloc);
    check_extensions_of_members(rt, calls, alloc);
    check_documents(rt, calls, alloc);
}

#[test]
fn each_kind_built(rt: HostRuntime) {
    check_all(&rt, Calls::Nothing, rt.alloc());
}

/// Each print asks for a stack of values, if it has groups, one of types, if it has types of lists, and one of selection
/// sets, if it may have some.
#[test]
fn each_kind_called(rt: HostRuntime) {
    check_all(&rt, Calls::Prints, rt.alloc());
}
