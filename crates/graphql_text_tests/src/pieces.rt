//! Prints whose pieces begin and end at each place of the buffer, which holds 1,024 bytes.
use crate::checks::check_made;
use graphql_base::name::Name;
use graphql_base::node::Node;
use graphql_checks::trees::check_print;
use graphql_text::engine::{Serialize, Syntax};
use graphql_values::input_value_definition::InputValueDefinition;
use graphql_values::literal::{FloatValue, IntValue};
use graphql_values::types::Type;
use graphql_values::value::Value;
use std::alloc::Global;
use std::process::Abort;

fn enum_value(rt: &impl Abort, alloc: Global, text: &str) -> Node<Value> {
    let name = Name::new(alloc, text).expect(rt, "a name");
    Node::new(alloc, Value::Enum(name)).expect(rt, "memory")
}

fn int_value(rt: &impl Abort, alloc: Global, text: &str) -> Node<Value> {
    assert!(rt; IntValue::valid_syntax(text));
    let int = IntValue::new_parsed(alloc, text).expect(rt, "memory");
    Node::new(alloc, Value::Int(int)).expect(rt, "memory")
}

/// A list of a name of so many letters, a piece and one more name, on one line.
fn check_piece(rt: &impl Abort, alloc: Global, filler: usize, piece: Node<Value>, text: &str) {
    let before = "x".repeat(alloc, filler).expect(rt, "memory");
    let first = enum_value(rt, alloc, before.as_str());
    let items = vec![in alloc; first, piece, enum_value(rt, alloc, "y")].expect(rt, "memory");
    let list = Value::List(items);
    let wanted = format!(in alloc; "[{before}, {text}, y]").expect(rt, "memory");
    check_print(alloc, list.serialize().no_indent(), wanted.as_str()).expect(rt, text);
}

fn check_string(rt: &impl Abort, alloc: Global, filler: usize, letters: &str) {
    let string = Value::from_text(alloc, letters).expect(rt, "memory");
    let string = Node::new(alloc, string).expect(rt, "memory");
    let quoted = format!(in alloc; "\"{letters}\"").expect(rt, "memory");
    check_piece(rt, alloc, filler, string, quoted.as_str());
}

fn check_letters(rt: &impl Abort, alloc: Global, filler: usize, letters: &str) {
    let name = enum_value(rt, alloc, letters);
    check_piece(rt, alloc, filler, name, letters);
}

fn float_value(rt: &impl Abort, alloc: Global, text: &str) -> Node<Value> {
    assert!(rt; FloatValue::valid_syntax(text));
    let float = FloatValue::new_parsed(alloc, text).expect(rt, "memory");
    Node::new(alloc, Value::Float(float)).expect(rt, "memory")
}

/// A float of so many digits before the point.
fn check_float(rt: &impl Abort, alloc: Global, filler: usize, digits: &str) {
    let text = format!(in alloc; "{digits}.5").expect(rt, "memory");
    let float = float_value(rt, alloc, text.as_str());
    check_piece(rt, alloc, filler, float, text.as_str());
}

fn check_digits(rt: &impl Abort, alloc: Global, filler: usize, length: usize) {
    let digits = "1".repeat(alloc, length).expect(rt, "memory");
    let int = int_value(rt, alloc, digits.as_str());
    check_piece(rt, alloc, filler, int, digits.as_str());
    check_float(rt, alloc, filler, digits.as_str());
}

/// A string of so many letters, and but for none a name of as many, and an int and a float of as many digits.
fn check_pieces(rt: &impl Abort, alloc: Global, filler: usize, length: usize) {
    let letters = "a".repeat(alloc, length).expect(rt, "memory");
    check_string(rt, alloc, filler, letters.as_str());
    if length > 0 {
        check_letters(rt, alloc, filler, letters.as_str());
        check_digits(rt, alloc, filler, length);
    }
}

fn check_about_the_end(rt: &impl Abort, alloc: Global, length: usize) {
    for filler in 978..1024 {
        check_pieces(rt, alloc, filler, length);
    }
}

/// Pieces of each length up to 40 about the end, and at each fill level of the buffer strings, long names and some floats.
#[test]
fn pieces_about_the_end_of_the_buffer(rt: HostRuntime) {
    for length in 0..41 {
        check_about_the_end(&rt, rt.alloc(), length);
        let letters = "a".repeat(rt.alloc(), length).expect(&rt, "memory");
        check_long_pieces(&rt, rt.alloc(), letters.as_str());
    }
    check_floats(&rt, rt.alloc());
}

/// Prints the tree behind these blanks: they stand as the indentation of the first line.
fn check_behind<T: Syntax>(rt: &impl Abort, alloc: Global, tree: &T, blanks: &str, text: &str) {
    let mut wanted = String::from_str(alloc, blanks).expect(rt, "memory");
    add(rt, &mut wanted, text);
    let print = Serialize::new(tree)
        .indent_prefix(blanks)
        .initial_indent_level(1);
    check_print(alloc, print, wanted.as_str()).expect(rt, text);
}

/// Prints the tree behind each number of blanks that the buffer holds.
fn check_at_each_fill_level<T: Syntax>(rt: &impl Abort, alloc: Global, tree: &T, text: &str) {
    let mut blanks = String::new(alloc);
    for _ in 0..=1024 {
        check_behind(rt, alloc, tree, blanks.as_str(), text);
        add(rt, &mut blanks, " ");
    }
}

/// `NAME: NAME!`
fn input_text(rt: &impl Abort, alloc: Global, name: &str) -> String {
    let mut text = String::new(alloc);
    for part in [name, ": ", name, "!"] {
        add(rt, &mut text, part);
    }
    text
}

/// The name alone, and the input value `NAME: NAME!`.
fn check_name(rt: &impl Abort, alloc: Global, text: &str) {
    let name = Name::compact(alloc, text).expect(rt, "a name");
    let value = Value::Enum(name.clone().expect(rt, "memory"));
    check_at_each_fill_level(rt, alloc, &value, text);
    let ty = Type::NonNullNamed(name.clone().expect(rt, "memory"));
    let ty = Node::new(alloc, ty).expect(rt, "memory");
    let input = InputValueDefinition::new(alloc, name, ty);
    let wanted = input_text(rt, alloc, text);
    check_at_each_fill_level(rt, alloc, &input, wanted.as_str());
}

/// Ints of each length up to 32: those of at most 30 digits stand in place.
fn check_ints(rt: &impl Abort, alloc: Global) {
    let mut digits = String::new(alloc);
    for _ in 0..32 {
        add(rt, &mut digits, "1");
        let int = int_value(rt, alloc, digits.as_str());
        check_at_each_fill_level(rt, alloc, &*int, digits.as_str());
    }
}

/// The same of the text alone, which is one of many.
fn check_text_at_each_fill_level(rt: &impl Abort, alloc: Global, tree: &Value, text: &str) {
    let mut blanks = String::new(alloc);
    for _ in 0..=1024 {
        let print = Serialize::new(tree).indent_prefix(blanks.as_str());
        let printed = print.initial_indent_level(1).to_text(alloc);
        let printed = printed.expect(rt, "memory");
        let found = printed.as_str().strip_prefix(blanks.as_str());
        assert!(rt; found == Some(text), "{printed}");
        add(rt, &mut blanks, " ");
    }
}

/// Floats of 3 digits and a point, and about as many as stand in place.
fn check_floats(rt: &impl Abort, alloc: Global) {
    for text in [
        "1.50",
        "111111111111111111111111111.5",
        "1111111111111111111111111111.5",
        "11111111111111111111111111111.5",
    ] {
        check_text_at_each_fill_level(rt, alloc, &*float_value(rt, alloc, text), text);
    }
}

/// A string of these letters, and from 21 letters on a name, which is shared.
fn check_long_pieces(rt: &impl Abort, alloc: Global, letters: &str) {
    let string = Value::from_text(alloc, letters).expect(rt, "memory");
    let quoted = format!(in alloc; "\"{letters}\"").expect(rt, "memory");
    check_text_at_each_fill_level(rt, alloc, &string, quoted.as_str());
    if letters.len() > 20 {
        check_text_at_each_fill_level(rt, alloc, &*enum_value(rt, alloc, letters), letters);
    }
}

/// Names of each length up to 20, of which those of at most 18 letters stand in place, and ints.
#[test]
fn names_at_each_fill_level_of_the_buffer(rt: HostRuntime) {
    let mut text = String::new(rt.alloc());
    for letter in "abcdefghijklmnopqrst".chars() {
        text.push(letter).expect(&rt, "memory");
        check_name(&rt, rt.alloc(), text.as_str());
    }
    check_ints(&rt, rt.alloc());
}

/// A list of two names, in so many lists.
fn nested(rt: &impl Abort, alloc: Global, levels: usize, filler: &str) -> Value {
    let first = enum_value(rt, alloc, filler);
    let names = vec![in alloc; first, enum_value(rt, alloc, "y")].expect(rt, "memory");
    let mut value = Value::List(names);
    for _ in 0..levels {
        let node = Node::new(alloc, value).expect(rt, "memory");
        value = Value::List(vec![in alloc; node].expect(rt, "memory"));
    }
    value
}

fn add(rt: &impl Abort, text: &mut String, more: &str) {
    text.push_str(more).expect(rt, "memory");
}

fn add_break(rt: &impl Abort, text: &mut String, prefix: &str, level: usize) {
    add(rt, text, "\n");
    for _ in 0..level {
        add(rt, text, prefix);
    }
}

/// What begins so many lists.
fn add_begins(rt: &impl Abort, text: &mut String, prefix: &str, levels: usize) {
    for level in 0..levels {
        add(rt, text, "[");
        add_break(rt, text, prefix, level.saturating_add(1));
    }
}

/// What ends them.
fn add_ends(rt: &impl Abort, text: &mut String, prefix: &str, levels: usize) {
    for level in (0..levels).rev() {
        add(rt, text, ",");
        add_break(rt, text, prefix, level);
        add(rt, text, "]");
    }
}

/// The text of such a list.
fn wanted(rt: &impl Abort, alloc: Global, prefix: &str, levels: usize, filler: &str) -> String {
    let mut text = String::new(alloc);
    let inner = levels.saturating_add(1);
    add_begins(rt, &mut text, prefix, inner);
    add(rt, &mut text, filler);
    add(rt, &mut text, ",");
    add_break(rt, &mut text, prefix, inner);
    add(rt, &mut text, "y");
    add_ends(rt, &mut text, prefix, inner);
    text
}

fn check_level(rt: &impl Abort, alloc: Global, prefix: &str, filler: &str, levels: usize) {
    let list = nested(rt, alloc, levels, filler);
    let print = list.serialize().indent_prefix(prefix);
    let wanted = wanted(rt, alloc, prefix, levels, filler);
    check_made(rt, print.to_text(alloc), wanted.as_str());
}

fn check_breaks(rt: &impl Abort, alloc: Global, prefix: &str, filler: &str) {
    for levels in 0..40 {
        check_level(rt, alloc, prefix, filler, levels);
    }
}

/// Breaks of two spaces, which are fronts of a text of 64 bytes, behind names of each length.
fn check_ready_breaks(rt: &impl Abort, alloc: Global) {
    for length in 1..1026 {
        let filler = "x".repeat(alloc, length).expect(rt, "memory");
        for levels in [0, 1, 14, 28, 29, 30] {
            check_level(rt, alloc, "  ", filler.as_str(), levels);
        }
    }
}

/// Behind a name that nearly fills the buffer stand breaks at each level up to 40.
#[test]
fn breaks_about_the_end_of_the_buffer(rt: HostRuntime) {
    for prefix in ["  ", "\t", "", " \t"] {
        for length in (914..1026).step_by(14) {
            let filler = "x".repeat(rt.alloc(), length).expect(&rt, "memory");
            check_breaks(&rt, rt.alloc(), prefix, filler.as_str());
        }
    }
    check_ready_breaks(&rt, rt.alloc());
}
