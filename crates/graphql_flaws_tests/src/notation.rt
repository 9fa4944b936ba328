//! Trees in a short notation of AST JSON: as JSON they would fill a page each.
//!
//! A node is its kind and `;`, then its members, in `()`. A name is its text in `<>`, a selection set its selections in
//! `{}`, and `'` is a quotation mark. `#` is a value, `@` is a directive with that value, and `%` is a type. `^` and `&` are
//! locations, the second within the first.
use std::alloc::{AllocError, Global};

/// What stands for parts of a row.
const PARTS: [(char, &str); 6] = [
    (
        '@',
        "'directives':[(Directive;'name':<d>,'arguments':[(Argument;'name':<a>,'value':#)])]",
    ),
    ('%', "'type':(NamedType;'name':<T>)"),
    ('{', "'selectionSet':(SelectionSet;'selections':["),
    ('}', "])"),
    ('^', "'loc':~\"start\":0,\"end\":40!"),
    ('&', "'loc':~\"start\":9,\"end\":11!"),
];

/// A list in which the first item is a reserved enum value, and the second an object with a variable.
const VALUE: [(char, &str); 1] = [(
    '#',
    "(ListValue;'values':[(EnumValue;'value':'null'),(ObjectValue;'fields':[(ObjectField;'name':<k>,'value':(Variable;'name':<x>))])])",
)];

/// What stands for the characters of nodes.
const NOTATION: [(char, &str); 8] = [
    ('(', "{\"kind\":\""),
    (';', "\","),
    (')', "}"),
    ('<', "{\"kind\":\"Name\",\"value\":\""),
    ('>', "\"}"),
    ('\'', "\""),
    ('~', "{"),
    ('!', "}"),
];

/// A text with what stands for each of these characters.
fn replaced(alloc: Global, text: &str, table: &[(char, &str)]) -> Result<String, AllocError> {
    let mut whole = String::new(alloc);
    for character in text.chars() {
        match table.iter().find(|row| row.0 == character) {
            Some((_, long)) => whole.push_str(long)?,
            None => whole.push(character)?,
        }
    }
    Ok(whole)
}

/// The JSON of a row.
pub(crate) fn json_of(alloc: Global, row: &str) -> Result<String, AllocError> {
    let parts = replaced(alloc, row, &PARTS)?;
    let values = replaced(alloc, parts.as_str(), &VALUE)?;
    replaced(alloc, values.as_str(), &NOTATION)
}
