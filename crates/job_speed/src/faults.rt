//! Faults in texts of AST JSON.

use crate::numbers::Numbers;
use std::alloc::{AllocError, Global};

/// What stands in a text, and what takes its place.
pub type Fault = (&'static str, &'static str);

/// How many faults there are of either form of JSON.
pub const COUNT: usize = 8;

/// Those of schemas. A strict reading refuses each of them, the last one since the tree isn't well formed.
const OF_SCHEMAS: [Fault; COUNT] = [
    ("\"kind\":\"", "\"kind\":\"X"),
    ("\"name\":", "\"names\":"),
    ("\"start\":", "\"start\":-"),
    ("\"loc\":", "\"extra\":[{}],\"loc\":"),
    ("\"directives\":", "\"directives\":true,\"of\":"),
    (
        "\"kind\":\"Name\",\"value\":\"",
        "\"kind\":\"Name\",\"value\":\"-",
    ),
    ("\"kind\":", "\"kind\""),
    (
        "{\"kind\":\"ObjectTypeDefinition\"",
        "{\"kind\":\"ScalarTypeExtension\",\"name\":{\"kind\":\"Name\",\"value\":\"A\"},\"loc\":{\"start\":1,\"end\":7}},\
         {\"kind\":\"ObjectTypeDefinition\"",
    ),
];

/// Those of operations. They are refused where what is unknown is passed over too, the last one since the tree isn't well
/// formed.
const OF_OPERATIONS: [Fault; COUNT] = [
    ("\"kind\":\"", "\"kind\":\"X"),
    ("\"name\":", "\"names\":"),
    ("\"start\":", "\"start\":-"),
    ("\"end\":", "\"end\":1e9"),
    ("\"directives\":", "\"directives\":0,\"of\":"),
    ("\"arguments\":[", "\"arguments\":[null,"),
    ("\"loc\":", "\"loc\""),
    (
        "\"value\":true}",
        "\"value\":true,\"kind\":\"EnumValue\",\"value\":\"true\"}",
    ),
];

/// A copy of a text in which a fault stands once, at a place that follows from the numbers.
fn with_fault(
    alloc: Global,
    text: &str,
    fault: Fault,
    numbers: &mut Numbers,
) -> Result<String, AllocError> {
    let (right, wrong) = fault;
    let place = numbers
        .below(text.match_indices(right).count())
        .wrapping_add(1);
    let mut faulty = String::new(alloc);
    for (index, piece) in text.split(right).enumerate() {
        if index > 0 {
            faulty.push_str(if index == place { wrong } else { right })?;
        }
        faulty.push_str(piece)?;
    }
    Ok(faulty)
}

/// A copy of a schema's text with the fault of this index.
pub fn in_schema(
    alloc: Global,
    text: &str,
    index: usize,
    numbers: &mut Numbers,
) -> Result<String, AllocError> {
    with_fault(alloc, text, OF_SCHEMAS[index % COUNT], numbers)
}

/// A copy of the text of operations with the fault of this index.
pub fn in_operations(
    alloc: Global,
    text: &str,
    index: usize,
    numbers: &mut Numbers,
) -> Result<String, AllocError> {
    with_fault(alloc, text, OF_OPERATIONS[index % COUNT], numbers)
}
