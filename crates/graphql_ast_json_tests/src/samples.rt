//! AST JSON that the tests read.

/// A definition of a directive with all that one may have.
pub(crate) const DEFINITION: &str = r#"{
  "kind": "DirectiveDefinition",
  "description": {"kind": "StringValue", "value": "D", "block": true},
  "name": {"kind": "Name", "value": "d"},
  "arguments": [{
    "kind": "InputValueDefinition",
    "name": {"kind": "Name", "value": "a"},
    "type": {"kind": "NonNullType", "type": {
      "kind": "ListType",
      "type": {"kind": "NamedType", "name": {"kind": "Name", "value": "T"}}
    }},
    "defaultValue": {"kind": "ListValue", "values": [{"kind": "ObjectValue", "fields": [{
      "kind": "ObjectField",
      "name": {"kind": "Name", "value": "k"},
      "value": {"kind": "FloatValue", "value": "1.5"}
    }]}]},
    "directives": [{
      "kind": "Directive",
      "name": {"kind": "Name", "value": "e"},
      "arguments": [{
        "kind": "Argument",
        "name": {"kind": "Name", "value": "x"},
        "value": {"kind": "StringValue", "value": "s"}
      }]
    }]
  }],
  "repeatable": true,
  "locations": [{"kind": "Name", "value": "FIELD"}]
}"#;

/// The definition on one line.
pub(crate) const PRINTED: &str =
    "\"D\" directive @d(a: [T]! = [{k: 1.5}] @e(x: \"s\")) repeatable on FIELD";

/// A node that tells where it stands.
pub(crate) const LOCATED: &str = r#"{"kind":"NullValue","loc":{"start":3,"end":7}}"#;

/// An extension that adds nothing, with a name that takes memory.
pub(crate) const ILL_FORMED: &str = r#"{"kind":"Document","definitions":[
  {"kind":"ScalarTypeExtension","name":{"kind":"Name","value":"NameOfTwentyFourLetters_"}}
]}"#;
