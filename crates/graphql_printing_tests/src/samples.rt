//! JSON of documents, and of none.

/// `{ a { b } }`.
pub const QUERY: &str =
    r#"{"kind":"Document","definitions":[{"kind":"OperationDefinition","operation":"query","selectionSet":{"kind":"SelectionSet","selections":[{"kind":"Field","name":{"kind":"Name","value":"a"},"selectionSet":{"kind":"SelectionSet","selections":[{"kind":"Field","name":{"kind":"Name","value":"b"}}]}}]}}]}"#;

/// `scalar S`, `scalar T`, with a member that no node has.
pub const UNKNOWN: &str =
    r#"{"kind":"Document","definitions":[{"kind":"ScalarTypeDefinition","name":{"kind":"Name","value":"S"},"more":1},{"kind":"ScalarTypeDefinition","name":{"kind":"Name","value":"T"}}]}"#;

/// Two definitions with flaws on either side of one without: a fragment without a selection, whose name is `on`, which
/// are two, and an extension that adds nothing.
pub const ILL_FORMED: &str =
    r#"{"kind":"Document","definitions":[{"kind":"FragmentDefinition","name":{"kind":"Name","value":"on","loc":{"start":9,"end":11}},"typeCondition":{"kind":"NamedType","name":{"kind":"Name","value":"T"}},"selectionSet":{"kind":"SelectionSet","selections":[]},"loc":{"start":0,"end":20}},{"kind":"ScalarTypeDefinition","name":{"kind":"Name","value":"S"}},{"kind":"ScalarTypeExtension","name":{"kind":"Name","value":"S"},"loc":{"start":22,"end":37}}]}"#;

/// The text that the locations of `ILL_FORMED` speak of.
pub const ILL_FORMED_SOURCE: &str = "fragment on on T { }\n\nextend scalar S";

/// A document without a definition.
pub const EMPTY: &str = r#"{"kind":"Document","definitions":[]}"#;

/// A field whose name is a number.
pub const NO_TREE: &str =
    r#"{"kind":"Document","definitions":[{"kind":"ScalarTypeDefinition","name":7,"loc":{"start":4,"end":9}}]}"#;
