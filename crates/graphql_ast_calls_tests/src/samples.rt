//! JSON that tests read.

/// A query for one field.
pub(crate) const QUERY: &str =
    "{\"kind\":\"Document\",\"definitions\":[{\"kind\":\"OperationDefinition\",\"operation\":\"query\",\"selectionSet\":{\"kind\":\"SelectionSet\",\"selections\":[{\"kind\":\"Field\",\"name\":{\"kind\":\"Name\",\"value\":\"a\"}}]}}]}";

/// A scalar type, and a fragment named `on`.
pub(crate) const ILL_FORMED: &str =
    "{\"kind\":\"Document\",\"definitions\":[{\"kind\":\"ScalarTypeDefinition\",\"name\":{\"kind\":\"Name\",\"value\":\"A\"}},{\"kind\":\"FragmentDefinition\",\"name\":{\"kind\":\"Name\",\"value\":\"on\"},\"typeCondition\":{\"kind\":\"NamedType\",\"name\":{\"kind\":\"Name\",\"value\":\"T\"}},\"selectionSet\":{\"kind\":\"SelectionSet\",\"selections\":[{\"kind\":\"Field\",\"name\":{\"kind\":\"Name\",\"value\":\"a\"}}]}}]}";

/// A text that has an escape before its fault.
pub(crate) const NO_JSON: &str = "{\"kind\":\"\\u0044ocument\",\"definitions\":[}";
