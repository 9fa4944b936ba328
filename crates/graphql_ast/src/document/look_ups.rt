//! What a document has: its operations and fragments, the extensions of a type, and the first definition of a name.
ghost use Rattle.std.specs.Prelude.{◌≡◌, ◌^◌, ◌<◌, length, option_copied};
ghost use Rattle.std.specs.Iterator.{YieldsFirstRef, item_count};
ghost use Rattle.std.specs.List.{find};
ghost use Rattle.graphql_ast.specs.DocumentQueries.{extensions_left, extensions_named, fragments, fragments_left, operations, operations_left};
ghost use Rattle.graphql_ast.specs.DocumentQueries.{first_directive_definition_named, first_fragment_named, first_operation_named, first_type_definition_named, has_name, is_directive_definition_named, is_extension_named, is_type_definition_named};

use crate::definition::Definition;
use crate::document::Document;
use graphql_base::name::Name;
use graphql_base::node::Node;
use graphql_executable::fragment_definition::FragmentDefinition;
use graphql_executable::operation_definition::OperationDefinition;
use graphql_values::directive_definition::DirectiveDefinition;

impl Document {
    /// The operations, in order.
    ///
    /// ```
    /// document.operations().count() // 2 of "query A { a } fragment F on T { a } mutation { b }"
    /// ```
    pub fn operations(&self) -> Operations<'_>
        ensures all { operations_left result ≡ operations self.now.definitions.items }
        ensures count { length (operations_left result) < 2 ^ 64 }
    {
        Operations {
            rest: self.definitions.as_slice(),
        }
    }

    /// The fragments, in order.
    ///
    /// ```
    /// document.fragments().next() // the node of fragment F on T { a }
    /// ```
    pub fn fragments(&self) -> Fragments<'_>
        ensures all { fragments_left result ≡ fragments self.now.definitions.items }
        ensures count { length (fragments_left result) < 2 ^ 64 }
    {
        Fragments {
            rest: self.definitions.as_slice(),
        }
    }

    /// The extensions of the type of that name, in order.
    ///
    /// ```
    /// document.extensions_of("Query").count() // 1 of "type Query extend type Query @a extend schema @a"
    /// ```
    pub fn extensions_of<'d, 'n>(&'d self, name: &'n str) -> Extensions<'d, 'n>
        ensures all { extensions_left result
            ≡ extensions_named name.now self.now.definitions.items }
        ensures count { length (extensions_left result) < 2 ^ 64 }
    {
        Extensions {
            rest: self.definitions.as_slice(),
            name,
        }
    }

    /// The first operation of that name, or the first anonymous one where no name is given.
    ///
    /// ```
    /// document.operation(Some("A")) // the node of query A { a }
    /// document.operation(None)      // that of { a }
    /// ```
    pub fn operation(&self, name: Option<&str>) -> Option<&Node<OperationDefinition>>
        ensures { option_copied result
            ≡ first_operation_named (option_copied name.entry) self.now.definitions.items }
    {
        self.operations()
            .find(|node| has_name(node.name.as_ref(), name))
    }

    /// The first fragment of that name.
    ///
    /// ```
    /// document.fragment("F") // the node of fragment F on T { a }
    /// ```
    pub fn fragment(&self, name: &str) -> Option<&Node<FragmentDefinition>>
        ensures { option_copied result
            ≡ first_fragment_named name.now self.now.definitions.items }
    {
        self.fragments().find(|node| node.name.as_str() == name)
    }

    /// The first definition of a type of that name; no extension is one.
    ///
    /// ```
    /// document.type_definition("Query") // type Query { a: Int }
    /// ```
    pub fn type_definition(&self, name: &str) -> Option<&Definition>
        ensures { option_copied result
            ≡ first_type_definition_named name.now self.now.definitions.items }
    {
        self.definitions
            .iter()
            .find(|definition| is_type_definition_named(definition, name))
    }

    /// The first definition of a directive of that name, without `@`.
    ///
    /// ```
    /// document.directive_definition("a") // the node of directive @a on FIELD
    /// ```
    pub fn directive_definition(&self, name: &str) -> Option<&Node<DirectiveDefinition>>
        ensures { option_copied result
            ≡ first_directive_definition_named name.now self.now.definitions.items }
    {
        let definition = self.first_directive_definition(name)?;
        definition.as_directive_definition()
    }

    /// The same, as a definition.
    fn first_directive_definition(&self, name: &str) -> Option<&Definition>
        ensures { option_copied result
            ≡ find (is_directive_definition_named name.now) self.now.definitions.items }
    {
        self.definitions.iter().find(|definition| is_directive_definition_named(definition, name))
    }
}

/// Whether that is the name, or there is none where none is asked for.
fn has_name(name: Option<&Name>, wanted: Option<&str>) -> bool
    ensures { result ≡ has_name (option_copied wanted.entry) (option_copied name.entry) }
{
    match (name, wanted) {
        (Some(name), Some(wanted)) => name.as_str() == wanted,
        (None, None) => true,
        (Some(_), None) | (None, Some(_)) => false,
    }
}

/// Whether it defines the type of that name.
fn is_type_definition_named(definition: &Definition, name: &str) -> bool
    ensures { result ≡ is_type_definition_named name.now definition.now }
{
    definition.is_type_definition() && has_name(definition.name(), Some(name))
}

/// Whether it defines the directive of that name.
fn is_directive_definition_named(definition: &Definition, name: &str) -> bool
    ensures { result ≡ is_directive_definition_named name.now definition.now }
{
    match definition {
        Definition::DirectiveDefinition(node) => node.name.as_str() == name,
        _ => false,
    }
}

/// Whether it extends the type of that name.
fn is_extension_named(definition: &Definition, name: &str) -> bool
    ensures { result ≡ is_extension_named name.now definition.now }
{
    definition.is_extension_definition() && has_name(definition.name(), Some(name))
}

/// The operations of a document, in order: an iterator.
///
/// After the last operation it returns `None` at each call.
///
/// ```
/// // query A { a } fragment F on T { a } mutation B { b }
/// for operation in document.operations() {
///     println!(rt; "{}", operation.operation_type)?; // query, then mutation
/// }
/// ```
#[derive(Drop)]
pub struct Operations<'d> {
    rest: &'d [Definition],
}

impl<'d> Iterator for Operations<'d> {
    type Item = &'d Node<OperationDefinition>;

    ghost next_gives = { YieldsFirstRef operations_left };

    ghost remaining = { item_count operations_left };

    fn next(&mut self) -> Option<&'d Node<OperationDefinition>> {
        while let Some((first, others)) = self.rest.split_first() {
            self.rest = others;
            if let Definition::OperationDefinition(node) = first {
                return Some(node);
            }
        }
        None
    }
}

/// The fragments of a document, in order: an iterator.
///
/// After the last fragment it returns `None` at each call.
///
/// ```
/// // query A { a } fragment F on T { a }
/// for fragment in document.fragments() {
///     println!(rt; "{} on {}", fragment.name, fragment.type_condition)?; // F on T
/// }
/// ```
#[derive(Drop)]
pub struct Fragments<'d> {
    rest: &'d [Definition],
}

impl<'d> Iterator for Fragments<'d> {
    type Item = &'d Node<FragmentDefinition>;

    ghost next_gives = { YieldsFirstRef fragments_left };

    ghost remaining = { item_count fragments_left };

    fn next(&mut self) -> Option<&'d Node<FragmentDefinition>> {
        while let Some((first, others)) = self.rest.split_first() {
            self.rest = others;
            if let Definition::FragmentDefinition(node) = first {
                return Some(node);
            }
        }
        None
    }
}

/// The extensions of a type in a document, in order: an iterator.
///
/// After the last extension it returns `None` at each call.
///
/// ```
/// // type Query { a: Int } extend type Query { b: Int }
/// for extension in document.extensions_of("Query") {
///     println!(rt; "{}", extension.serialize().no_indent())?; // extend type Query { b: Int }
/// }
/// ```
#[derive(Drop)]
pub struct Extensions<'d, 'n> {
    rest: &'d [Definition],
    name: &'n str,
}

impl<'d> Iterator for Extensions<'d, '_> {
    type Item = &'d Definition;

    ghost next_gives = { YieldsFirstRef extensions_left };

    ghost remaining = { item_count extensions_left };

    fn next(&mut self) -> Option<&'d Definition> {
        while let Some((first, others)) = self.rest.split_first() {
            self.rest = others;
            if is_extension_named(first, self.name) {
                return Some(first);
            }
        }
        None
    }
}
