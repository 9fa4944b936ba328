//! The types of the tree: documents, definitions, and all that stands in them; and the macros `ty!` and `value!`.

pub use crate::definition::Definition;
pub use crate::document::lines_and_columns::LineColumn;
pub use crate::document::look_ups::{Extensions, Fragments, Operations};
pub use crate::document::placed_flaw::{PlacedFlaw, SourcePosition};
pub use crate::document::{Document, SourceFile};
pub use crate::name::NamedType;
pub use graphql_executable::fragment_definition::FragmentDefinition;
pub use graphql_executable::fragment_spread::FragmentSpread;
pub use graphql_executable::operation_definition::OperationDefinition;
pub use graphql_executable::variable_definition::VariableDefinition;
pub use graphql_text::engine::Serialize;
pub use graphql_type_system::enum_type::{EnumTypeDefinition, EnumTypeExtension};
pub use graphql_type_system::enum_value_definition::EnumValueDefinition;
pub use graphql_type_system::field_definition::FieldDefinition;
pub use graphql_type_system::input_object_type::{
    InputObjectTypeDefinition, InputObjectTypeExtension,
};
pub use graphql_type_system::interface_type::{InterfaceTypeDefinition, InterfaceTypeExtension};
pub use graphql_type_system::object_type::{ObjectTypeDefinition, ObjectTypeExtension};
pub use graphql_type_system::scalar_type::{ScalarTypeDefinition, ScalarTypeExtension};
pub use graphql_type_system::schema::{SchemaDefinition, SchemaExtension};
pub use graphql_type_system::union_type::{UnionTypeDefinition, UnionTypeExtension};
pub use graphql_values::argument::Argument;
pub use graphql_values::directive::{
    ArgumentByNameError, ArgumentValue, Directive, SpecifiedArgumentError,
};
pub use graphql_values::directive_definition::DirectiveDefinition;
pub use graphql_values::directive_list::{DirectiveList, GetAll};
pub use graphql_values::directive_location::DirectiveLocation;
pub use graphql_values::input_value_definition::InputValueDefinition;
pub use graphql_values::literal::{FloatValue, IntValue, LiteralError};
pub use graphql_values::operation_type::OperationType;

// Types that hold themselves are named by aliases. A crate above could not write a contract over one that is merely
// passed on.

/// A value (`Value`, section 2.9).
pub type Value = graphql_values::value::Value;

/// A reference to a type (`Type`, section 2.11).
pub type Type = graphql_values::types::Type;

/// A selection (`Selection`, section 2.4).
pub type Selection = graphql_executable::selection::Selection;

/// A field (`Field`, section 2.5).
pub type Field = graphql_executable::field::Field;

/// An inline fragment (`InlineFragment`, section 2.8).
pub type InlineFragment = graphql_executable::inline_fragment::InlineFragment;

/// A type over a static name. `ty!(N)` and `ty!(N!)` are a `Type`, and allocate no memory. `ty!(in alloc; [..])` and
/// `ty!(in alloc; [..]!)` are a `Result<Type, AllocError>`, with `AllocError` if an allocation fails.
///
/// That the name is in name syntax is proved at the call. It stands in the body of a function.
///
/// ```
/// ty!(Int!)
/// ty!(in alloc; [[String!]]!)?
/// ```
#[macro_export]
macro_rules! ty {
    ($name:ident) => {
        $crate::ast::Type::Named($crate::name::Name::new_static_unchecked(stringify!($name)))
    };
    ($name:ident !) => {
        $crate::ast::Type::NonNullNamed($crate::name::Name::new_static_unchecked(stringify!($name)))
    };
    (in $alloc:expr; [ $($item:tt)+ ] !) => {
        match $crate::ty!(in $alloc; [ $($item)+ ]) {
            Ok(list) => Ok(list.non_null()),
            Err(error) => Err(error),
        }
    };
    (in $alloc:expr; [ [ $($item:tt)+ ] $($bang:tt)? ]) => {{
        let alloc = $alloc;
        match $crate::ty!(in alloc; [ $($item)+ ] $($bang)?) {
            Ok(item) => item.list(alloc),
            Err(error) => Err(error),
        }
    }};
    (in $alloc:expr; [ $($name:tt)+ ]) => {
        $crate::ty!($($name)+).list($alloc)
    };
}

/// A value as GraphQL writes it: a `Result<Value, AllocError>`, with `AllocError` if an allocation fails.
///
/// Integers within `i64`, numbers with a fraction or an exponent, and texts are literals of Rust; of a number with a
/// fraction or an exponent the digits stay as they are written. Enum values, variables and the names of fields are
/// identifiers. That a number is a `FloatValue`, and a name in name syntax, is proved at the call. No node has a
/// location. It stands in the body of a function.
///
/// Where a list or an object has a variable or a negative number, it may have about a hundred items.
///
/// ```
/// value!(in alloc; {min: 0, max: $max, tags: ["new", NEW], other: null})?
/// value!(in alloc; [-1, 1.50, true])?
/// ```
#[macro_export]
macro_rules! value {
    (in $alloc:expr; null) => {
        $crate::value_macro::plain($crate::ast::Value::Null)
    };
    (in $alloc:expr; true) => {
        $crate::value_macro::plain($crate::ast::Value::Boolean(true))
    };
    (in $alloc:expr; false) => {
        $crate::value_macro::plain($crate::ast::Value::Boolean(false))
    };
    (in $alloc:expr; $name:ident) => {
        $crate::value_macro::plain($crate::ast::Value::Enum(
            $crate::name::Name::new_static_unchecked(stringify!($name))
        ))
    };
    (in $alloc:expr; $literal:literal) => {
        $crate::value_macro::Literal::value($literal, $alloc, stringify!($literal))
    };
    (in $alloc:expr; ($literal:literal)) => {
        $crate::value_macro::Literal::value($literal, $alloc, stringify!($literal))
    };
    (in $alloc:expr; ($dollar:tt $name:ident)) => {
        $crate::value!(in $alloc; $dollar $name)
    };
    (in $alloc:expr; [ $($item:tt),* $(,)? ]) => {{
        let alloc = $alloc;
        let items = $crate::value_macro::no_items(alloc);
        $(let items = $crate::value_macro::with_item(items, $crate::value!(in alloc; $item));)*
        $crate::value_macro::list(alloc, items)
    }};
    (in $alloc:expr; { $($name:ident : $value:tt),* $(,)? }) => {{
        let alloc = $alloc;
        let fields = $crate::value_macro::no_items(alloc);
        $(let fields = $crate::value_macro::with_item(fields, $crate::value_macro::field(
            $crate::name::Name::new_static_unchecked(stringify!($name)),
            $crate::value!(in alloc; $value),
        ));)*
        $crate::value_macro::object(alloc, fields)
    }};
    // an item of two tokens, a variable or a negative number, becomes one by parentheses
    (in $alloc:expr; [ $($rest:tt)+ ]) => {
        $crate::value!(@list $alloc; [] $($rest)+)
    };
    (in $alloc:expr; { $($rest:tt)+ }) => {
        $crate::value!(@object $alloc; [] $($rest)+)
    };
    (in $alloc:expr; $dollar:tt $name:ident) => {
        $crate::value_macro::plain($crate::ast::Value::Variable(
            $crate::name::Name::new_static_unchecked(stringify!($name))
        ))
    };
    (@list $alloc:expr; [$($items:tt)*]) => {
        $crate::value!(in $alloc; [ $($items)* ])
    };
    (@list $alloc:expr; [$($items:tt)*] $item:tt $(, $($rest:tt)*)?) => {
        $crate::value!(@list $alloc; [$($items)* $item,] $($($rest)*)?)
    };
    (@list $alloc:expr; [$($items:tt)*] $literal:literal $(, $($rest:tt)*)?) => {
        $crate::value!(@list $alloc; [$($items)* ($literal),] $($($rest)*)?)
    };
    (@list $alloc:expr; [$($items:tt)*] $dollar:tt $name:ident $(, $($rest:tt)*)?) => {
        $crate::value!(@list $alloc; [$($items)* ($dollar $name),] $($($rest)*)?)
    };
    (@object $alloc:expr; [$($fields:tt)*]) => {
        $crate::value!(in $alloc; { $($fields)* })
    };
    (@object $alloc:expr; [$($fields:tt)*] $key:ident : $value:tt $(, $($rest:tt)*)?) => {
        $crate::value!(@object $alloc; [$($fields)* $key: $value,] $($($rest)*)?)
    };
    (@object $alloc:expr; [$($fields:tt)*] $key:ident : $literal:literal $(, $($rest:tt)*)?) => {
        $crate::value!(@object $alloc; [$($fields)* $key: ($literal),] $($($rest)*)?)
    };
    (@object $alloc:expr; [$($fields:tt)*] $key:ident : $dollar:tt $name:ident $(, $($rest:tt)*)?) => {
        $crate::value!(@object $alloc; [$($fields)* $key: ($dollar $name),] $($($rest)*)?)
    };
}
